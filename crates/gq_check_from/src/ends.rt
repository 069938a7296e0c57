// Where edge types lead. It depends only on the catalog, so checking and execution share it.
ghost use Rattle.std.specs.Prelude.{◌≡◌, ◌++◌, None, slice_get, IfOk, OnOk};
ghost use Rattle.std.specs.List.{flat_map};
ghost use Rattle.std.specs.Option.{option_copied, option_map};
ghost use Rattle.gq_rules_typing.specs.Sorts.{edge_sort, sorts_of};
ghost use Rattle.gq_rules_typing.specs.Patterns as spec;
ghost use Rattle.gq_check_from.specs.Walks as walks;

use crate::numbers::by_number;
use gq_base::{List, OutOfMemory};
use gq_graph::{EdgeType, Numbers};
use gq_schema::Catalog;
use gq_tree::Way;
use std::alloc::Global;

/// The edge type with a number.
pub(crate) fn edge_at(catalog: &Catalog, t: u32) -> Option<&EdgeType>
    ensures { option_map edge_sort (option_copied result) ≡ slice_get (sorts_of catalog.now None).edges t }
{
    catalog.edge_by_number(t)
}

/// The default direction: a directed type is walked from FROM to TO, an undirected one from either end.
#[tactic(auto, using(crate::proofs::SortLemmas::way_laws))]
fn own_way(catalog: &Catalog, t: u32) -> Way
    ensures { result ≡ spec.own_way (sorts_of catalog.now None) t }
{
    match edge_at(catalog, t) {
        None => Way::Both,
        Some(edge) => {
            if edge.directed {
                Way::Forward
            } else {
                Way::Both
            }
        }
    }
}

/// Appends the types to which an edge type leads, walked in a direction.
#[tactic(auto, using(crate::proofs::SortLemmas::way_laws))]
pub fn push_ends(
    catalog: &Catalog,
    way: Way,
    t: u32,
    ends: &mut Vec<u32>,
) -> Result<(), OutOfMemory>
    ensures { OnOk result (ends.new.items ≡ ends.old.items ++ spec.ends_of (sorts_of catalog.now None) (way, t)) }
{
    match edge_at(catalog, t) {
        None => Ok(()),
        Some(edge) => match way {
            Way::Forward => {
                ends.push(edge.to)?;
                Ok(())
            }
            Way::Backward => {
                ends.push(edge.from)?;
                Ok(())
            }
            Way::Both => {
                ends.push(edge.from)?;
                ends.push(edge.to)?;
                Ok(())
            }
        },
    }
}

/// The far ends of edge types, each walked in its default direction.
pub fn hop_far(alloc: Global, catalog: &Catalog, edges: &[u32]) -> Result<Vec<u32>, OutOfMemory>
    ensures { IfOk result (λ v. v.items ≡ flat_map (spec.ends_of (sorts_of catalog.now None)) (walks.own_ways (sorts_of catalog.now None) edges.now)) }
{
    let mut far = Vec::new(alloc);
    for t in edges {
        push_ends(catalog, own_way(catalog, *t), *t, &mut far)?;
    }
    Ok(far)
}

/// The distinct types in order; if there are none, all types of the graph, which are `own`.
pub fn or_all(alloc: Global, own: &[u32], types: Vec<u32>) -> Result<Numbers, OutOfMemory>
    ensures { IfOk result (λ l. l ≡ spec.or_all own.now types.items) }
{
    if types.is_empty() {
        List::from_slice(alloc, own)
    } else {
        by_number(types)
    }
}
