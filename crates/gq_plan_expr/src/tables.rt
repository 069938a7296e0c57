// The place of a field in each type.
ghost use Rattle.std.specs.Prelude.{◌≡◌, IfOk, map};
ghost use Rattle.gq_rules_typing.specs.Sorts.{VertexSort, EdgeSort, vertex_sort, edge_sort};
ghost use Rattle.gq_plan_expr.specs.Found.{in_vertex, in_edge, in_tuple};

use crate::attributes::{attribute_place, vertex_place};
use crate::names::NamedTupleType;
use gq_base::{List, OutOfMemory};
use gq_graph::EdgeType;
use gq_schema::Catalog;
use gq_scope::field_place;
use std::alloc::Global;

/// Returns the place in each vertex type of the catalog.
#[tactic(auto, using(crate::proofs::TableLemmas::table_laws))]
pub(crate) fn in_vertices(
    alloc: Global,
    catalog: &Catalog,
    name: &str,
) -> Result<List<Option<u32>>, OutOfMemory>
    ensures { IfOk result (λ places. places ≡ map (in_vertex name.now) (map vertex_sort catalog.now.vertex_types)) }
{
    let count = catalog.type_count() - catalog.edge_types().len() as u32;
    let mut places = List::new(alloc);
    for number in 0..count {
        let vertex = catalog.vertex_at(number);
        let place = vertex_place(&vertex.id, vertex.attributes.as_slice(), name)?;
        places.push(place)?;
    }
    Ok(places)
}

/// Returns the place in each edge type of the catalog.
#[tactic(auto, using(crate::proofs::RowLemmas::row_laws))]
pub(crate) fn in_edges(
    alloc: Global,
    types: &[EdgeType],
    name: &str,
) -> Result<List<Option<u32>>, OutOfMemory>
    ensures { IfOk result (λ places. places ≡ map (in_edge name.now) (map edge_sort types.now)) }
{
    let mut places = List::new(alloc);
    for edge in types {
        let place = attribute_place(edge.attributes.as_slice(), name)?;
        places.push(place)?;
    }
    Ok(places)
}

/// Returns the place in each tuple type of the query.
#[tactic(auto, using(crate::proofs::RowLemmas::row_laws))]
pub(crate) fn in_tuples(
    alloc: Global,
    types: &[NamedTupleType],
    name: &str,
) -> Result<List<Option<u32>>, OutOfMemory>
    ensures { IfOk result (λ places. places ≡ map (in_tuple name.now) types.now) }
{
    let mut places = List::new(alloc);
    for tuple in types {
        let place = field_place(tuple.1.as_slice(), name)?;
        places.push(place)?;
    }
    Ok(places)
}
