// Types of the graph, and the edge types of a hop.
ghost use Rattle.std.specs.Prelude.{◌≡◌, IfOk, filter};
ghost use Rattle.gq_graph.specs.Candidates.{among};
ghost use Rattle.gq_exec_source.specs.Starts.{types_in};

use gq_base::{List, OutOfMemory};
use gq_graph::Numbers;
use gq_plan_ir::Types;
use std::alloc::Global;

/// The edge types that a hop names, if they are of the graph; or all of these.
pub(crate) fn edge_types(alloc: Global, own: &[u32], types: &Types) -> Result<Numbers, OutOfMemory>
    ensures { IfOk result (λ ts. ts ≡ types_in own.now types.now) }
{
    match types {
        Types::Every => List::from_slice(alloc, own),
        Types::These(kinds) => named_of(alloc, own, kinds.as_slice()),
    }
}

/// Those of the types that are the graph's.
#[tactic(auto, using(crate::proofs::StartLemmas::kept_laws))]
fn named_of(alloc: Global, own: &[u32], kinds: &[u32]) -> Result<Numbers, OutOfMemory>
    ensures { IfOk result (λ ts. ts ≡ filter (among own.now) kinds.now) }
{
    let mut kept = List::new(alloc);
    for kind in kinds {
        if is_own(own, *kind) {
            kept.push(*kind)?;
        }
    }
    Ok(kept)
}

/// Whether a type is one of these.
pub fn is_own(own: &[u32], kind: u32) -> bool
    ensures { result ≡ among own.now kind }
{
    own.contains(&kind)
}
