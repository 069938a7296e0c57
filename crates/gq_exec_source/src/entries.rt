// The types under which the index has the walks of a step.
ghost use Rattle.std.specs.Prelude.{◌≡◌, ◌+◌, ◌<◌, ◌^◌, length, map, slice_get, IfOk, IfSome};
ghost use Rattle.gq_graph.specs.Candidates.{Sight};
ghost use Rattle.gq_index.specs.Walks.{adjacency, walked, walks_under};
ghost use Rattle.gq_exec_source.specs.Entries as spec;
ghost use Rattle.gq_exec_source.specs.Entries.{AreFound};
ghost use Rattle.gq_exec_source.specs.Ways.{step_of, step_walks};

use crate::path_types::PathStep;
use crate::walks::ways_of;
use gq_base::OutOfMemory;
use gq_graph::EdgeType;
use gq_index::{Index, Neighbor};
use gq_tree::Way;
use std::alloc::Global;

/// A type that a step walks, and the type under which the index has these walks.
#[derive(Clone, Copy)]
pub(crate) struct Entry {
    pub(crate) kind: u32,
    pub(crate) under: u32,
}

/// Whether the index walks a type in this way.
fn is_own_way(edge_type: &EdgeType, way: Way) -> bool
    ensures { result ≡ spec.is_own_way edge_type.now way }
{
    let one_way = edge_type.directed || edge_type.forward.is_some();
    match way {
        Way::Forward => one_way,
        Way::Backward => false,
        Way::Both => !one_way,
    }
}

/// Whether a type is directed and isn't a reverse type.
fn goes_forward(types: &[EdgeType], kind: u32) -> bool
    ensures { result ≡ spec.goes_forward (slice_get types.now kind) }
{
    match types.get(kind as usize) {
        Some(edge_type) => edge_type.directed && edge_type.forward.is_none(),
        None => false,
    }
}

/// Whether a type is the reverse type of another.
fn reverses(types: &[EdgeType], kind: u32, forward: u32) -> bool
    ensures { result ≡ spec.reverses forward (slice_get types.now kind) }
{
    match types.get(kind as usize) {
        Some(edge_type) => match edge_type.forward {
            Some(base) => base == forward,
            None => false,
        },
        None => false,
    }
}

/// The number, if `wanted`.
fn only_if(wanted: bool, number: u32) -> Option<u32>
    ensures { result ≡ spec.only_if wanted number }
{
    if wanted { Some(number) } else { None }
}

/// The type of the opposite direction.
fn other_way(types: &[EdgeType], kind: u32, edge_type: &EdgeType) -> Option<u32>
    ensures { result ≡ spec.other_way types.now kind edge_type.now }
{
    match edge_type.forward {
        Some(base) => only_if(goes_forward(types, base), base),
        None => match edge_type.reverse {
            Some(reverse) => only_if(reverses(types, reverse, kind), reverse),
            None => None,
        },
    }
}

/// The type under which the index has the walks along a type in a way, if it has them.
fn entry_in(types: &[EdgeType], kind: u32, edge_type: &EdgeType, way: Way) -> Option<u32>
    ensures { result ≡ spec.entry_in types.now kind edge_type.now way }
{
    match way {
        Way::Forward => only_if(is_own_way(edge_type, Way::Forward), kind),
        Way::Backward => other_way(types, kind, edge_type),
        Way::Both => only_if(is_own_way(edge_type, Way::Both), kind),
    }
}

/// The types under which the index has the walks of a step; None if it doesn't have all of them.
pub(crate) fn entries_of(
    alloc: Global,
    step: &PathStep,
    types: &[EdgeType],
) -> Result<Option<Vec<Entry>>, OutOfMemory>
    requires limited { length types.now + 1 < 2 ^ 32 }
    ensures { IfOk result (λ found. IfSome found (λ entries. AreFound types.now entries.items (step_walks (step_of step.now) types.now))) }
{
    let mut entries = Vec::new(alloc);
    for (kind, edge_type) in types.iter().enumerate() {
        let ways = ways_of(alloc, step, kind as u32)?;
        if ways.len() > 1 {
            return Ok(None);
        }
        if ways.len() == 1 {
            match entry_in(types, kind as u32, edge_type, ways[0]) {
                Some(under) => entries.push(Entry {
                    kind: kind as u32,
                    under,
                })?,
                None => return Ok(None),
            }
        }
    }
    Ok(Some(entries))
}

/// The walks that the index has from a vertex under a type.
pub(crate) fn ways_under(index: &Index, vertex: u32, kind: u32) -> &[Neighbor]
    ensures { (sight : Sight) → index.now ≡ adjacency sight → vertex < length sight.kinds → kind < length sight.types
        → map (walked vertex) result.now ≡ walks_under sight.types sight.edges vertex kind }
{
    let ways = index.ways(vertex);
    let first = ways.partition_point(|way| way.kind < kind);
    let rest = &ways[first..];
    let count = rest.partition_point(|way| way.kind <= kind);
    &rest[..count]
}
