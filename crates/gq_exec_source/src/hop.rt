// The walks of a step by the vertex that they start from.
ghost use Rattle.std.specs.Prelude.{◌≡◌, ◌+◌, ◌<◌, ◌^◌, ◌++◌, ◌∷◌, [], All, length, map, IfOk, OnOk};
ghost use Rattle.gq_graph.specs.Candidates.{is_target};
ghost use Rattle.gq_index.specs.Places.{IsPlaced};
ghost use Rattle.gq_index.specs.Sights.{vertex_kinds};
ghost use Rattle.gq_index.specs.Walks.{edge_kinds, walk_at};
ghost use Rattle.gq_exec_source.specs.Hops.{goes_on, is_kept, kept, walks_at, IsHop};
ghost use Rattle.gq_exec_source.specs.Ways.{step_of, step_walks};

use crate::path_types::PathStep;
use crate::walks::walks_of;
use gq_base::{OutOfMemory, within};
use gq_edge::EdgeEnds;
use gq_graph::EdgeType;
use gq_index::{Traversal, in_order, part};
use gq_vertex::Vertices;
use std::alloc::Global;
use std::marker::Model;

/// The walks of a step by the vertex that they start from. Contracts see a list of walks for each vertex.
///
/// It takes 16 bytes for each walk, and 4 for each vertex.
#[derive(Drop)]
pub(crate) struct Hop {
    starts: Vec<u32>,
    walks: Vec<Traversal>,
}

impl Model for Hop {
    ghost use Rattle.std.specs.Prelude.{List, length};
    ghost use Rattle.gq_index.specs.declared.walks.Traversal.{Traversal};
    ghost use Rattle.gq_index.specs.Places.{cut_up, IsCut};

    ghost Value = { List (List Traversal) };

    ghost view = { λ h. cut_up h.starts.items h.walks.items };

    ghost invariant = { λ h. IsCut h.starts.items (length h.walks.items) };
}

/// The vertices that a step may lead to: those of the target types from which the first of these hops continues; any if
/// there is none.
#[derive(Clone, Copy)]
pub(crate) struct Beyond<'a> {
    pub(crate) vertices: &'a Vertices,
    pub(crate) targets: &'a [u32],
    pub(crate) hops: &'a [Hop],
}

/// Whether a vertex exists and has one of the types.
pub(crate) fn reaches(vertices: &Vertices, targets: &[u32], vertex: u32) -> bool
    ensures { result ≡ is_target (vertex_kinds vertices.now) targets.now vertex }
{
    if vertex >= vertices.len() {
        return false;
    }
    targets.contains(&vertices.kind(vertex))
}

/// Whether a path continues from a vertex.
fn leads_on(hops: &[Hop], vertex: u32) -> bool
    ensures { result ≡ goes_on hops.now vertex }
{
    match hops {
        [] => true,
        [hop, ..] => hop.taken_from(vertex).len() != 0,
    }
}

/// Whether a walk leads on.
fn keeps(beyond: &Beyond<'_>, walk: Traversal) -> bool
    ensures { result ≡ is_kept (vertex_kinds beyond.now.vertices.now) beyond.now.targets.now beyond.now.hops.now walk }
{
    if walk.source >= beyond.vertices.len() {
        return false;
    }
    reaches(beyond.vertices, beyond.targets, walk.target) && leads_on(beyond.hops, walk.target)
}

/// Appends a walk if it leads on.
pub(crate) fn add(
    beyond: &Beyond<'_>,
    walk: Traversal,
    walks: &mut Vec<Traversal>,
) -> Result<(), OutOfMemory>
    ensures { OnOk result (walks.new.items ≡ walks.old.items ++ kept beyond.now (walk ∷ [])) }
{
    if keeps(beyond, walk) {
        walks.push(walk)?;
        return Ok(());
    }
    Ok(())
}

/// The start of each walk.
fn sources_of(alloc: Global, walks: &[Traversal]) -> Result<Vec<u32>, OutOfMemory>
    ensures { IfOk result (λ s. s.items ≡ map (λ w. w.source) walks.now) }
{
    Ok(walks.iter().map(|walk| walk.source).collect(alloc)?)
}

/// The walks at these places, in this order.
fn picked(alloc: Global, walks: &[Traversal], order: &[u32]) -> Result<Vec<Traversal>, OutOfMemory>
    requires { All (λ i. i < length walks.now) order.now }
    ensures { IfOk result (λ w. w.items ≡ map (walk_at walks.now) order.now) }
{
    let mut all = Vec::with_capacity(alloc, order.len())?;
    for place in order {
        all.push(walks[*place as usize])?;
    }
    Ok(all)
}

impl Hop {
    /// The walks from a vertex, in order.
    pub(crate) fn taken_from(&self, vertex: u32) -> &[Traversal]
        ensures { result.now ≡ walks_at self.now vertex }
    {
        part(&self.starts, &self.walks, vertex as usize)
    }

    /// Sorts walks by their start vertex. More than 4,294,967,295 walks are `OutOfMemory` too.
    fn of(alloc: Global, walks: &[Traversal], vertices: u32) -> Result<Hop, OutOfMemory>
        requires { All (λ w. w.source < vertices) walks.now }
        ensures { IfOk result (λ h. IsHop vertices h walks.now) }
    {
        within(walks.len(), u32::MAX as usize)?;
        let keys = sources_of(alloc, walks)?;
        let (starts, order) = in_order(alloc, &keys, vertices as usize)?;
        let walks = picked(alloc, walks, &order)?;
        Ok(Hop { starts, walks })
    }

    /// The walks of a step that lead on, given the order of the rows' numbers by their types.
    pub(crate) fn build(
        alloc: Global,
        step: &PathStep,
        beyond: &Beyond<'_>,
        types: &[EdgeType],
        rows: &[EdgeEnds],
        starts: &[u32],
        order: &[u32],
    ) -> Result<Hop, OutOfMemory>
        requires placed { IsPlaced (edge_kinds (length types.now) rows.now) (length types.now + 1) starts.now order.now }
        requires limited { length types.now + 1 < 2 ^ 32 }
        ensures { IfOk result (λ h. IsHop (length beyond.now.vertices.now) h (kept beyond.now (step_walks (step_of step.now) types.now rows.now))) }
    {
        let walks = walks_of(alloc, step, beyond, types, rows, starts, order)?;
        Hop::of(alloc, &walks, beyond.vertices.len())
    }
}
