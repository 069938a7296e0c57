// The bindings of a path by the index: from each vertex of a set along its walks, step by step.
ghost use Rattle.std.specs.Prelude.{◌≡◌, ◌+◌, ◌<◌, ◌≤◌, ◌++◌, ◌∷◌, [], All, length, map, Err, IfOk, IfSome, OnOk};
ghost use Rattle.std.specs.List.{flat_map};
ghost use Rattle.gq_graph.specs.Candidates.{by_number};
ghost use Rattle.gq_index.specs.Segments.{of_walk};
ghost use Rattle.gq_index.specs.Sights.{sight_of, vertex_kinds};
ghost use Rattle.gq_index.specs.Walks.{adjacency};
ghost use Rattle.gq_rules_meaning.specs.Paths.{bindings, steps_from};
ghost use Rattle.gq_exec_source.specs.declared.lookups.Halt.TheVariants as halt;
ghost use Rattle.gq_exec_source.specs.declared.path_types.PathsFault.TheVariants as fault;
ghost use Rattle.gq_exec_source.specs.Indexed.{plain, went_on, AreKnown, AreReady, IsReady};
ghost use Rattle.gq_exec_source.specs.Hops.{start_at};
ghost use Rattle.gq_exec_source.specs.Ways.{step_of};

use crate::entries::ways_under;
use crate::indexed::{IndexedStep, indexed_steps, is_left_out, leads_on};
use crate::path_types::{PathStep, PathsFault};
use crate::paths::list_last;
use gq_base::OutOfMemory;
use gq_index::{Candidates, Graph, Listing, Neighbor, Traversal, in_number_order};
use std::alloc::Global;

/// Why not all bindings are listed.
enum Halt {
    TooMany,
    OutOfMemory,

    /// More walks were looked at than allowed.
    Costly,
}

/// Continues a walk along those of these ways that lead to a target from which a path may continue, and appends
/// the results.
#[tactic(auto, using(crate::proofs::LookupLemmas::went_laws))]
fn add_ways(
    graph: &Graph<'_>,
    step: &IndexedStep<'_>,
    rest: &[IndexedStep<'_>],
    kind: u32,
    walk: Traversal,
    ways: &[Neighbor],
    walks: &mut Vec<Traversal>,
) -> Result<(), OutOfMemory>
    requires { AreKnown (vertex_kinds graph.now.store.now.vertices) step.now.step.now.targets rest.now step.now.leading }
    ensures { OnOk result (walks.new.items ≡ walks.old.items ++ went_on (vertex_kinds graph.now.store.now.vertices) step.now.step.now.targets rest.now kind walk ways.now) }
{
    for way in ways {
        if leads_on(graph, step, rest, way.target) {
            walks.push(Traversal {
                source: walk.source,
                kind,
                row: way.row,
                target: way.target,
            })?;
        }
    }
    Ok(())
}

/// The continuations of a walk along a step before others, without those known to lead nowhere: they give all bindings
/// of the step and the others. The walks looked at are deducted from the budget that is left.
fn taken(
    alloc: Global,
    graph: &Graph<'_>,
    step: &IndexedStep<'_>,
    rest: &[IndexedStep<'_>],
    walk: Traversal,
    left: &mut u64,
) -> Result<Vec<Traversal>, OutOfMemory>
    requires indexed { graph.now.index.now ≡ adjacency (sight_of graph.now.catalog.now graph.now.store.now.vertices graph.now.store.now.edges) }
    requires ready { IsReady (sight_of graph.now.catalog.now graph.now.store.now.vertices graph.now.store.now.edges) step.now rest.now }
    requires rest { AreReady (sight_of graph.now.catalog.now graph.now.store.now.vertices graph.now.store.now.edges) rest.now }
    requires here { walk.target < length graph.now.store.now.vertices }
    ensures leads { IfOk result (λ t. flat_map (λ x. steps_from (sight_of graph.now.catalog.now graph.now.store.now.vertices graph.now.store.now.edges) (map plain rest.now) (of_walk x)) t.items
        ≡ steps_from (sight_of graph.now.catalog.now graph.now.store.now.vertices graph.now.store.now.edges) (map plain (step.now ∷ rest.now)) (of_walk walk)) }
    ensures within { IfOk result (λ t. All (λ w. w.target < length graph.now.store.now.vertices) t.items) }
{
    let mut walks = Vec::new(alloc);
    for entry in step.entries.as_slice() {
        let ways = ways_under(graph.index, walk.target, entry.under);
        *left = left.saturating_sub(ways.len() as u64);
        add_ways(graph, step, rest, entry.kind, walk, ways, &mut walks)?;
    }
    Ok(walks)
}

/// The same, and nothing if it is known that no path continues from the end of the walk.
fn next_walks(
    alloc: Global,
    graph: &Graph<'_>,
    step: &IndexedStep<'_>,
    rest: &[IndexedStep<'_>],
    walk: Traversal,
    left: &mut u64,
) -> Result<Vec<Traversal>, OutOfMemory>
    requires indexed { graph.now.index.now ≡ adjacency (sight_of graph.now.catalog.now graph.now.store.now.vertices graph.now.store.now.edges) }
    requires ready { IsReady (sight_of graph.now.catalog.now graph.now.store.now.vertices graph.now.store.now.edges) step.now rest.now }
    requires rest { AreReady (sight_of graph.now.catalog.now graph.now.store.now.vertices graph.now.store.now.edges) rest.now }
    requires here { walk.target < length graph.now.store.now.vertices }
    ensures leads { IfOk result (λ t. flat_map (λ x. steps_from (sight_of graph.now.catalog.now graph.now.store.now.vertices graph.now.store.now.edges) (map plain rest.now) (of_walk x)) t.items
        ≡ steps_from (sight_of graph.now.catalog.now graph.now.store.now.vertices graph.now.store.now.edges) (map plain (step.now ∷ rest.now)) (of_walk walk)) }
    ensures within { IfOk result (λ t. All (λ w. w.target < length graph.now.store.now.vertices) t.items) }
{
    if is_left_out(&step.leading, walk.target) {
        return Ok(Vec::new(alloc));
    }
    taken(alloc, graph, step, rest, walk, left)
}

/// Lists these walks as bindings.
fn list_each(walks: &[Traversal], listing: &mut Listing) -> Result<(), Halt>
    requires { length listing.old ≤ 4194304 }
    ensures ok { OnOk result (listing.new ≡ listing.old ++ map of_walk walks.now) }
    ensures few { OnOk result (length listing.new ≤ 4194304) }
    ensures many { result ≡ Err halt.TooMany → 4194304 < length listing.old + length walks.now }
{
    for walk in walks {
        match list_last(*walk, listing) {
            Ok(()) => {}
            Err(PathsFault::TooMany) => return Err(Halt::TooMany),
            Err(PathsFault::OutOfMemory) => return Err(Halt::OutOfMemory),
        }
    }
    Ok(())
}

/// Lists the ends of these walks, step by step.
fn list_all(
    steps: &[IndexedStep<'_>],
    alloc: Global,
    graph: &Graph<'_>,
    walks: &[Traversal],
    listing: &mut Listing,
    left: &mut u64,
) -> Result<(), Halt>
    requires indexed { graph.now.index.now ≡ adjacency (sight_of graph.now.catalog.now graph.now.store.now.vertices graph.now.store.now.edges) }
    requires ready { AreReady (sight_of graph.now.catalog.now graph.now.store.now.vertices graph.now.store.now.edges) steps.now }
    requires within { All (λ w. w.target < length graph.now.store.now.vertices) walks.now }
    requires few { length listing.old ≤ 4194304 }
    ensures ok { OnOk result (listing.new ≡ listing.old ++ flat_map (λ w. steps_from (sight_of graph.now.catalog.now graph.now.store.now.vertices graph.now.store.now.edges) (map plain steps.now) (of_walk w)) walks.now) }
    ensures few { OnOk result (length listing.new ≤ 4194304) }
    ensures many { result ≡ Err halt.TooMany → 4194304 < length listing.old + length (flat_map (λ w. steps_from (sight_of graph.now.catalog.now graph.now.store.now.vertices graph.now.store.now.edges) (map plain steps.now) (of_walk w)) walks.now) }
{
    match steps {
        [] => list_each(walks, listing),
        [step, rest @ ..] => {
            for walk in walks {
                if *left == 0 {
                    return Err(Halt::Costly);
                }
                *left -= 1;
                match next_walks(alloc, graph, step, rest, *walk, left) {
                    Ok(next) => match list_all(rest, alloc, graph, &next, listing, left) {
                        Ok(()) => {}
                        Err(halt) => return Err(halt),
                    },
                    Err(OutOfMemory) => return Err(Halt::OutOfMemory),
                }
            }
            Ok(())
        }
    }
}

/// The initial walks of these vertices.
fn begun(alloc: Global, sources: &[u32]) -> Result<Vec<Traversal>, OutOfMemory>
    ensures { IfOk result (λ walks. walks.items ≡ map start_at sources.now) }
{
    Ok(
        sources
            .iter()
            .map(|source| Traversal {
                source: *source,
                kind: 0,
                row: 0,
                target: *source,
            })
            .collect(alloc)?,
    )
}

/// Steps with their index entries, and the walks that a set begins with; None if the index doesn't have all walks.
fn ready<'a>(
    alloc: Global,
    graph: &Graph<'_>,
    set: &[u32],
    steps: &'a [PathStep],
    marked: bool,
) -> Result<Option<(Vec<IndexedStep<'a>>, Vec<Traversal>)>, OutOfMemory>
    ensures same { IfOk result (λ found. IfSome found (λ p. map plain p.0.items ≡ map step_of steps.now)) }
    ensures ready { IfOk result (λ found. IfSome found (λ p. AreReady (sight_of graph.now.catalog.now graph.now.store.now.vertices graph.now.store.now.edges) p.0.items)) }
    ensures begun { IfOk result (λ found. IfSome found (λ p. p.1.items ≡ map start_at (by_number (sight_of graph.now.catalog.now graph.now.store.now.vertices graph.now.store.now.edges) set.now))) }
{
    match indexed_steps(steps, alloc, graph, marked)? {
        Some(all) => {
            let sources = in_number_order(alloc, set, graph)?;
            let walks = begun(alloc, &sources)?;
            Ok(Some((all, walks)))
        }
        None => Ok(None),
    }
}

/// The bindings that begin with these walks, unless more walks are looked at than allowed.
fn listed<'g>(
    alloc: Global,
    graph: &Graph<'g>,
    steps: &[IndexedStep<'_>],
    walks: &[Traversal],
    most: u64,
) -> Result<Option<Candidates<'g>>, PathsFault>
    requires indexed { graph.now.index.now ≡ adjacency (sight_of graph.now.catalog.now graph.now.store.now.vertices graph.now.store.now.edges) }
    requires ready { AreReady (sight_of graph.now.catalog.now graph.now.store.now.vertices graph.now.store.now.edges) steps.now }
    requires within { All (λ w. w.target < length graph.now.store.now.vertices) walks.now }
    ensures listed { IfOk result (λ found. IfSome found (λ p. p ≡ flat_map (λ w. steps_from (sight_of graph.now.catalog.now graph.now.store.now.vertices graph.now.store.now.edges) (map plain steps.now) (of_walk w)) walks.now)) }
    ensures few { IfOk result (λ found. IfSome found (λ p. length p ≤ 4194304)) }
    ensures many { result ≡ Err fault.TooMany → 4194304 < length (flat_map (λ w. steps_from (sight_of graph.now.catalog.now graph.now.store.now.vertices graph.now.store.now.edges) (map plain steps.now) (of_walk w)) walks.now) }
{
    let mut listing = Listing::new(alloc);
    let mut left = most;
    match list_all(steps, alloc, graph, walks, &mut listing, &mut left) {
        Ok(()) => Ok(Some(listing.done())),
        Err(Halt::Costly) => Ok(None),
        Err(Halt::TooMany) => Err(PathsFault::TooMany),
        Err(Halt::OutOfMemory) => Err(PathsFault::OutOfMemory),
    }
}

/// The bindings of a set and of one step or more, if the index has the walks of each step and no more of them are
/// looked at than allowed; None otherwise. Vertices that lead on are marked before, if asked for, by a pass over the
/// rows for each step.
pub(crate) fn looked_up<'g>(
    alloc: Global,
    graph: &Graph<'g>,
    set: &[u32],
    steps: &[PathStep],
    marked: bool,
    most: u64,
) -> Result<Option<Candidates<'g>>, PathsFault>
    requires indexed { graph.now.index.now ≡ adjacency (sight_of graph.now.catalog.now graph.now.store.now.vertices graph.now.store.now.edges) }
    requires some { 0 < length steps.now }
    ensures listed { IfOk result (λ found. IfSome found (λ p. p ≡ bindings (sight_of graph.now.catalog.now graph.now.store.now.vertices graph.now.store.now.edges) set.now (map step_of steps.now))) }
    ensures few { IfOk result (λ found. IfSome found (λ p. length p ≤ 4194304)) }
    ensures many { result ≡ Err fault.TooMany → 4194304 < length (bindings (sight_of graph.now.catalog.now graph.now.store.now.vertices graph.now.store.now.edges) set.now (map step_of steps.now)) }
{
    match ready(alloc, graph, set, steps, marked) {
        Ok(Some((all, walks))) => listed(alloc, graph, &all, &walks, most),
        Ok(None) => Ok(None),
        Err(OutOfMemory) => Err(PathsFault::OutOfMemory),
    }
}
