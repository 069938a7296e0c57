// The bindings of a path.
ghost use Rattle.std.specs.Prelude.{◌≡◌, ◌+◌, ◌<◌, ◌≤◌, ◌++◌, List, [], ◌∷◌, length, map, IfOk, IfSome, OnOk, Err, Some, slice_get};
ghost use Rattle.gq_graph.specs.Candidates.{by_number};
ghost use Rattle.gq_index.specs.Places.{IsPlaced};
ghost use Rattle.gq_index.specs.Segments.{of_walk};
ghost use Rattle.gq_index.specs.Sights.{sight_of};
ghost use Rattle.gq_index.specs.Walks.{adjacency, edge_kinds};
ghost use Rattle.gq_rules_meaning.specs.Paths.{bindings};
ghost use Rattle.gq_exec_source.specs.declared.path_types.PathsFault.TheVariants as fault;
ghost use Rattle.gq_rules_typing.specs.Patterns as patterns;
ghost use Rattle.gq_exec_source.specs.Hops as meant;
ghost use Rattle.gq_exec_source.specs.Hops.{walks_from, walks_on, AreHops};
ghost use Rattle.gq_exec_source.specs.Ways.{step_of};

use crate::hop::{Beyond, Hop};
use crate::lookups::looked_up;
use crate::path_types::{PathPattern, PathStep, PathsFault};
use gq_base::OutOfMemory;
use gq_graph::{Candidate, Steps};
use gq_index::{Candidates, Graph, Listing, Traversal, VertexList, in_number_order, rows_by_kind};
use std::alloc::Global;
use std::marker::Model;

/// The largest number of bindings of a path.
pub const MOST_PATHS: usize = 4194304;

/// How many edges the store has for each walk that a search looks at before it is given up: so giving up costs little
/// compared with what follows, which scans all rows for each step.
const ROWS_PER_LOOKUP: u32 = 8;

/// A walk without any step yet.
fn start_at(source: u32) -> Traversal
    ensures { result ≡ meant.start_at source }
{
    Traversal {
        source,
        kind: 0,
        row: 0,
        target: source,
    }
}

/// A walk, continued along the next one.
fn on_along(walk: Traversal, next: Traversal) -> Traversal
    ensures { result ≡ meant.on_along walk next }
{
    Traversal {
        source: walk.source,
        kind: next.kind,
        row: next.row,
        target: next.target,
    }
}

/// Lists a binding, if there is room for one more.
pub(crate) fn list_last(walk: Traversal, listing: &mut Listing) -> Result<(), PathsFault>
    requires { length listing.old ≤ 4194304 }
    ensures ok { OnOk result (listing.new ≡ listing.old ++ of_walk walk ∷ []) }
    ensures few { OnOk result (length listing.new ≤ 4194304) }
    ensures many { result ≡ Err fault.TooMany → 4194304 < length listing.old + 1 }
{
    if listing.len() >= MOST_PATHS {
        return Err(PathsFault::TooMany);
    }
    match listing.push(walk) {
        Ok(()) => Ok(()),
        Err(OutOfMemory) => Err(PathsFault::OutOfMemory),
    }
}

/// Lists the bindings that begin with a walk, hop by hop.
fn list_on(hops: &[Hop], walk: Traversal, listing: &mut Listing) -> Result<(), PathsFault>
    requires { length listing.old ≤ 4194304 }
    ensures ok { OnOk result (listing.new ≡ listing.old ++ map of_walk (walks_on hops.now walk)) }
    ensures few { OnOk result (length listing.new ≤ 4194304) }
    ensures many { result ≡ Err fault.TooMany → 4194304 < length listing.old + length (walks_on hops.now walk) }
{
    match hops {
        [] => list_last(walk, listing),
        [hop, rest @ ..] => {
            for next in hop.taken_from(walk.target) {
                match list_on(rest, on_along(walk, *next), listing) {
                    Ok(()) => {}
                    Err(fault) => return Err(fault),
                }
            }
            Ok(())
        }
    }
}

/// Lists the bindings that begin at these vertices.
fn list_from(hops: &[Hop], sources: &[u32], listing: &mut Listing) -> Result<(), PathsFault>
    requires { length listing.old ≤ 4194304 }
    ensures ok { OnOk result (listing.new ≡ listing.old ++ map of_walk (walks_from hops.now sources.now)) }
    ensures few { OnOk result (length listing.new ≤ 4194304) }
    ensures many { result ≡ Err fault.TooMany → 4194304 < length listing.old + length (walks_from hops.now sources.now) }
{
    for source in sources {
        match list_on(hops, start_at(*source), listing) {
            Ok(()) => {}
            Err(fault) => return Err(fault),
        }
    }
    Ok(())
}

/// The hop of the step before these hops.
fn hop_before(
    alloc: Global,
    graph: &Graph<'_>,
    starts: &[u32],
    order: &[u32],
    step: &PathStep,
    hops: &[Hop],
) -> Result<Hop, OutOfMemory>
    requires placed { IsPlaced (edge_kinds (length graph.now.catalog.now.edge_types) graph.now.store.now.edges.rows) (length graph.now.catalog.now.edge_types + 1) starts.now order.now }
    ensures { IfOk result (λ h. (steps : List patterns.PathStep) → AreHops (sight_of graph.now.catalog.now graph.now.store.now.vertices graph.now.store.now.edges) steps hops.now
        → AreHops (sight_of graph.now.catalog.now graph.now.store.now.vertices graph.now.store.now.edges) (step_of step.now ∷ steps) (h ∷ hops.now)) }
{
    let beyond = Beyond {
        vertices: &graph.store.vertices,
        targets: step.targets.as_slice(),
        hops,
    };
    let types = graph.catalog.edge_types();
    let rows = graph.store.edges.ends();
    Hop::build(alloc, step, &beyond, types, rows, starts, order)
}

/// The hops of steps, made from the last one to the first.
fn hops_of(
    steps: &[PathStep],
    alloc: Global,
    graph: &Graph<'_>,
    starts: &[u32],
    order: &[u32],
) -> Result<Vec<Hop>, OutOfMemory>
    requires placed { IsPlaced (edge_kinds (length graph.now.catalog.now.edge_types) graph.now.store.now.edges.rows) (length graph.now.catalog.now.edge_types + 1) starts.now order.now }
    ensures { IfOk result (λ h. AreHops (sight_of graph.now.catalog.now graph.now.store.now.vertices graph.now.store.now.edges) (map step_of steps.now) h.items) }
{
    match steps {
        [] => Ok(Vec::new(alloc)),
        [step, rest @ ..] => {
            let mut hops = hops_of(rest, alloc, graph, starts, order)?;
            let hop = hop_before(alloc, graph, starts, order, step, &hops)?;
            hops.insert(0, hop)?;
            Ok(hops)
        }
    }
}

/// The hops of steps, and the vertices of a set by number.
fn prepared(
    alloc: Global,
    graph: &Graph<'_>,
    set: &[u32],
    steps: &[PathStep],
) -> Result<(Vec<Hop>, Vec<u32>), OutOfMemory>
    ensures hops { IfOk result (λ p. AreHops (sight_of graph.now.catalog.now graph.now.store.now.vertices graph.now.store.now.edges) (map step_of steps.now) p.0.items) }
    ensures sources { IfOk result (λ p. p.1.items ≡ by_number (sight_of graph.now.catalog.now graph.now.store.now.vertices graph.now.store.now.edges) set.now) }
{
    let count = graph.catalog.edge_types().len() as u32;
    let (starts, order) = rows_by_kind(alloc, graph.store.edges.ends(), count)?;
    let hops = hops_of(steps, alloc, graph, &starts, &order)?;
    let sources = in_number_order(alloc, set, graph)?;
    Ok((hops, sources))
}

/// The bindings of a set and of one step or more.
fn listed<'g>(
    alloc: Global,
    graph: &Graph<'g>,
    set: &[u32],
    steps: &[PathStep],
) -> Result<Candidates<'g>, PathsFault>
    requires some { 0 < length steps.now }
    ensures listed { IfOk result (λ p. p ≡ bindings (sight_of graph.now.catalog.now graph.now.store.now.vertices graph.now.store.now.edges) set.now (map step_of steps.now)) }
    ensures few { IfOk result (λ p. length p ≤ 4194304) }
    ensures many { result ≡ Err fault.TooMany → 4194304 < length (bindings (sight_of graph.now.catalog.now graph.now.store.now.vertices graph.now.store.now.edges) set.now (map step_of steps.now)) }
{
    match prepared(alloc, graph, set, steps) {
        Ok((hops, sources)) => {
            let mut listing = Listing::new(alloc);
            match list_from(&hops, &sources, &mut listing) {
                Ok(()) => Ok(listing.done()),
                Err(fault) => Err(fault),
            }
        }
        Err(OutOfMemory) => Err(PathsFault::OutOfMemory),
    }
}

/// The bindings of a set and of one step or more by the index, if it has all walks. If many walks are looked at, the
/// vertices that lead on are marked before.
fn searched<'g>(
    alloc: Global,
    graph: &Graph<'g>,
    set: &[u32],
    steps: &[PathStep],
) -> Result<Option<Candidates<'g>>, PathsFault>
    requires indexed { graph.now.index.now ≡ adjacency (sight_of graph.now.catalog.now graph.now.store.now.vertices graph.now.store.now.edges) }
    requires some { 0 < length steps.now }
    ensures listed { IfOk result (λ found. IfSome found (λ p. p ≡ bindings (sight_of graph.now.catalog.now graph.now.store.now.vertices graph.now.store.now.edges) set.now (map step_of steps.now))) }
    ensures few { IfOk result (λ found. IfSome found (λ p. length p ≤ 4194304)) }
    ensures many { result ≡ Err fault.TooMany → 4194304 < length (bindings (sight_of graph.now.catalog.now graph.now.store.now.vertices graph.now.store.now.edges) set.now (map step_of steps.now)) }
{
    let most = (graph.store.edges.len() / ROWS_PER_LOOKUP) as u64;
    if set.len() as u64 <= most {
        match looked_up(alloc, graph, set, steps, false, most) {
            Ok(Some(found)) => return Ok(Some(found)),
            Ok(None) => {}
            Err(fault) => return Err(fault),
        }
    }
    looked_up(alloc, graph, set, steps, true, u64::MAX)
}

/// The bindings of a set and of one step or more: by the index, or else along the hops of all rows.
fn along<'g>(
    alloc: Global,
    graph: &Graph<'g>,
    set: &[u32],
    steps: &[PathStep],
) -> Result<Candidates<'g>, PathsFault>
    requires indexed { graph.now.index.now ≡ adjacency (sight_of graph.now.catalog.now graph.now.store.now.vertices graph.now.store.now.edges) }
    requires some { 0 < length steps.now }
    ensures listed { IfOk result (λ p. p ≡ bindings (sight_of graph.now.catalog.now graph.now.store.now.vertices graph.now.store.now.edges) set.now (map step_of steps.now)) }
    ensures few { IfOk result (λ p. length p ≤ 4194304) }
    ensures many { result ≡ Err fault.TooMany → 4194304 < length (bindings (sight_of graph.now.catalog.now graph.now.store.now.vertices graph.now.store.now.edges) set.now (map step_of steps.now)) }
{
    match searched(alloc, graph, set, steps) {
        Ok(Some(found)) => Ok(found),
        Ok(None) => listed(alloc, graph, set, steps),
        Err(fault) => Err(fault),
    }
}

/// The bindings of no step: the vertices of the set.
fn alone<'g>(
    alloc: Global,
    graph: &Graph<'g>,
    set: &VertexList,
) -> Result<Candidates<'g>, PathsFault>
    requires indexed { graph.now.index.now ≡ adjacency (sight_of graph.now.catalog.now graph.now.store.now.vertices graph.now.store.now.edges) }
    ensures listed { IfOk result (λ p. p ≡ bindings (sight_of graph.now.catalog.now graph.now.store.now.vertices graph.now.store.now.edges) set.now []) }
    ensures few { IfOk result (λ p. length p ≤ 4194304) }
    ensures many { result ≡ Err fault.TooMany → 4194304 < length (bindings (sight_of graph.now.catalog.now graph.now.store.now.vertices graph.now.store.now.edges) set.now []) }
{
    match Candidates::of(alloc, graph, set, None) {
        Ok(all) => {
            if all.count() > MOST_PATHS as u64 {
                return Err(PathsFault::TooMany);
            }
            Ok(all)
        }
        Err(OutOfMemory) => Err(PathsFault::OutOfMemory),
    }
}

/// The bindings of a path, in order of source and, step after step, of edge type and edge. Contracts see them as a list. A binding is a
/// candidate: its source, its last edge with the type, and the end of that. There are at most `MOST_PATHS`.
///
/// They take 12 bytes for each segment, which is one source with one edge type after another, and 8 for each binding.
#[derive(Drop)]
pub struct Paths<'g> {
    found: Candidates<'g>,
}

impl<'g> Model for Paths<'g> {
    ghost use Rattle.std.specs.Prelude.{List, length, ◌≤◌};
    ghost use Rattle.gq_graph.specs.declared.rows.Candidate.{Candidate};

    ghost Value = { List Candidate };

    ghost view = { λ p. p.found };

    ghost invariant = { λ p. length p.found ≤ 4194304 };
}

impl<'g> Paths<'g> {
    /// The bindings of a set and a pattern. If each step walks a type as the index does, or against it if it has a
    /// reverse type, the time depends on the walks that are looked at, which are at most those from vertices that lead
    /// on, and a pass over the vertices and over the rows for each step. Else it is that of a pass over the rows of
    /// each step's types, and of as many steps for each binding as the pattern has.
    pub fn of(
        alloc: Global,
        graph: &Graph<'g>,
        set: &VertexList,
        pattern: &PathPattern,
    ) -> Result<Paths<'g>, PathsFault>
        requires indexed { graph.now.index.now ≡ adjacency (sight_of graph.now.catalog.now graph.now.store.now.vertices graph.now.store.now.edges) }
        ensures listed { IfOk result (λ p. p ≡ bindings (sight_of graph.now.catalog.now graph.now.store.now.vertices graph.now.store.now.edges) set.now (map step_of pattern.now)) }
        ensures few { IfOk result (λ p. length p ≤ 4194304) }

        // The bindings are counted before conditions on them are evaluated.
        ensures many { result ≡ Err fault.TooMany → 4194304 < length (bindings (sight_of graph.now.catalog.now graph.now.store.now.vertices graph.now.store.now.edges) set.now (map step_of pattern.now)) }
    {
        let steps = pattern.as_slice();
        let found = if steps.is_empty() {
            alone(alloc, graph, set)
        } else {
            along(alloc, graph, set.as_slice(), steps)
        };
        match found {
            Ok(found) => Ok(Paths { found }),
            Err(fault) => Err(fault),
        }
    }

    /// How many bindings there are.
    pub fn count(&self) -> u64
        ensures count { result ≡ length self.now }
        ensures few { length self.now ≤ 4194304 }
    {
        self.found.count()
    }

    /// The binding at a place. Takes no memory, and time logarithmic in the number of segments.
    pub fn at(&self, place: u64) -> Candidate
        requires within { place < length self.now }
        ensures { slice_get self.now place ≡ Some result }
    {
        self.found.at(place, &mut Steps::new())
    }

    /// The bindings as candidates.
    pub fn into_candidates(self) -> Candidates<'g>
        ensures list { result ≡ self.entry }
        ensures few { length result ≤ 4194304 }
    {
        self.found
    }

    /// The bindings as candidates, which workers process.
    pub fn candidates(&self) -> &Candidates<'g>
        ensures { result.now ≡ self.now }
    {
        &self.found
    }
}
