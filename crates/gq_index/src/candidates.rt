// The candidates of a block.
ghost use Rattle.std.specs.Prelude.{◌≡◌, ℕ, ◌+◌, ◌<◌, ◌≤◌, ◌^◌, ◌++◌, ◌&&◌, List, [], ◌∷◌, length, Some, IfOk, IfSome, map, filter, nat_lt, slice_get, slice_index};
ghost use Rattle.std.specs.List.{flat_map};
ghost use Rattle.std.specs.Option.{option_copied};
ghost use Rattle.gq_graph.specs.Candidates.{alone, among, by_number, candidates, is_target};
ghost use Rattle.gq_index.specs.declared.walks.Traversal.{Traversal};
ghost use Rattle.gq_index.specs.Runs.{Holds};
ghost use Rattle.gq_index.specs.Sights.{sight_of, vertex_kinds};
ghost use Rattle.gq_index.specs.Walks.{adjacency, walks_at, walked};
ghost use Rattle.gq_index.specs.Segments.{AreAll, is_wanted, leads, segment_count, of_walk};
ghost use Rattle.gq_index.specs.Stretches.{way_at};

use crate::index::Index;
use crate::marks::Marks;
use crate::runs::{Cursor, Reached, Runs, Segment, push};
use crate::store::Graph;
use crate::stretches::Stretches;
use crate::vertex_list::VertexList;
use crate::walks::{Neighbor, Traversal};
use gq_base::{OutOfMemory, within};
use gq_graph::{Candidate, Pattern, Steps};
use gq_vertex::Vertices;
use std::alloc::Global;
use std::marker::Model;

/// The representation of candidates: vertices, or walks that are copied, or walks that are read in an index.
#[derive(Drop)]
pub enum CandidateRows<'g> {
    Vertices(Vec<u32>),
    Edges(Runs),
    InPlace(Stretches<'g>),
}

/// The types that a pattern lists.
#[derive(Drop)]
struct Wanted<'a> {
    edges: Marks<'a>,
    targets: Marks<'a>,
    /// Whether it is known that each vertex has a listed type.
    all: bool,
}

/// Whether a vertex exists and has a listed type.
fn reaches(targets: &Marks<'_>, vertices: &Vertices, vertex: u32) -> bool
    ensures { result ≡ is_target (vertex_kinds vertices.now) targets.now vertex }
{
    if vertex >= vertices.len() {
        return false;
    }
    targets.has(vertices.kind(vertex))
}

/// Whether each vertex has a listed type.
fn are_all(targets: &Marks<'_>, vertices: &Vertices) -> bool
    ensures { AreAll (vertex_kinds vertices.now) targets.now result }
{
    for vertex in 0..vertices.len() {
        if !reaches(targets, vertices, vertex) {
            return false;
        }
    }
    true
}

/// Whether each vertex is known to have a listed type. It is found out where there are many sources: a look at all
/// vertices costs less than those at the ends of many walks.
fn are_known(targets: &Marks<'_>, vertices: &Vertices, sources: usize) -> bool
    ensures { AreAll (vertex_kinds vertices.now) targets.now result }
{
    if sources < vertices.len() as usize / 4 {
        return false;
    }
    are_all(targets, vertices)
}

/// Whether a vertex exists and has a wanted type. Its type is read only where types differ: the vertices at the far ends
/// of edges are far apart in memory.
fn is_wanted_end(wanted: &Wanted<'_>, vertices: &Vertices, vertex: u32) -> bool
    requires { AreAll (vertex_kinds vertices.now) wanted.now.targets wanted.now.all }
    ensures { result ≡ is_target (vertex_kinds vertices.now) wanted.now.targets vertex }
{
    if wanted.all && vertex < vertices.len() {
        return true;
    }
    reaches(&wanted.targets, vertices, vertex)
}

/// Whether an edge type is wanted, and a vertex exists and has a wanted type.
fn wants(wanted: &Wanted<'_>, vertices: &Vertices, kind: u32, target: u32) -> bool
    requires { AreAll (vertex_kinds vertices.now) wanted.now.targets wanted.now.all }
    ensures { result ≡ (among wanted.now.edges kind && is_target (vertex_kinds vertices.now) wanted.now.targets target) }
{
    wanted.edges.has(kind) && is_wanted_end(wanted, vertices, target)
}

/// Where the ways from a place on that are wanted end, or those that aren't.
fn end_of_run(
    ways: &[Neighbor],
    from: usize,
    wanted: &Wanted<'_>,
    vertices: &Vertices,
    are_wanted: bool,
) -> usize
    requires from { from ≤ length ways.now }
    requires all { AreAll (vertex_kinds vertices.now) wanted.now.targets wanted.now.all }
    ensures order { from ≤ result }
    ensures within { result ≤ length ways.now }
    ensures run { (k : ℕ) → from ≤ k → k < result → leads wanted.now.edges (vertex_kinds vertices.now) wanted.now.targets (way_at ways.now k) ≡ are_wanted }
{
    let mut end = from;
    while end < ways.len() {
        if wants(wanted, vertices, ways[end].kind, ways[end].target) != are_wanted {
            return end;
        }
        end += 1;
    }
    end
}

/// The wanted ways, if no other way is between them.
fn wanted_ways<'g>(
    ways: &'g [Neighbor],
    wanted: &Wanted<'_>,
    vertices: &Vertices,
) -> Option<&'g [Neighbor]>
    requires { AreAll (vertex_kinds vertices.now) wanted.now.targets wanted.now.all }
    ensures { IfSome result (λ part. part.now ≡ filter (leads wanted.now.edges (vertex_kinds vertices.now) wanted.now.targets) ways.now) }
{
    let first = end_of_run(ways, 0, wanted, vertices, false);
    let end = end_of_run(ways, first, wanted, vertices, true);
    if end_of_run(ways, end, wanted, vertices, false) < ways.len() {
        return None;
    }
    Some(&ways[first..end])
}

/// The wanted walks from the given vertices, which are read in the index; None if from one of them other ways are
/// between the wanted ones.
fn found_in_place<'g>(
    alloc: Global,
    index: &'g Index,
    sources: &[u32],
    wanted: &Wanted<'_>,
    vertices: &Vertices,
) -> Result<Option<Stretches<'g>>, OutOfMemory>
    requires all { AreAll (vertex_kinds vertices.now) wanted.now.targets wanted.now.all }
    requires rising { (a b : ℕ) → a < b → b < length sources.now → slice_index sources.now a < slice_index sources.now b }
    ensures { IfOk result (λ found. IfSome found (λ walks. walks ≡ flat_map (λ v. filter (is_wanted wanted.now.edges (vertex_kinds vertices.now) wanted.now.targets) (walks_at index.now v)) sources.now)) }
{
    let mut walks = Stretches::new(alloc);
    for source in sources {
        match wanted_ways(index.ways(*source), wanted, vertices) {
            Some(ways) => walks.push(*source, ways)?,
            None => return Ok(None),
        }
    }
    Ok(Some(walks))
}

/// Adds a walk if it is wanted.
fn add_way(
    walk: Traversal,
    wanted: &Wanted<'_>,
    vertices: &Vertices,
    segments: &mut Vec<Segment>,
    reached: &mut Vec<Reached>,
) -> Result<(), OutOfMemory>
    requires { AreAll (vertex_kinds vertices.now) wanted.now.targets wanted.now.all }
    ensures { IfOk result (λ _. (before : List Traversal) → Holds segments.old.items reached.old.items before
        → Holds segments.new.items reached.new.items
        (before ++ filter (is_wanted wanted.now.edges (vertex_kinds vertices.now) wanted.now.targets) (walk ∷ []))) }
{
    within(reached.len(), u32::MAX as usize - 1)?;
    if wants(wanted, vertices, walk.kind, walk.target) {
        push(segments, reached, walk)?;
        return Ok(());
    }
    Ok(())
}

/// Adds the wanted walks from one vertex.
fn add_wanted(
    source: u32,
    ways: &[Neighbor],
    wanted: &Wanted<'_>,
    vertices: &Vertices,
    segments: &mut Vec<Segment>,
    reached: &mut Vec<Reached>,
) -> Result<(), OutOfMemory>
    requires { AreAll (vertex_kinds vertices.now) wanted.now.targets wanted.now.all }
    ensures { IfOk result (λ _. (before : List Traversal) → Holds segments.old.items reached.old.items before
        → Holds segments.new.items reached.new.items
        (before ++ filter (is_wanted wanted.now.edges (vertex_kinds vertices.now) wanted.now.targets) (map (walked source) ways.now))) }
{
    for way in ways {
        let walk = Traversal {
            source,
            kind: way.kind,
            row: way.row,
            target: way.target,
        };
        add_way(walk, wanted, vertices, segments, reached)?;
    }
    Ok(())
}

/// Collects all wanted walks from the given vertices.
fn gather(
    alloc: Global,
    index: &Index,
    sources: &[u32],
    wanted: &Wanted<'_>,
    vertices: &Vertices,
) -> Result<Runs, OutOfMemory>
    requires { AreAll (vertex_kinds vertices.now) wanted.now.targets wanted.now.all }
    ensures { IfOk result (λ r. r ≡ flat_map (λ v. filter (is_wanted wanted.now.edges (vertex_kinds vertices.now) wanted.now.targets) (walks_at index.now v)) sources.now) }
{
    let mut segments = Vec::new(alloc);
    let mut reached = Vec::new(alloc);
    for source in sources {
        add_wanted(
            *source,
            index.ways(*source),
            wanted,
            vertices,
            &mut segments,
            &mut reached,
        )?;
    }
    Ok(Runs::of(segments, reached))
}

/// The numbers that are below a count.
fn below(alloc: Global, numbers: &[u32], count: u32) -> Result<Vec<u32>, OutOfMemory>
    ensures { IfOk result (λ kept. kept.items ≡ filter (λ n. nat_lt n count) numbers.now) }
{
    Ok(
        numbers
            .iter()
            .copied()
            .filter(|number| *number < count)
            .collect(alloc)?,
    )
}

/// The existing vertices of a set, by number, at a cost that depends on the set alone.
pub fn in_number_order(
    alloc: Global,
    set: &[u32],
    graph: &Graph<'_>,
) -> Result<Vec<u32>, OutOfMemory>
    ensures { IfOk result (λ v. v.items ≡ by_number (sight_of graph.now.catalog.now graph.now.store.now.vertices graph.now.store.now.edges) set.now) }
{
    let mut sources = below(alloc, set, graph.store.vertices.len())?;
    sources.sort()?;
    sources.dedup();
    Ok(sources)
}

/// Collects all candidates of a step along edges, without a copy if those from each vertex are neighbours in the index.
fn walks_of<'g>(
    alloc: Global,
    graph: &Graph<'g>,
    set: &[u32],
    pattern: &Pattern,
) -> Result<Candidates<'g>, OutOfMemory>
    requires indexed { graph.now.index.now ≡ adjacency (sight_of graph.now.catalog.now graph.now.store.now.vertices graph.now.store.now.edges) }
    ensures { IfOk result (λ c. c ≡ candidates (sight_of graph.now.catalog.now graph.now.store.now.vertices graph.now.store.now.edges) set.now (Some pattern.now)) }
{
    let sources = in_number_order(alloc, set, graph)?;
    let count = graph.catalog.type_count();
    let edges = Marks::of(alloc, pattern.edges.as_slice(), count)?;
    let targets = Marks::of(alloc, pattern.targets.as_slice(), count)?;
    let vertices = &graph.store.vertices;
    let all = are_known(&targets, vertices, sources.len());
    let wanted = Wanted {
        edges,
        targets,
        all,
    };
    match found_in_place(alloc, graph.index, &sources, &wanted, vertices)? {
        Some(walks) => return Ok(Candidates::in_place(walks)),
        None => {}
    }
    let walks = gather(alloc, graph.index, &sources, &wanted, vertices)?;
    Ok(Candidates::along(walks))
}

/// The candidates of a block, in order of source, edge type and edge. Contracts see them as a list.
///
/// They take 4 bytes for each vertex of a block without a pattern. Along a hop they are read in the index if those from
/// each source are neighbours there, and take 24 bytes for each source with at least one candidate. Else they take 12 for
/// each segment, which is one source with one edge type and at least one candidate, and 8 for each candidate.
#[derive(Drop)]
pub struct Candidates<'g> {
    held: CandidateRows<'g>,
}

impl<'g> Model for Candidates<'g> {
    ghost use Rattle.std.specs.Prelude.{List};
    ghost use Rattle.gq_graph.specs.declared.rows.Candidate.{Candidate};
    ghost use Rattle.gq_index.specs.Segments.{listed};

    ghost Value = { List Candidate };

    ghost view = { λ c. listed c.held };
}

/// A vertex as a candidate, without an edge.
fn vertex_alone(source: u32) -> Candidate
    ensures { result ≡ alone source }
{
    Candidate {
        source,
        edge: None,
        kind: None,
        target: None,
    }
}

/// A walked edge as a candidate.
fn walked_candidate(walk: Traversal) -> Candidate
    ensures { result ≡ of_walk walk }
{
    Candidate {
        source: walk.source,
        edge: Some(walk.row),
        kind: Some(walk.kind),
        target: Some(walk.target),
    }
}

impl<'g> Candidates<'g> {
    /// The candidates along walks.
    pub(crate) fn along(walks: Runs) -> Candidates<'g>
        ensures { result ≡ map of_walk walks }
    {
        Candidates {
            held: CandidateRows::Edges(walks),
        }
    }

    /// The candidates along walks that are read in an index.
    fn in_place(walks: Stretches<'g>) -> Candidates<'g>
        ensures { result ≡ map of_walk walks.entry }
    {
        Candidates {
            held: CandidateRows::InPlace(walks),
        }
    }

    /// Collects the candidates of a set along a pattern, or of a set alone. The cost is that of sorting the set and of
    /// the walks from its vertices, whatever else the graph holds. Also returns `OutOfMemory` past 4,294,967,295
    /// candidates.
    pub fn of(
        alloc: Global,
        graph: &Graph<'g>,
        set: &VertexList,
        pattern: Option<&Pattern>,
    ) -> Result<Candidates<'g>, OutOfMemory>
        requires indexed { graph.now.index.now ≡ adjacency (sight_of graph.now.catalog.now graph.now.store.now.vertices graph.now.store.now.edges) }
        ensures { IfOk result (λ c. c ≡ candidates (sight_of graph.now.catalog.now graph.now.store.now.vertices graph.now.store.now.edges) set.now (option_copied pattern.entry)) }
    {
        match pattern {
            None => {
                let vertices = in_number_order(alloc, set.as_slice(), graph)?;
                Ok(Candidates {
                    held: CandidateRows::Vertices(vertices),
                })
            }
            Some(pattern) => walks_of(alloc, graph, set.as_slice(), pattern),
        }
    }

    /// The number of candidates.
    pub fn count(&self) -> u64
        ensures { result ≡ length self.now }
    {
        match &self.held {
            CandidateRows::Vertices(vertices) => vertices.len() as u64,
            CandidateRows::Edges(walks) => walks.len(),
            CandidateRows::InPlace(walks) => walks.len(),
        }
    }

    /// The candidate at a place, found by binary search, so that a worker can begin anywhere.
    ///
    /// Adds one to `steps` for each segment that is examined, and one for the edge that is read. Allocates nothing.
    pub fn at(&self, place: u64, steps: &mut Steps) -> Candidate
        requires within { place < length self.now }
        requires room { steps.old < 2 ^ 63 }
        ensures candidate { slice_get self.now place ≡ Some result }

        // A binary search takes at most as many steps as the number of segments has binary digits.
        ensures few { (d : ℕ) → segment_count self.now < 2 ^ d → steps.new ≤ steps.old + d + 1 }

        // A candidate along an edge adds at least one step.
        ensures counts { IfSome result.edge (λ _. steps.old < steps.new) }
    {
        match &self.held {
            CandidateRows::Vertices(vertices) => vertex_alone(vertices[place as usize]),
            CandidateRows::Edges(walks) => walked_candidate(walks.at(place, steps)),
            CandidateRows::InPlace(walks) => walked_candidate(walks.at(place, steps)),
        }
    }

    /// The candidate at a place, as `at` finds it. Looks first at the segment that was read last and at the next one, so
    /// no search is needed if places are read in order; otherwise the cursor doesn't help.
    ///
    /// Adds one to `steps` for each of these two looks, one for each segment that the search examines, and one for the
    /// edge that is read. Allocates nothing.
    pub fn near(&self, place: u64, cursor: &mut Cursor, steps: &mut Steps) -> Candidate
        requires within { place < length self.now }
        requires room { steps.old < 2 ^ 63 }
        ensures candidate { slice_get self.now place ≡ Some result }

        // The two looks come before the search.
        ensures few { (d : ℕ) → segment_count self.now < 2 ^ d → steps.new ≤ steps.old + d + 3 }

        // A candidate along an edge adds at least one step.
        ensures counts { IfSome result.edge (λ _. steps.old < steps.new) }
    {
        match &self.held {
            CandidateRows::Vertices(vertices) => vertex_alone(vertices[place as usize]),
            CandidateRows::Edges(walks) => walked_candidate(walks.near(place, cursor, steps)),
            CandidateRows::InPlace(walks) => walked_candidate(walks.near(place, cursor, steps)),
        }
    }
}
