// An index that is kept between queries.
ghost use Rattle.std.specs.Prelude.{◌≡◌, ◌<◌, ◌≤◌, true, IfOk, length};
ghost use Rattle.gq_graph.specs.Catalog.{Schema};
ghost use Rattle.gq_index.specs.declared.store.Store as meant;
ghost use Rattle.gq_index.specs.Kept.{AllWithin, EndsWithin, IsKept};
ghost use Rattle.gq_index.specs.Sights.{sight_of};
ghost use Rattle.gq_index.specs.Walks.{adjacency};

use crate::index::Index;
use crate::store::Store;
use gq_base::OutOfMemory;
use gq_edge::EdgeEnds;
use gq_graph::EdgeType;
use gq_schema::Catalog;
use std::alloc::Global;
use std::mem;
use std::thread::Threads;

/// How many ways may move for each edge of the index before it is rebuilt instead.
const MOST_MOVES: u64 = 16;

/// How many edges make it worth while to start threads.
const MANY_EDGES: usize = 100_000;

/// An index, kept between queries, of the rows that existed when it was last updated.
#[derive(Drop)]
pub struct KeptIndex {
    index: Index,
    /// How many edge types it covers.
    types: u32,
    /// How many edges it covers.
    edges: u32,
    /// Whether the ends of all these edges are among the vertices that it covers.
    whole: bool,
}

/// Whether both ends of an edge are among the first vertices.
fn is_within(edge: &EdgeEnds, vertices: u32) -> bool
    ensures { result ≡ true → EndsWithin vertices edge.now }
{
    edge.from() < vertices && edge.to() < vertices
}

/// Whether the ends of all edges after the first ones are among the first vertices.
fn are_within(edges: &[EdgeEnds], known: u32, vertices: u32) -> bool
    requires before { AllWithin vertices known edges.now }
    ensures { result ≡ true → AllWithin vertices (length edges.now) edges.now }
{
    for row in known as usize..edges.len() {
        if !is_within(&edges[row], vertices) {
            return false;
        }
    }
    true
}

/// How many ways from a vertex come after those of a type.
fn behind(index: &Index, vertex: u32, kind: u32) -> u64 {
    let ways = index.ways(vertex);
    (ways.len() - ways.partition_point(|way| way.kind <= kind)) as u64
}

/// The type under which an edge is walked backwards.
fn type_back(types: &[EdgeType], kind: u32) -> u32 {
    match types.get(kind as usize) {
        Some(of) => of.reverse.unwrap_or(kind),
        None => kind,
    }
}

/// How many ways move when these edges are added.
fn moves(index: &Index, types: &[EdgeType], edges: &[EdgeEnds]) -> u64 {
    let mut moved = 0u64;
    for edge in edges {
        moved = moved.saturating_add(behind(index, edge.from(), edge.kind()));
        moved = moved.saturating_add(behind(index, edge.to(), type_back(types, edge.kind())));
    }
    moved
}

impl KeptIndex {
    /// Returns an index that covers nothing; allocates nothing.
    pub fn new(alloc: Global) -> KeptIndex
        ensures kept { (schema : Schema) → (store : meant.Store) → IsKept result schema store }
        ensures types { result.types ≡ 0 }
    {
        KeptIndex::of_types(alloc, 0)
    }

    /// Returns an index that covers these types, and no vertices or edges.
    fn of_types(alloc: Global, types: u32) -> KeptIndex
        ensures kept { (schema : Schema) → (store : meant.Store) → types ≤ length schema.edge_types → IsKept result schema store }
        ensures types { result.types ≡ types }
        ensures whole { result.whole ≡ true }
    {
        KeptIndex {
            index: Index::new(alloc),
            types,
            edges: 0,
            whole: true,
        }
    }

    /// The index, as of its last update.
    pub fn index(&self) -> &Index
        ensures { result.now ≡ self.now.index }
    {
        &self.index
    }

    /// Whether extending the index costs less than rebuilding it.
    fn goes_on(&self, types: &[EdgeType], edges: &[EdgeEnds]) -> bool
        requires { self.now.edges ≤ length edges.now }
        ensures types { result ≡ true → self.now.types ≡ length types.now }
        ensures whole { result ≡ true → self.now.whole ≡ true }
    {
        if !self.whole || self.types as usize != types.len() {
            return false;
        }
        let most = MOST_MOVES * self.edges as u64;
        moves(&self.index, types, &edges[self.edges as usize..]) <= most
    }

    /// Updates the index. The cost is that of the new rows, and of the walks from their ends that have to move to
    /// make room. If there are new edge types, or if that costs less, the index is rebuilt.
    ///
    /// After `OutOfMemory` it covers nothing.
    pub fn catch_up(
        &mut self,
        alloc: Global,
        catalog: &Catalog,
        store: &Store,
    ) -> Result<(), OutOfMemory>
        requires { IsKept self.old catalog.now store.now }
        ensures index { IfOk result (λ _. self.new.index ≡ adjacency (sight_of catalog.now store.now.vertices store.now.edges)) }
        ensures kept { IsKept self.new catalog.now store.now }
    {
        let types = catalog.edge_types();
        if self.goes_on(types, store.edges.ends()) {
            return self.extend(alloc, catalog, store);
        }
        *self = KeptIndex::of_types(alloc, types.len() as u32);
        self.extend(alloc, catalog, store)
    }

    /// Updates the index as `catch_up` does. If it is rebuilt, and there are many edges, the workers share that.
    pub fn catch_up_by<R: Threads + Sync>(
        &mut self,
        rt: &R,
        workers: u32,
        alloc: Global,
        catalog: &Catalog,
        store: &Store,
    ) -> Result<(), OutOfMemory>
        requires { IsKept self.old catalog.now store.now }
        ensures index { IfOk result (λ _. self.new.index ≡ adjacency (sight_of catalog.now store.now.vertices store.now.edges)) }
        ensures kept { IsKept self.new catalog.now store.now }
    {
        let types = catalog.edge_types();
        let edges = store.edges.ends();
        if self.edges > 0 && self.goes_on(types, edges) {
            return self.extend(alloc, catalog, store);
        }
        *self = KeptIndex::of_types(alloc, types.len() as u32);
        if workers < 2 || edges.len() < MANY_EDGES {
            return self.extend(alloc, catalog, store);
        }
        self.fill_by(rt, workers, alloc, catalog, store)
    }

    /// Builds the index anew with several workers.
    fn fill_by<R: Threads + Sync>(
        &mut self,
        rt: &R,
        workers: u32,
        alloc: Global,
        catalog: &Catalog,
        store: &Store,
    ) -> Result<(), OutOfMemory>
        requires kept { IsKept self.old catalog.now store.now }
        requires types { self.old.types ≡ length catalog.now.edge_types }
        ensures index { IfOk result (λ _. self.new.index ≡ adjacency (sight_of catalog.now store.now.vertices store.now.edges)) }
        ensures kept { IsKept self.new catalog.now store.now }
    {
        let edges = store.edges.ends();
        let vertices = store.vertices.len();
        self.index = Index::built_by(rt, workers, alloc, catalog.edge_types(), edges, vertices)?;
        self.whole = are_within(edges, 0, vertices);
        self.edges = edges.len() as u32;
        Ok(())
    }

    /// Adds the new vertices and edges.
    fn extend(&mut self, alloc: Global, catalog: &Catalog, store: &Store) -> Result<(), OutOfMemory>
        requires kept { IsKept self.old catalog.now store.now }
        requires types { self.old.types ≡ length catalog.now.edge_types }
        requires whole { self.old.whole ≡ true }
        ensures index { IfOk result (λ _. self.new.index ≡ adjacency (sight_of catalog.now store.now.vertices store.now.edges)) }
        ensures kept { IsKept self.new catalog.now store.now }
    {
        let edges = store.edges.ends();
        let vertices = store.vertices.len();
        let known = self.edges;
        let index = mem::replace(&mut self.index, Index::new(alloc));
        self.edges = 0;
        self.index = index.grown(alloc, catalog.edge_types(), known, edges, vertices)?;
        self.whole = are_within(edges, known, vertices);
        self.edges = edges.len() as u32;
        Ok(())
    }
}
