// What a block reads.
use crate::index::Index;
use gq_edge::Edges;
use gq_schema::Catalog;
use gq_vertex::Vertices;

/// The vertices and edges of a session.
#[derive(Drop)]
pub struct Store {
    pub vertices: Vertices,
    pub edges: Edges,
}

/// A catalog, a store of its types, and the index of both.
#[derive(Clone, Copy)]
pub struct Graph<'a> {
    pub catalog: &'a Catalog,
    pub store: &'a Store,
    pub index: &'a Index,
}
