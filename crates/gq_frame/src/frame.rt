// The state of a running query.
use crate::accums::Accums;
use gq_base::List;
use gq_index::VertexList;
use gq_value::{BaseType, Value};

/// What a name refers to.
#[derive(Drop)]
pub enum Thing {
    /// A value with its type.
    Value(BaseType, Value),

    /// A set after the types that its vertices may have, by their numbers.
    Set(List<u32>, VertexList),
}

/// The values of names and the contents of accumulators while a query runs.
///
/// Each variable and each set has a place, by its number in the plan. The place of a name that isn't visible is `None`.
#[derive(Drop)]
pub struct Frame {
    pub things: List<Option<Thing>>,
    pub accums: Accums,
}

/// What an alias refers to. Types are those that the alias may have, by their numbers.
#[derive(Clone, Copy)]
pub enum Bound<'a> {
    /// A vertex, after its types.
    Vertex(&'a [u32], u32),

    /// An edge, and the type under which it was walked.
    Edge(u32, u32),

    /// Within `S[..]`: the types of the set, the set, and the current vertex.
    Member(&'a [u32], &'a [u32], u32),
}

/// An alias and its place.
#[derive(Clone, Copy)]
pub struct Alias<'a> {
    pub place: u32,
    pub is: Bound<'a>,
}
