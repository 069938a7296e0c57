// A whole plan.
use crate::expr::Expr;
use crate::step::Step;
use gq_base::List;
use gq_value::{Kind, Txt};

/// A type that a variable, a parameter or a tuple's field is declared with.
#[derive(Clone, Copy, Debug, PartialEq, Eq)]
pub enum Declared {
    Int,
    UInt,
    Bool,
    Text,

    /// A vertex of any type of the graph.
    AnyVertex,

    /// A vertex of the type with this number.
    VertexOf(u32),
}

/// A parameter, at its place of the frame. Arguments are looked up before a plan runs, so there is no default.
#[derive(Clone, Copy, Debug, PartialEq, Eq)]
pub struct Parameter {
    pub base: Declared,
    pub place: u32,
}

/// An accumulator: its slot, and its initial value.
#[derive(Drop)]
pub struct Accum {
    pub attached: bool,
    pub slot: u32,

    /// Its name, with its `@` or `@@`: a vertex that is printed whole shows its accumulators under it.
    pub name: Txt,
    pub opening: Option<Expr>,
}

/// A line before the statements.
#[derive(Drop)]
pub enum Definition {
    /// A tuple type: its fields, and its number.
    Tuple(List<(Declared, Txt)>, u32),
    Accums(Kind, List<Accum>),
}

/// A query with numbers for names. It is made for a catalog and a graph, and rebuilt if the catalog has grown.
#[derive(Drop)]
pub struct Plan {
    pub parameters: List<Parameter>,

    /// Whether it is of SYNTAX v2, which has paths.
    pub with_paths: bool,
    pub definitions: List<Definition>,
    pub steps: List<Step>,

    /// The vertex and the edge types of its graph, by their numbers.
    pub vertices: List<u32>,
    pub edges: List<u32>,
}
