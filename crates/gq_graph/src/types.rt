// The contents of a catalog: vertex types, edge types, graphs.
use gq_base::List;
use gq_value::{BaseType, Txt, Value};

/// How a primary id is read. Every id is kept as its text; that of a number is its shortest decimal text.
#[derive(Clone, Copy, Debug, PartialEq, Eq)]
pub enum IdKind {
    Text,
    Int,
    UInt,
}

/// The primary id of a vertex type.
#[derive(Debug, Drop)]
pub struct IdShape {
    pub name: Txt,
    pub kind: IdKind,
    /// Whether the id is also an attribute, which is then the first one.
    pub shown: bool,
}

/// An attribute of a vertex or edge type.
#[derive(Debug, Drop)]
pub struct Attribute {
    pub name: Txt,
    pub kind: BaseType,
    /// The value if none is given. Without a default that is 0, false, the empty text or second 0.
    pub default: Option<Value>,
}

/// Attributes in order of declaration.
pub type Attributes = List<Attribute>;

/// Names in order.
pub type Names = List<Txt>;

/// Numbers of types, in order.
pub type Numbers = List<u32>;

/// A vertex type.
#[derive(Debug, Drop)]
pub struct VertexType {
    pub name: Txt,
    pub id: IdShape,
    pub attributes: Attributes,
}

/// An edge type. A reverse type has its forward type's attributes, with the ends exchanged, and no rows of its own.
#[derive(Debug, Drop)]
pub struct EdgeType {
    pub name: Txt,
    pub directed: bool,
    /// The number of the vertex type that its edges come from.
    pub from: u32,
    /// The number of the vertex type that its edges go to.
    pub to: u32,
    /// The forward type, if this is a reverse type.
    pub forward: Option<u32>,
    /// The reverse type, if this has one.
    pub reverse: Option<u32>,
    /// How many of the attributes, from the first one on, belong to an edge's name.
    pub discriminators: u32,
    pub attributes: Attributes,
}

/// A graph: the vertex and edge types that its queries see, each once.
#[derive(Debug, Drop)]
pub struct GraphType {
    pub name: Txt,
    pub vertices: Numbers,
    pub edges: Numbers,
}
