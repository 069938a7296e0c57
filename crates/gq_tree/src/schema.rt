// The trees of the declarations of types and graphs, and of INSERT.
use gq_base::List;
use gq_graph::IdKind;
use gq_value::Txt;

/// A value as a script writes it.
#[derive(Drop)]
pub enum Literal {
    /// A number, and whether a minus sign precedes it.
    Number(bool, u64),

    /// The contents of a text in quotes.
    Text(Txt),
    Truth(bool),
}

/// The type of an attribute.
#[derive(Clone, Copy, Debug, PartialEq, Eq)]
pub enum AttributeKind {
    Int,
    UInt,
    Bool,
    Text,

    /// DATETIME, which has no DEFAULT and can't be a discriminator.
    Time,
}

/// An attribute of a vertex or edge type.
#[derive(Drop)]
pub struct AttributeTree {
    pub name: Txt,
    pub kind: AttributeKind,
    pub default: Option<Literal>,
}

/// The text of an option after the WITH of a vertex type.
#[derive(Drop)]
pub enum VertexOption {
    Stats(Txt),
    IdAsAttribute(Txt),
}

/// CREATE VERTEX.
#[derive(Drop)]
pub struct VertexTree {
    pub name: Txt,
    pub id: Txt,
    pub id_kind: IdKind,
    pub attributes: List<AttributeTree>,
    pub options: List<VertexOption>,
}

/// The parts of an edge type besides its direction and its reverse type.
#[derive(Drop)]
pub struct EndsTree {
    pub name: Txt,
    pub from: Txt,
    pub to: Txt,
    pub discriminators: List<(Txt, AttributeKind)>,
    pub attributes: List<AttributeTree>,
}

/// CREATE DIRECTED EDGE and CREATE UNDIRECTED EDGE.
#[derive(Drop)]
pub enum EdgeTree {
    /// With the text of REVERSE_EDGE, if there is one.
    Directed(EndsTree, Option<Txt>),
    Undirected(EndsTree),
}

/// The types of a graph.
#[derive(Drop)]
pub enum MembersTree {
    /// `*`.
    All,
    Named(List<Txt>),
}

/// CREATE GRAPH.
#[derive(Drop)]
pub struct GraphTree {
    pub name: Txt,
    pub members: MembersTree,
}

/// INSERT: the type, and its values in order, where None is `_`.
#[derive(Drop)]
pub struct InsertTree {
    pub name: Txt,
    pub values: List<Option<Literal>>,
}
