// The trees of queries, around their bodies.
use crate::body::Body;
use crate::schema::Literal;
use gq_base::List;
use gq_value::Txt;

/// A type that a value may have.
#[derive(Drop)]
pub enum BaseTree {
    Int,
    UInt,
    Bool,
    Text,

    /// VERTEX.
    AnyVertex,

    /// VERTEX of this type.
    VertexOf(Txt),
}

/// A parameter of a query.
#[derive(Drop)]
pub struct ParameterTree {
    pub base: BaseTree,
    pub name: Txt,
    pub default: Option<Literal>,
}

/// API with its text, and SYNTAX with its name.
#[derive(Drop)]
pub enum Mode {
    Api(Txt),
    Syntax(Txt),
}

/// What CREATE QUERY and INTERPRET QUERY have in common. INTERPRET has no parameters.
#[derive(Drop)]
pub struct QueryTree {
    pub parameters: List<ParameterTree>,
    pub graph: Option<Txt>,
    pub modes: List<Mode>,
    pub body: Body,
}

/// The queries to install.
#[derive(Drop)]
pub enum Installed {
    /// ALL, and `*` too.
    All,
    Named(List<Txt>),
}

/// An argument of RUN QUERY.
#[derive(Drop)]
pub enum Argument {
    Literal(Literal),

    /// The id and the type of a vertex.
    Vertex(Txt, Txt),
}

/// RUN QUERY: the query, and its arguments if there are parentheses.
#[derive(Drop)]
pub struct RunTree {
    pub name: Txt,
    pub arguments: Option<List<Argument>>,
}
