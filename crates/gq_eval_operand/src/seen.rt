// Results of expressions.
ghost use Rattle.std.specs.Prelude.{◌≡◌};
ghost use Rattle.gq_value.specs.AccumViews.{base_of};
ghost use Rattle.gq_plan_ir.specs.Meanings.{value_of_meant, vertex_of_meant};
ghost use Rattle.gq_eval_operand.specs.Meant.{sort_is, meant, valued, itself, Tells};

use crate::halt::Halt;
use crate::operand::vertex_in;
use gq_nest::Content;
use gq_value::{BaseType, Fraction, GroupShape, Kind, Row, Value};

/// The type of a value.
#[derive(Clone, Copy)]
pub enum Sort<'a> {
    Int,
    UInt,
    Bool,
    Text,

    /// DATETIME.
    Time,

    /// A vertex of any type of the graph.
    AnyVertex,

    /// A vertex of the type with this number.
    VertexOf(u32),

    /// A tuple type, by its number among those of its query, with the types of its fields.
    Tuple(u32, &'a [BaseType]),
}

impl<'a> Sort<'a> {
    /// A type as it is stored.
    #[tactic(auto, using(crate::proofs::ConvertLemmas::base_laws))]
    pub fn of(base: &'a BaseType) -> Sort<'a>
        ensures { sort_is result ≡ base_of base.entry.now }
    {
        match base {
            BaseType::Int => Sort::Int,
            BaseType::UInt => Sort::UInt,
            BaseType::Bool => Sort::Bool,
            BaseType::Text => Sort::Text,
            BaseType::Time => Sort::Time,
            BaseType::AnyVertex => Sort::AnyVertex,
            BaseType::VertexOf(kind) => Sort::VertexOf(*kind),
            BaseType::Tuple(number, fields) => Sort::Tuple(*number, fields.as_slice()),
        }
    }
}

/// An operand of an operation: the result of another one, or borrowed from its owner.
#[derive(Drop)]
pub enum Operand<'a> {
    Made(Value),
    Lent(&'a Value),
    Text(&'a str),

    /// A text that `+` made; a further `+` appends to it, so a chain of them costs as much as its result is long.
    Joined(String),
}

/// The result of an expression. Collections, sets and values in rows are borrowed.
#[derive(Drop)]
pub enum Seen<'a> {
    /// A value, with its type.
    Value(Sort<'a>, Operand<'a>),
    Average(Fraction),

    /// A whole collection, with its kind.
    Whole(&'a Kind, &'a Content),

    /// A collection of a kind before any input.
    Opening(&'a Kind),

    /// The content at a key row of a group, or its opening if the row isn't held.
    Row(&'a GroupShape, &'a Content, Row),

    /// The parts of a group before any input.
    OpeningRow(&'a GroupShape),

    /// An edge, by its number, and the number of the type under which it was walked.
    Edge(u32, u32),

    /// A set, by the numbers of its vertices.
    Set(&'a [u32]),

    /// Within `S[..]` the set, and the current vertex with its type.
    Member(&'a [u32], Sort<'a>, u32),
}

/// The value, if it is one.
#[tactic(auto, using(gq_value::specs::ViewLaws::view_laws))]
pub fn value<'a>(seen: Seen<'a>) -> Result<Operand<'a>, Halt>
    ensures { Tells valued (value_of_meant (meant seen.entry)) result }
{
    match seen {
        Seen::Value(_, operand) => Ok(operand),
        Seen::Average(average) => Ok(Operand::Made(Value::Fraction(average))),
        Seen::Whole(_, _) | Seen::Opening(_) => Err(Halt::Stuck),
        Seen::Row(_, _, _) | Seen::OpeningRow(_) => Err(Halt::Stuck),
        Seen::Edge(_, _) | Seen::Set(_) | Seen::Member(_, _, _) => Err(Halt::Stuck),
    }
}

/// The number of the vertex, if it is one.
pub fn vertex(seen: &Seen<'_>) -> Result<u32, Halt>
    ensures { Tells itself (vertex_of_meant (meant seen.now)) result }
{
    match seen {
        Seen::Value(_, operand) => vertex_in(operand),
        Seen::Member(_, _, vertex) => Ok(*vertex),
        Seen::Average(_) => Err(Halt::Stuck),
        Seen::Whole(_, _) | Seen::Opening(_) => Err(Halt::Stuck),
        Seen::Row(_, _, _) | Seen::OpeningRow(_) => Err(Halt::Stuck),
        Seen::Edge(_, _) | Seen::Set(_) => Err(Halt::Stuck),
    }
}
