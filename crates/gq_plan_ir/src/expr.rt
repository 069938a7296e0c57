// Expressions of a plan.
use gq_base::{Boxed, List};
use gq_rules_typing::Builtin;
use gq_tree::{AddSign, CmpSign, MulSign};
use gq_value::{Fields, Txt};

/// An expression. A variable, a set or an alias is a place of the frame, an accumulator the number of its slot.
#[cycle(expr)]
#[derive(Drop)]
pub enum Expr {
    Number(u64),
    Text(Txt),
    Truth(bool),

    /// A global accumulator.
    Global(u32),

    /// A variable, a set or an alias.
    Name(u32),
    Call(Function, List<Expr>),

    /// The operand before the first dot, and the part after each dot; there is at least one.
    Post(Boxed<Expr>, List<Behind>),

    /// One or more minus signs before an operand.
    Neg(usize, Boxed<Expr>),
    Mul(Boxed<Expr>, List<(MulSign, Expr)>),
    Sum(Boxed<Expr>, List<(AddSign, Expr)>),
    Cmp(Boxed<Expr>, CmpSign, Boxed<Expr>),

    /// One or more NOTs before an operand.
    Not(usize, Boxed<Expr>),
    And(Boxed<Expr>, List<Expr>),
    Or(Boxed<Expr>, List<Expr>),
}

/// The part after a dot.
#[cycle(expr)]
#[derive(Drop)]
pub enum Behind {
    Field(Field),
    Method(Method, List<Expr>),

    /// `outdegree`: the edge type in its parentheses, and the types whose edges are counted.
    Degree(Option<Txt>, List<u32>),

    /// The accumulator of a vertex.
    Attached(u32),

    /// The value of a vertex's accumulator before the block.
    Before(u32),
}

/// A field that is read.
#[derive(Drop)]
pub enum Field {
    /// The name of a vertex's or an edge's type.
    Type,
    Named(FieldPlaces),
}

/// The place of the attribute or the field of one name among those of each type, by the type's number. For a type past
/// the end of its table, the field is looked up by name.
#[derive(Drop)]
pub struct FieldPlaces {
    /// A group's part is found by it.
    pub name: Txt,
    pub vertices: List<Option<u32>>,
    pub edges: List<Option<u32>>,
    pub tuples: List<Option<u32>>,
}

/// A method of collections and sets.
#[derive(Clone, Copy, Debug, PartialEq, Eq)]
pub enum Method {
    Size,
    Contains,
    ContainsKey,
    Get,
}

/// What a call denotes: a tuple type by its number with the types of its fields, or a function of the language.
#[derive(Drop)]
pub enum Function {
    Tuple(u32, Fields),
    Own(Builtin),
}
