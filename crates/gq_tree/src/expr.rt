// The syntax tree of an expression.
use gq_base::{Boxed, List};
use gq_value::Txt;

/// Between the operands of a sum.
#[derive(Clone, Copy, Debug, PartialEq, Eq)]
pub enum AddSign {
    Plus,
    Minus,
}

/// Between the operands of a product.
#[derive(Clone, Copy, Debug, PartialEq, Eq)]
pub enum MulSign {
    Times,
    Over,
    Modulo,
}

/// Between the operands of a comparison.
#[derive(Clone, Copy, Debug, PartialEq, Eq)]
pub enum CmpSign {
    Equal,

    /// `!=`, and `<>` too.
    NotEqual,
    Less,
    LessOrEqual,
    Greater,
    GreaterOrEqual,
}

/// An expression. The operands of one level of operators are one flat list, and parentheses aren't kept.
#[cycle(tree)]
#[derive(Drop)]
pub enum Node {
    Number(u64),

    /// The contents of a text in quotes.
    Text(Txt),
    Truth(bool),

    /// The name of a global accumulator, with its `@@`.
    Global(Txt),
    Name(Txt),

    /// A function of this name, or a tuple type.
    Call(Txt, List<Node>),

    /// The operand before the first dot, and the part after each dot; there is at least one.
    Post(Boxed<Node>, List<Part>),

    /// One or more minus signs before an operand.
    Neg(usize, Boxed<Node>),
    Mul(Boxed<Node>, List<(MulSign, Node)>),
    Sum(Boxed<Node>, List<(AddSign, Node)>),
    Cmp(Boxed<Node>, CmpSign, Boxed<Node>),

    /// One or more NOTs before an operand.
    Not(usize, Boxed<Node>),
    And(Boxed<Node>, List<Node>),
    Or(Boxed<Node>, List<Node>),
}

/// The part after a dot.
#[cycle(tree)]
#[derive(Drop)]
pub enum Part {
    Field(Txt),
    Method(Txt, List<Node>),

    /// The name of an accumulator of a vertex, with its `@`.
    Attached(Txt),

    /// The same with a `'`: its value before the block.
    Before(Txt),
}
