// Statements of a plan.
use crate::block::{Block, Change};
use crate::expr::Expr;
use crate::plan::Declared;
use gq_base::List;
use gq_tree::SetOp;
use gq_value::Txt;

/// What a written vertex set holds.
#[derive(Clone, Copy, Debug, PartialEq, Eq)]
pub enum Seed {
    /// All vertices of the type with this number.
    Type(u32),

    /// All vertices of the graph.
    Every,

    /// The vertex of the variable at a place.
    Name(u32),

    /// The content of the global accumulator in a slot.
    Global(u32),
}

/// An operand of set operators.
#[derive(Drop)]
pub enum SetTerm {
    Name(u32),
    Seeds(List<Seed>),
}

/// A written set, or several in a chain.
#[derive(Drop)]
pub struct Sets {
    pub first: SetTerm,
    pub others: List<(SetOp, SetTerm)>,
}

/// The types that a set variable is declared with.
#[derive(Clone, Copy, Debug, PartialEq, Eq)]
pub enum SetTypes {
    Every,
    Of(u32),
}

/// The right side of an assignment.
#[derive(Drop)]
pub enum Right {
    Select(Block),
    Sets(Sets),
    Value(Expr),
}

/// What FOREACH iterates over.
#[derive(Drop)]
pub enum Over {
    Elements(Expr),
    Range(Expr, Expr),
}

/// An item of PRINT, with its key.
#[derive(Drop)]
pub enum PrintItem {
    Value(Expr, Txt),

    /// The set at a place with columns, each with its key.
    Columns(u32, List<(Expr, Txt)>, Txt),
}

/// A statement. Variables are places of the frame.
#[cycle(step)]
#[derive(Drop)]
pub enum Step {
    /// New variables, each with its value if one is given.
    Local(Declared, List<(u32, Option<Expr>)>),
    Assign(u32, Option<SetTypes>, Right),

    /// A change of the global accumulator in a slot.
    Global(u32, Change),

    /// IF and each ELSE IF with its condition, and the statements after ELSE.
    If(List<(Expr, List<Step>)>, Option<List<Step>>),

    /// WHILE: the condition, the LIMIT and the body.
    While(Expr, Option<Expr>, List<Step>),
    Foreach(u32, Over, List<Step>),
    Print(List<PrintItem>),
}
