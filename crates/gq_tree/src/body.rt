// The trees of statements in a body.
use crate::expr::Node;
use crate::kind::DefinitionTree;
use crate::query::BaseTree;
use crate::select::{ChangeTree, SelectTree};
use gq_base::List;
use gq_value::Txt;

/// What a written vertex set holds.
#[derive(Drop)]
pub enum SeedTree {
    /// `T.*`.
    Type(Txt),

    /// ANY, with or without `.*`.
    Any,

    /// A parameter or a set variable.
    Name(Txt),

    /// The name of a global accumulator, with its `@@`.
    Global(Txt),
}

/// An operand of set operators.
#[derive(Drop)]
pub enum SetTermTree {
    Name(Txt),
    Seeds(List<SeedTree>),
}

/// Between operands of sets.
#[derive(Clone, Copy, Debug, PartialEq, Eq)]
pub enum SetOp {
    Union,
    Intersect,
    Minus,
}

/// A written set, or several in a chain. A name alone isn't a set.
#[derive(Drop)]
pub struct SetsTree {
    pub first: SetTermTree,
    pub others: List<(SetOp, SetTermTree)>,
}

/// The types that a set variable is declared with.
#[derive(Drop)]
pub enum SetTypesTree {
    Any,
    Of(Txt),
}

/// The right side of `=` after a name.
#[derive(Drop)]
pub enum RightTree {
    Select(SelectTree),
    Sets(SetsTree),
    Value(Node),
}

/// What FOREACH iterates over.
#[derive(Drop)]
pub enum OverTree {
    Elements(Node),
    Range(Node, Node),
}

/// The key that a value is printed under.
#[derive(Drop)]
pub enum Label {
    /// The name after AS.
    Named(Txt),

    /// Without AS: the spellings of the value's tokens, joined.
    Spelled(List<u8>),
}

/// What PRINT prints.
#[derive(Drop)]
pub enum ItemTree {
    Value(Node, Label),

    /// A vertex set with columns, and the name after AS.
    Columns(Txt, List<(Node, Label)>, Option<Txt>),
}

/// A statement of a body.
#[cycle(body)]
#[derive(Drop)]
pub enum Stmt {
    /// New variables, each with its value if one is given.
    Local(BaseTree, List<(Txt, Option<Node>)>),
    Assign(Txt, Option<SetTypesTree>, RightTree),

    /// A change of the global accumulator of this name.
    Global(Txt, ChangeTree),

    /// IF and each ELSE IF with its condition, and the statements after ELSE.
    If(List<(Node, List<Stmt>)>, Option<List<Stmt>>),

    /// WHILE: the condition, the LIMIT and the body.
    While(Node, Option<Node>, List<Stmt>),
    Foreach(Txt, OverTree, List<Stmt>),
    Print(List<ItemTree>),
}

/// The body of a query.
#[derive(Drop)]
pub struct Body {
    pub definitions: List<DefinitionTree>,
    pub statements: List<Stmt>,
}
