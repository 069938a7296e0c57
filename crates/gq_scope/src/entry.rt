// What names are, and the places of expressions.
use gq_base::List;
use gq_graph::Numbers;
use gq_value::{BaseType, Kind, Txt};

/// The fields of a tuple type, in order, each with its name and its type.
pub type TupleFields = List<(Txt, BaseType)>;

/// What a name refers to.
#[derive(Drop)]
pub enum Entry {
    /// A parameter or a local, of a type.
    Variable(BaseType),

    /// A set variable, with the vertex types that it may hold.
    SetVariable(Numbers),

    /// A vertex alias, with its types.
    Alias(Numbers),

    /// An edge alias, with its types.
    EdgeAlias(Numbers),

    /// An accumulator of a kind; true for one that belongs to each vertex.
    Accumulator(Kind, bool),

    /// A tuple type, with its fields. Tuple types are numbered from 0, in the order in which they are added.
    TupleType(TupleFields),
}

/// Where an expression occurs, which determines what it may name.
#[derive(Clone, Copy)]
pub enum Place<'a> {
    /// In a statement, and in the operands of FOREACH and PRINT.
    Statement,

    /// In ACCUM and WHERE.
    Block,

    /// In POST-ACCUM.
    Post,

    /// In LIMIT.
    Limit,

    /// In the initial value of a declared accumulator.
    Opening,

    /// Within the brackets of `S[..]` after PRINT: the set's name.
    Selection(&'a str),

    /// In HAVING and ORDER BY: the selected alias.
    Tail(&'a str),
}
