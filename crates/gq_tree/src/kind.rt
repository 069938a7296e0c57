// The trees of a body's declarations: tuple types and accumulators.
use crate::expr::Node;
use crate::query::BaseTree;
use gq_base::{Boxed, List};
use gq_value::Txt;

/// What a plain accumulator holds: a type, or a tuple type of this name.
#[derive(Drop)]
pub enum Elem {
    Base(BaseTree),
    Tuple(Txt),
}

/// A kind that holds values of one type.
#[derive(Clone, Copy, Debug, PartialEq, Eq)]
pub enum Plain {
    Sum,
    Min,
    Max,
    Set,
    Bag,
    List,
}

/// A kind of truths or bits, whose type may be left out.
#[derive(Clone, Copy, Debug, PartialEq, Eq)]
pub enum Bits {
    Or,
    And,
    BitwiseOr,
    BitwiseAnd,
}

/// The type of an accumulator.
#[cycle(kind)]
#[derive(Drop)]
pub enum KindTree {
    Plain(Plain, Elem),
    Bits(Bits, Option<Elem>),
    Avg,

    /// Keys of a type, and what is held for each.
    Map(Elem, EntryTree),

    /// The keys with their names, and the accumulators of each group with theirs.
    Group(List<(BaseTree, Txt)>, List<(KindTree, Txt)>),

    /// The tuple type, the capacity, and the fields to order by, each with whether it descends.
    Heap(Txt, u64, List<(Txt, bool)>),
}

/// What a map holds for a key.
#[cycle(kind)]
#[derive(Drop)]
pub enum EntryTree {
    Elem(Elem),
    Kind(Boxed<KindTree>),
}

/// An accumulator with its `@` or `@@`, and its initial value.
#[derive(Drop)]
pub struct AccumTree {
    pub attached: bool,
    pub name: Txt,
    pub opening: Option<Node>,
}

/// A line before the statements of a body.
#[derive(Drop)]
pub enum DefinitionTree {
    /// TYPEDEF TUPLE: the fields, and the name of the type.
    Tuple(List<(BaseTree, Txt)>, Txt),
    Accums(KindTree, List<AccumTree>),
}
