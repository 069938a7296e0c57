// Types of values, kinds of accumulators, and their inputs.
use crate::txt::Txt;
use crate::value::{Row, Value};
use gq_base::{Boxed, List};

/// The two types of whole numbers: signed and unsigned, 64 bits each.
#[derive(Clone, Copy, Debug, PartialEq, Eq)]
pub enum Number {
    Int,
    UInt,
}

/// The type of a value.
#[derive(Debug, Drop)]
pub enum BaseType {
    Int,
    UInt,
    Bool,
    Text,
    /// A vertex of any type of the graph.
    AnyVertex,
    /// A vertex of the type with this number.
    VertexOf(u32),
    /// A tuple type, by its number among those of its query, with the types of its fields.
    Tuple(u32, Fields),
    /// DATETIME: whole seconds since 1970-01-01 00:00:00, stored as an INT.
    Time,
}

/// The types of a tuple's fields, in order of declaration. None of them is a tuple.
pub type Fields = List<BaseType>;

/// The kind of an accumulator, to any depth.
#[cycle(kinds)]
#[derive(Debug, Drop)]
pub enum Kind {
    Sum(Number),
    Min(Number),
    Max(Number),
    Or,
    And,
    BitOr,
    BitAnd,
    Avg,
    Set(BaseType),
    Bag(BaseType),
    List(BaseType),
    /// From keys of one type to contents of one kind.
    Map(BaseType, Boxed<Kind>),
    Group(GroupShape),
    Heap(HeapShape),
}

/// The shape of a GroupByAccum: the names and types of its keys, and the names and kinds of its parts.
#[cycle(kinds)]
#[derive(Debug, Drop)]
pub struct GroupShape {
    pub keys: List<(Txt, BaseType)>,
    pub parts: List<(Txt, Kind)>,
}

/// The shape of a HeapAccum: its tuple type, how many tuples it keeps, and by which fields it orders them.
#[derive(Debug, Drop)]
pub struct HeapShape {
    /// The number of the tuple type among those of its query.
    pub tuple: u32,
    /// The types of the tuple's fields.
    pub fields: Fields,
    /// How many tuples are kept, from 1 to 1,000,000.
    pub capacity: u32,
    /// The fields that order the tuples, first the one that counts most; true is descending.
    pub order: List<(u32, bool)>,
}

/// An input of an accumulator: one value, or keys with one input for each part.
#[derive(Debug, Drop)]
pub enum Input {
    One(Value),
    Keyed(Row, Inputs),
}

/// Inputs in order.
pub type Inputs = List<Input>;

/// One declared accumulator: its kind, and whether each vertex has its own.
#[derive(Debug, Drop)]
pub struct Slot {
    pub kind: Kind,
    pub attached: bool,
}
