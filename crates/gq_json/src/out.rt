// What PRINT prints.
use gq_base::List;
use gq_value::{Fraction, Txt};

/// A printed value of any depth.
#[derive(Debug, Drop)]
pub enum Out {
    Int(i64),
    UInt(u64),
    Bool(bool),
    Text(Txt),
    /// An average.
    Fraction(Fraction),
    List(Outs),
    Object(Members),
}

/// Printed values in order.
pub type Outs = List<Out>;

/// The members of a printed object, in order: names with their values.
pub type Members = List<(Txt, Out)>;

/// What one PRINT printed: an object.
#[derive(Debug, Drop)]
pub struct Printed {
    pub members: Members,
}
