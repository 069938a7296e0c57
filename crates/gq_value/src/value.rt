// Values.
ghost use Rattle.std.specs.Prelude.{◌≡◌, IfOk};

use crate::txt::Txt;
use gq_base::{List, OutOfMemory};
use std::alloc::Global;
use thiserror::Error;

/// A value of GSQL: of an attribute, a variable, an accumulator's input or an expression.
///
/// A DATETIME is an `Int`, its seconds since 1970-01-01 00:00:00. Copies of numbers take no memory.
#[derive(Debug, Drop)]
pub enum Value {
    Int(i64),
    UInt(u64),
    Bool(bool),
    Text(Txt),
    /// A vertex, by its number in the store.
    Vertex(u32),
    /// A tuple, with one value a field, in order of declaration.
    Tuple(Row),
    Fraction(Fraction),
}

/// Values in order: the fields of a tuple, the attributes of a vertex or edge, the keys of an input.
pub type Row = List<Value>;

/// An average, as an exact fraction. Its count is from 1 to 2^63 - 1; an average without inputs is 0 over 1.
#[derive(Clone, Copy, Debug)]
pub struct Fraction {
    pub sum: i64,
    pub count: u64,
}

/// Why an operation has no value.
#[derive(Clone, Copy, Debug, Error, PartialEq, Eq)]
pub enum Wrong {
    /// The exact result lies outside its type.
    #[error("number out of range")]
    Range,
    #[error("division by zero")]
    Zero,
}

/// The error of an operation on values.
#[derive(Clone, Copy, Debug, Error, PartialEq, Eq)]
pub enum EvalFault {
    #[error("{0}")]
    Wrong(Wrong),
    #[error("out of memory")]
    OutOfMemory,
}

impl From<OutOfMemory> for EvalFault {
    ghost use Rattle.gq_value.specs.declared.value.EvalFault.TheVariants.{OutOfMemory};

    ghost from_gives = { λ _ e. e ≡ OutOfMemory };

    fn from(_: OutOfMemory) -> Self {
        EvalFault::OutOfMemory
    }
}

impl Value {
    /// A deep copy of the value. Takes memory only for texts and tuples.
    #[cycle(copies)]
    pub fn duplicate(&self, alloc: Global) -> Result<Value, OutOfMemory>
        ensures { IfOk result (λ copy. copy ≡ self.now) }
    {
        match self {
            Value::Int(x) => Ok(Value::Int(*x)),
            Value::UInt(x) => Ok(Value::UInt(*x)),
            Value::Bool(x) => Ok(Value::Bool(*x)),
            Value::Text(text) => Ok(Value::Text(Txt::of(alloc, text.as_str())?)),
            Value::Vertex(x) => Ok(Value::Vertex(*x)),
            Value::Tuple(row) => Ok(Value::Tuple(duplicate_row(alloc, row.as_slice())?)),
            Value::Fraction(x) => Ok(Value::Fraction(*x)),
        }
    }
}

/// Deep copies of the values, in the same order.
#[cycle(copies)]
pub fn duplicate_row(alloc: Global, row: &[Value]) -> Result<Row, OutOfMemory>
    ensures { IfOk result (λ copy. copy ≡ row.now) }
{
    let mut copy = List::from_vec(Vec::with_capacity(alloc, row.len())?);
    for value in row {
        copy.push(value.duplicate(alloc)?)?;
    }
    Ok(copy)
}

// Rows and contents hold millions of values.
const _: () = prove!(size_of::<Value>() <= 32);
