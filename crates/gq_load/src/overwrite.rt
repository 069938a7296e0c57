// Values written over those of a row that was put.
ghost use Rattle.std.specs.Prelude.{◌≡◌, ◌≤◌, ◌<◌, ◌+◌, ◌++◌, ◌∷◌, [], length, take, slice_set, IfOk};

use gq_base::OutOfMemory;
use gq_value::{Row, Value};
use std::mem;

/// Writes a value at a place, over what is there or behind all values.
pub(crate) fn write(values: &mut Row, place: usize, value: Value) -> Result<(), OutOfMemory>
    requires { place ≤ length values.old }
    ensures value { IfOk result (λ _. take (place + 1) values.new ≡ take place values.old ++ value ∷ []) }
    ensures long { IfOk result (λ _. place + 1 ≤ length values.new) }
{
    if place < values.len() {
        values.set(place, value);
        return Ok(());
    }
    values.push(value)
}

/// Writes an INT at a place. Where a row was put, each value is `false`, so dropping it is skipped: it takes a call.
#[inline(always)]
pub(crate) fn write_int(values: &mut Row, place: usize, number: i64) -> Result<(), OutOfMemory>
    requires { place ≤ length values.old }
    ensures value { IfOk result (λ _. take (place + 1) values.new ≡ take place values.old ++ Value.Int number ∷ []) }
    ensures long { IfOk result (λ _. place + 1 ≤ length values.new) }
{
    if place < values.len() && owns_nothing(values.at(place)) {
        replace(values, place, number);
        return Ok(());
    }
    write(values, place, Value::Int(number))
}

/// Whether a value has no memory of its own.
#[inline(always)]
fn owns_nothing(value: &Value) -> bool {
    match value {
        Value::Bool(_) | Value::Int(_) => true,
        Value::UInt(_) | Value::Text(_) | Value::Vertex(_) | Value::Tuple(_) | Value::Fraction(_) =>
            false,
    }
}

/// Replaces a value that has no memory of its own.
#[inline(always)]
fn replace(values: &mut Row, place: usize, number: i64)
    requires { place < length values.old }
    ensures { values.new ≡ slice_set values.old place (Value.Int number) }
{
    let old = mem::replace(values.at_mut(place), Value::Int(number));
    mem::forget(old);
}
