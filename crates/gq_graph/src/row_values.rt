// Values moved from row to row.
ghost use Rattle.std.specs.Prelude.{◌≡◌, ◌+◌, ◌<◌, ◌≤◌, ◌++◌, false, length, slice_get, slice_set, take, Some, IfOk, OnOk, OnErr};
ghost use Rattle.gq_value.specs.declared.value.Value.TheVariants as values;
ghost use Rattle.gq_graph.specs.Spans.{written};

use gq_base::{OutOfMemory, within};
use gq_value::{Row, Value};
use std::mem;

/// A part of a list: where it begins, and how many items it has.
#[derive(Clone, Copy)]
pub(crate) struct Span {
    pub start: u32,
    pub len: u32,
}

/// The largest number of values in a list of rows.
const MOST_VALUES: usize = 4_294_967_295;

/// Takes a value out of a row, and leaves another in its place.
fn take_out(row: &mut Row, at: usize) -> Value
    requires { at < length row.old }
    ensures value { slice_get row.old at ≡ Some result }
    ensures others { row.new ≡ slice_set row.old at (values.Bool false) }
{
    mem::replace(row.at_mut(at), Value::Bool(false))
}

/// Appends the values of a row.
fn move_all(values: &mut Vec<Value>, row: &mut Row) -> Result<(), OutOfMemory>
    ensures ok { OnOk result (values.new.items ≡ values.old.items ++ row.old) }
    ensures err { OnErr result (take (length values.old.items) values.new.items ≡ values.old.items) }
{
    for at in 0..row.len() {
        values.push(take_out(row, at))?;
    }
    Ok(())
}

/// Appends the values of a row, and returns where they are. Unchanged after OutOfMemory.
pub(crate) fn append(values: &mut Vec<Value>, row: &mut Row) -> Result<Span, OutOfMemory>
    ensures ok { OnOk result (values.new.items ≡ values.old.items ++ row.old) }
    ensures start { IfOk result (λ span. span.start ≡ length values.old.items) }
    ensures len { IfOk result (λ span. span.len ≡ length row.old) }
    ensures err { OnErr result (values.new.items ≡ values.old.items) }
{
    let (start, len) = (values.len(), row.len());
    within(start, MOST_VALUES)?;
    within(len, MOST_VALUES - start)?;
    match move_all(values, row) {
        Ok(()) => Ok(Span {
            start: start as u32,
            len: len as u32,
        }),
        Err(OutOfMemory) => {
            values.truncate(start);
            Err(OutOfMemory)
        }
    }
}

/// Replaces the values from `start` on by those of a row.
pub(crate) fn write(values: &mut Vec<Value>, start: usize, row: &mut Row)
    requires { start + length row.old ≤ length values.old.items }
    ensures { values.new.items ≡ written values.old.items start row.old }
{
    for at in 0..row.len() {
        put_at(values, start + at, take_out(row, at));
    }
}

/// Replaces a value.
fn put_at(values: &mut Vec<Value>, at: usize, value: Value)
    requires { at < length values.old.items }
    ensures { values.new.items ≡ slice_set values.old.items at value }
{
    values[at] = value;
}
