// Feeds inputs made of INTs or a truth.
ghost use Rattle.std.specs.Prelude.{◌≡◌, [], ◌∷◌, IfOk, OnOk, length, map, take, drop};
ghost use Rattle.gq_exec_feed.specs.Feeding.{TakesBatch};
ghost use Rattle.gq_value.specs.declared.kind.Input.TheVariants as input;
ghost use Rattle.gq_value.specs.declared.value.Value.TheVariants as value;
ghost use Rattle.gq_exec_contribute.specs.Scalars.{as_inputs, made_of, one_int};
ghost use Rattle.gq_exec_contribute.specs.Waiting.{own};

use crate::cells::keep;
use crate::rows::Ints;
use crate::waiting::{LentInput, WaitingInputs};
use gq_base::{List, OutOfMemory};
use gq_exec_feed::{feed_all, feed_ints, feed_one};
use gq_frame::Accums;
use gq_value::{Input, Inputs, Row, Value};
use std::alloc::Global;

/// An input made of INTs, or a truth. It is stored inline.
#[derive(Clone, Copy, Debug)]
pub enum ScalarInput {
    Int(i64),
    Truth(bool),

    /// An INT of a set, a bag or a list.
    Element(i64),

    /// A tuple with these fields.
    Tuple(Ints),

    /// The number of keys, and a row of the keys followed by an INT for each part.
    Keyed(usize, Ints),
}

/// Makes the input. Allocates for tuples, keys and parts.
pub fn input_of(alloc: Global, x: &ScalarInput) -> Result<Input, OutOfMemory>
    ensures { IfOk result (λ input. input ≡ made_of x.now) }
{
    match x {
        ScalarInput::Int(x) | ScalarInput::Element(x) => Ok(Input::One(Value::Int(*x))),
        ScalarInput::Truth(x) => Ok(Input::One(Value::Bool(*x))),
        ScalarInput::Tuple(fields) => {
            Ok(Input::One(Value::Tuple(row_of(alloc, fields.as_slice())?)))
        }
        ScalarInput::Keyed(count, ints) => {
            let ints = ints.as_slice();
            let count = (*count).min(ints.len());
            let keys = row_of(alloc, &ints[..count])?;
            let parts = parts_of(alloc, &ints[count..])?;
            Ok(Input::Keyed(keys, parts))
        }
    }
}

/// INTs as values.
fn row_of(alloc: Global, ints: &[i64]) -> Result<Row, OutOfMemory>
    ensures { IfOk result (λ row. row ≡ map value.Int ints.now) }
{
    let mut row = List::from_vec(Vec::with_capacity(alloc, ints.len())?);
    refill_row(&mut row, ints)?;
    Ok(row)
}

/// Replaces a row by INTs as values, reusing its memory.
fn refill_row(row: &mut Row, ints: &[i64]) -> Result<(), OutOfMemory>
    ensures { OnOk result (row.new ≡ map value.Int ints.now) }
{
    if row.len() == ints.len() {
        set_row(row, ints);
        return Ok(());
    }
    row.truncate(0);
    for x in ints {
        row.push(Value::Int(*x))?;
    }
    Ok(())
}

/// Replaces the values of a row by as many INTs.
#[tactic(auto, using(crate::proofs::ScalarLemmas::set_laws))]
fn set_row(row: &mut Row, ints: &[i64])
    requires { length row.old ≡ length ints.now }
    ensures { row.new ≡ map value.Int ints.now }
{
    for (place, x) in ints.iter().enumerate() {
        set_value(row.at_mut(place), *x);
    }
}

/// Replaces a value by an INT.
fn set_value(to: &mut Value, x: i64)
    ensures { to.new ≡ value.Int x }
{
    match to {
        Value::Int(number) => *number = x,
        _ => *to = Value::Int(x),
    }
}

/// INTs as inputs.
fn parts_of(alloc: Global, ints: &[i64]) -> Result<Inputs, OutOfMemory>
    ensures { IfOk result (λ parts. parts ≡ map one_int ints.now) }
{
    let mut parts = List::from_vec(Vec::with_capacity(alloc, ints.len())?);
    refill_parts(&mut parts, ints)?;
    Ok(parts)
}

/// Replaces inputs by INTs as inputs, reusing their memory.
fn refill_parts(parts: &mut Inputs, ints: &[i64]) -> Result<(), OutOfMemory>
    ensures { OnOk result (parts.new ≡ map one_int ints.now) }
{
    if parts.len() == ints.len() {
        set_parts(parts, ints);
        return Ok(());
    }
    parts.truncate(0);
    for x in ints {
        parts.push(Input::One(Value::Int(*x)))?;
    }
    Ok(())
}

/// Replaces inputs by as many INTs.
#[tactic(auto, using(crate::proofs::ScalarLemmas::set_laws))]
fn set_parts(parts: &mut Inputs, ints: &[i64])
    requires { length parts.old ≡ length ints.now }
    ensures { parts.new ≡ map one_int ints.now }
{
    for (place, x) in ints.iter().enumerate() {
        set_part(parts.at_mut(place), *x);
    }
}

/// Replaces an input by an INT.
fn set_part(to: &mut Input, x: i64)
    ensures { to.new ≡ one_int x }
{
    match to {
        Input::One(value) => set_value(value, x),
        Input::Keyed(_, _) => *to = Input::One(Value::Int(x)),
    }
}

/// Replaces an input by a tuple of INTs, reusing the memory of a tuple.
fn refill_tuple(alloc: Global, fields: &[i64], spare: &mut Input) -> Result<(), OutOfMemory>
    ensures { OnOk result (spare.new ≡ input.One (value.Tuple (map value.Int fields.now))) }
{
    match spare {
        Input::One(Value::Tuple(row)) => refill_row(row, fields),
        _ => {
            replace(spare, Input::One(Value::Tuple(row_of(alloc, fields)?)));
            Ok(())
        }
    }
}

/// Replaces an input by one with this number of keys, and with the other INTs as parts, reusing the memory of one with
/// keys.
fn refill_keyed(
    alloc: Global,
    count: usize,
    ints: &[i64],
    spare: &mut Input,
) -> Result<(), OutOfMemory>
    ensures { OnOk result (spare.new ≡ input.Keyed (map value.Int (take count ints.now)) (map one_int (drop count ints.now))) }
{
    let count = count.min(ints.len());
    match spare {
        Input::Keyed(keys, parts) => {
            refill_row(keys, &ints[..count])?;
            refill_parts(parts, &ints[count..])
        }
        Input::One(_) => {
            let keys = row_of(alloc, &ints[..count])?;
            let parts = parts_of(alloc, &ints[count..])?;
            replace(spare, Input::Keyed(keys, parts));
            Ok(())
        }
    }
}

/// Replaces an input.
fn replace(old: &mut Input, new: Input)
    ensures { old.new ≡ new }
{
    *old = new;
}

/// Feeds inputs in order, each to the target with its number. Allocates for inputs other than numbers and truths.
///
/// Also returns `OutOfMemory` if a target doesn't exist or its kind doesn't take the input. After an error some inputs
/// may have been fed.
pub fn feed_scalars(
    alloc: Global,
    accums: &mut Accums,
    inputs: &WaitingInputs,
) -> Result<(), OutOfMemory>
    ensures { OnOk result (TakesBatch accums.old accums.new (as_inputs inputs.now)) }
{
    keep(inputs.touched(accums));
    let mut single = Input::Keyed(List::new(alloc), List::new(alloc));
    let mut keyed = Input::Keyed(List::new(alloc), List::new(alloc));
    let mut tuple = Input::One(Value::Tuple(List::new(alloc)));
    feed_over(alloc, accums, inputs, &mut single, &mut keyed, &mut tuple)
}

/// Feeds inputs in order. To reuse memory, inputs with one key are made in `single`, those with more in `keyed`, and
/// tuples in `tuple`: so the rows of a map and of a group, fed in turn, keep their lengths.
#[tactic(auto, using(crate::proofs::ScalarLemmas::feed_laws))]
fn feed_over(
    alloc: Global,
    accums: &mut Accums,
    inputs: &WaitingInputs,
    single: &mut Input,
    keyed: &mut Input,
    tuple: &mut Input,
) -> Result<(), OutOfMemory>
    ensures { OnOk result (TakesBatch accums.old accums.new (as_inputs inputs.now)) }
{
    for place in 0..inputs.len() {
        let (target, x) = inputs.lent_at(place);
        feed_scalar(alloc, accums, target, x, single, keyed, tuple)?;
    }
    Ok(())
}

/// Feeds an input to the target with this number.
fn feed_scalar(
    alloc: Global,
    accums: &mut Accums,
    target: u64,
    x: LentInput<'_>,
    single: &mut Input,
    keyed: &mut Input,
    tuple: &mut Input,
) -> Result<(), OutOfMemory>
    ensures { OnOk result (TakesBatch accums.old accums.new (as_inputs ((target, own x.entry) ∷ []))) }
{
    match x {
        LentInput::Int(x) => feed_ints(alloc, accums, &[(target, x)]),
        LentInput::Truth(x) => { feed_all(alloc, accums, &[(target, Input::One(Value::Bool(x)))]) }
        LentInput::Element(x) => feed_all(alloc, accums, &[(target, Input::One(Value::Int(x)))]),
        LentInput::Tuple(fields) => {
            refill_tuple(alloc, fields.as_slice(), tuple)?;
            feed_one(alloc, accums, target, tuple)
        }
        LentInput::Keyed(count, ints) => {
            let spare = if count == 1 { single } else { keyed };
            refill_keyed(alloc, count, ints.as_slice(), spare)?;
            feed_one(alloc, accums, target, spare)
        }
    }
}
