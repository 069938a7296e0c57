// Copies of inputs, including their texts and rows.
ghost use Rattle.std.specs.Prelude.{◌≡◌, ◌<◌, ◌++◌, IfOk, OnOk, OnErr};
ghost use Rattle.gq_core.specs.Batches.{batch_of};

use crate::job::Contributions;
use gq_base::{List, OutOfMemory};
use gq_value::{Input, Inputs, duplicate_row};
use std::alloc::Global;

#[cycle(inputs)]
fn copy_of_input(alloc: Global, input: &Input) -> Result<Input, OutOfMemory>
    ensures { IfOk result (λ copy. copy ≡ input.now) }
{
    match input {
        Input::One(value) => Ok(Input::One(value.duplicate(alloc)?)),
        Input::Keyed(keys, parts) => Ok(Input::Keyed(
            duplicate_row(alloc, keys.as_slice())?,
            copy_of_inputs(alloc, parts.as_slice())?,
        )),
    }
}

#[cycle(inputs)]
fn copy_of_inputs(alloc: Global, inputs: &[Input]) -> Result<Inputs, OutOfMemory>
    ensures { IfOk result (λ copy. copy ≡ inputs.now) }
{
    let mut copy = List::new(alloc);
    for input in inputs {
        copy.push(copy_of_input(alloc, input)?)?;
    }
    Ok(copy)
}

/// Copies contributions, in order.
pub fn copy_of_all(alloc: Global, inputs: &[(u64, Input)]) -> Result<Contributions, OutOfMemory>
    ensures { IfOk result (λ copy. copy ≡ inputs.now) }
{
    let mut copy = List::new(alloc);
    for (target, input) in inputs {
        copy.push((*target, copy_of_input(alloc, input)?))?;
    }
    Ok(copy)
}

/// Appends copies of those of `inputs` that belong to a stripe to `list`. After OutOfMemory some of them may be there.
fn push_batch(
    alloc: Global,
    list: &mut Contributions,
    inputs: &[(u64, Input)],
    stripes: u32,
    stripe: u32,
) -> Result<(), OutOfMemory>
    requires { 0 < stripes }
    ensures ok { OnOk result (list.new ≡ list.old ++ batch_of stripes stripe inputs.now) }
    ensures err { OnErr result ((part : _) × (list.new ≡ list.old ++ part)) }
{
    for (target, input) in inputs {
        if *target % u64::from(stripes) == u64::from(stripe) {
            list.push((*target, copy_of_input(alloc, input)?))?;
        }
    }
    Ok(())
}

/// Appends copies of those of `inputs` that belong to a stripe to `list`, which is unchanged after OutOfMemory.
pub fn add_batch(
    alloc: Global,
    list: &mut Contributions,
    inputs: &[(u64, Input)],
    stripes: u32,
    stripe: u32,
) -> Result<(), OutOfMemory>
    requires { 0 < stripes }
    ensures ok { OnOk result (list.new ≡ list.old ++ batch_of stripes stripe inputs.now) }
    ensures err { OnErr result (list.new ≡ list.old) }
{
    let before = list.len();
    match push_batch(alloc, list, inputs, stripes, stripe) {
        Ok(()) => Ok(()),
        Err(fault) => {
            list.truncate(before);
            Err(fault)
        }
    }
}
