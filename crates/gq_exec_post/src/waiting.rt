// Queues inputs to global accumulators.
ghost use Rattle.std.specs.Prelude.{◌≡◌, [], true, IfSome, OnOk};
ghost use Rattle.gq_exec_contribute.specs.Prepared.{AreAllCells};
ghost use Rattle.gq_exec_contribute.specs.Scalars.{made_of, one_int};
ghost use Rattle.gq_exec_post.specs.Waiting.{AllFit, IsQueued, MayWait, TakesEach, batch_of, keyed_of, one_truth, tuple_of};

use gq_base::{List, OutOfMemory};
use gq_exec_contribute::{Cells, ScalarInput, Taken, WaitingInputs, input_of};
use gq_exec_feed::place;
use gq_frame::Slots;
use gq_value::Input;
use std::alloc::Global;

/// Inputs that wait, in order, each with the number of its target: those made of INTs or truths up to the first other
/// one, and all from that one on.
#[derive(Drop)]
pub(crate) struct Waiting {
    pub ints: WaitingInputs,
    pub others: List<(u64, Input)>,
}

/// No inputs.
pub(crate) fn none(alloc: Global) -> Waiting
    ensures { batch_of result ≡ [] }
{
    Waiting {
        ints: WaitingInputs::new(alloc),
        others: List::new(alloc),
    }
}

/// Queues an input that was read, for the global accumulator of a slot with one of these cells.
pub(crate) fn queue_read(
    alloc: Global,
    slots: &Slots,
    cells: &List<Cells>,
    slot: u32,
    x: &ScalarInput,
    waiting: &mut Waiting,
) -> Result<(), OutOfMemory>
    requires { AreAllCells slots.now cells.now }
    ensures { OnOk result (IsQueued slots.now slot (made_of x.now) waiting.old waiting.new) }
{
    if waiting.others.len() == 0 {
        match target_of(cells, slot, x) {
            Some(target) => {
                waiting.ints.push(target, x)?;
                return Ok(());
            }
            None => {}
        }
    }
    let input = input_of(alloc, x)?;
    queue(slots, slot, input, waiting)
}

/// Queues an input for the global accumulator of a slot.
///
/// Also returns `OutOfMemory` if that doesn't take it.
pub(crate) fn queue(
    slots: &Slots,
    slot: u32,
    input: Input,
    waiting: &mut Waiting,
) -> Result<(), OutOfMemory>
    ensures { OnOk result (IsQueued slots.now slot input waiting.old waiting.new) }
{
    let target = place(slots, slot, 0, &input)?;
    waiting.others.push((target, input))?;
    Ok(())
}

/// The number of the first target of a slot, if it takes the input.
fn target_of(cells: &List<Cells>, slot: u32, x: &ScalarInput) -> Option<u64>
    ensures { IfSome result (MayWait cells.now slot x.now) }
{
    match cells.get(slot as usize) {
        None => None,
        Some(cells) => {
            if cells.targets > 0 && takes(cells.takes, x) {
                Some(cells.first)
            } else {
                None
            }
        }
    }
}

/// Whether each kind that takes such inputs takes this one.
fn takes(taken: Taken, x: &ScalarInput) -> bool
    ensures { result ≡ true → TakesEach taken (made_of x.now) }
{
    match x {
        ScalarInput::Int(x) => takes_int(taken, *x),
        ScalarInput::Truth(x) => takes_truth(taken, *x),
        ScalarInput::Element(x) => takes_int(taken, *x),
        ScalarInput::Tuple(fields) => takes_tuple(taken, fields.as_slice()),
        ScalarInput::Keyed(count, ints) => takes_keyed(taken, *count, ints.as_slice()),
    }
}

/// Whether each kind that takes such inputs takes an INT.
#[tactic(auto, using(crate::proofs::TakenLemmas::one_laws))]
fn takes_int(taken: Taken, x: i64) -> bool
    ensures { result ≡ true → TakesEach taken (one_int x) }
{
    match taken {
        Taken::Int | Taken::Element => true,
        Taken::Truth | Taken::Tuple(_) | Taken::Keyed(_, _) | Taken::Other => false,
    }
}

/// Whether each kind that takes such inputs takes a truth.
#[tactic(auto, using(crate::proofs::TakenLemmas::one_laws))]
fn takes_truth(taken: Taken, x: bool) -> bool
    ensures { result ≡ true → TakesEach taken (one_truth x) }
{
    match taken {
        Taken::Truth => true,
        Taken::Int | Taken::Element | Taken::Tuple(_) => false,
        Taken::Keyed(_, _) | Taken::Other => false,
    }
}

/// Whether each kind that takes such inputs takes a tuple of these INTs.
fn takes_tuple(taken: Taken, fields: &[i64]) -> bool
    ensures { result ≡ true → TakesEach taken (tuple_of fields.now) }
{
    match taken {
        Taken::Tuple(count) => fields.len() == count && all_fit(fields),
        Taken::Int | Taken::Truth | Taken::Element => false,
        Taken::Keyed(_, _) | Taken::Other => false,
    }
}

/// Whether each kind that takes such inputs takes so many keys, with the other INTs as parts.
fn takes_keyed(taken: Taken, count: usize, ints: &[i64]) -> bool
    ensures { result ≡ true → TakesEach taken (keyed_of count ints.now) }
{
    match taken {
        Taken::Keyed(keys, parts) => {
            count == keys && count <= ints.len() && ints.len() - count == parts && all_fit(ints)
        }
        Taken::Int | Taken::Truth | Taken::Element => false,
        Taken::Tuple(_) | Taken::Other => false,
    }
}

/// Whether each INT has 64 bits. It has: the loop shows that to the prover, and the compiler leaves it out.
#[tactic(auto, using(crate::proofs::TakenLemmas::fit_laws))]
fn all_fit(ints: &[i64]) -> bool
    ensures { result ≡ true → AllFit ints.now }
{
    for x in ints {
        if *x < i64::MIN {
            return false;
        }
    }
    true
}
