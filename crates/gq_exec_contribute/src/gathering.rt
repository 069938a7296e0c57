// Reads the inputs of ACCUM without an evaluation.
ghost use Rattle.std.specs.Prelude.{◌≡◌, true, IfOk, IfSome};
ghost use Rattle.gq_rules_calendar.specs.Gregorian.{gregorian};
ghost use Rattle.gq_rules_typing.specs.Selecting.{Adds as AddsTo};
ghost use Rattle.gq_rules_meaning.specs.Blocks.{contributed, contributions, of_act};
ghost use Rattle.gq_frame.specs.Slots.{slots_are};
ghost use Rattle.gq_plan_ir.specs.BlockView.{view_act, view_acts, view_change, view_feed};
ghost use Rattle.gq_plan_ir.specs.Reference.{Slot};
ghost use Rattle.gq_exec_contribute.specs.Prepared.{AreFound, Gathers, IsFed, IsInput, sees};

use crate::cells::{Taken, target_in};
use crate::leaves::Leaves;
use crate::names::vertex_at;
use crate::reading::read;
use crate::scalars::ScalarInput;
use crate::waiting::WaitingInputs;
use gq_base::OutOfMemory;
use gq_eval_context::BlockContext;
use gq_graph::Candidate;
use gq_plan_ir::{Act, Change, Feed};
use std::alloc::Global;

/// Appends the inputs that the statements feed for a candidate, each with the number of its target.
///
/// Returns false, and appends nothing, if one of the inputs can't be read.
#[tactic(auto, using(crate::proofs::GatherLemmas::gather_laws))]
pub fn gather(
    acts: &[Act],
    alloc: Global,
    over: &BlockContext<'_>,
    leaves: &Leaves<'_>,
    c: &Candidate,
    into: &mut WaitingInputs,
) -> Result<bool, OutOfMemory>
    requires { AreFound over.now leaves.now }
    ensures { IfOk result (Gathers over.now.frame.accums.slots (contributions (sees gregorian over.now leaves.now c.now) (slots_are over.now.frame.accums) (view_acts acts.now)) into.old into.new) }
{
    let before = into.len();
    for act in acts {
        if !add_act(act, alloc, over, leaves, c, into)? {
            into.truncate(before);
            return Ok(false);
        }
    }
    Ok(true)
}

/// Appends the input of a statement, or returns false.
#[tactic(auto, using(gq_plan_ir::proofs::ViewLaws::step_laws, crate::proofs::GatherLemmas::act_laws))]
fn add_act(
    act: &Act,
    alloc: Global,
    over: &BlockContext<'_>,
    leaves: &Leaves<'_>,
    c: &Candidate,
    into: &mut WaitingInputs,
) -> Result<bool, OutOfMemory>
    requires { AreFound over.now leaves.now }
    ensures { IfOk result (Gathers over.now.frame.accums.slots (of_act (sees gregorian over.now leaves.now c.now) (slots_are over.now.frame.accums) (view_act act.now)) into.old into.new) }
{
    match act {
        Act::Attached(place, slot, change) => match vertex_at(leaves, c, *place) {
            Some(vertex) => add_change(change, alloc, over, leaves, c, *slot, vertex, into),
            None => Ok(false),
        },
        Act::Global(slot, change) => add_change(change, alloc, over, leaves, c, *slot, 0, into),
        Act::If(_, _) => Ok(false),
    }
}

/// Appends the input of a `+=` to the slot at a vertex, or returns false.
#[tactic(auto, using(crate::proofs::GatherLemmas::change_laws))]
fn add_change(
    change: &Change,
    alloc: Global,
    over: &BlockContext<'_>,
    leaves: &Leaves<'_>,
    c: &Candidate,
    slot: u32,
    vertex: u32,
    into: &mut WaitingInputs,
) -> Result<bool, OutOfMemory>
    requires { AreFound over.now leaves.now }
    ensures { IfOk result (Gathers over.now.frame.accums.slots (contributed (sees gregorian over.now leaves.now c.now) (slots_are over.now.frame.accums) (Slot slot) vertex (view_change change.now)) into.old into.new) }
{
    let mut input = ScalarInput::Int(0);
    match read_input(change, alloc, over, leaves, c, slot, vertex, &mut input) {
        None => Ok(false),
        Some(target) => {
            into.push(target, &input)?;
            Ok(true)
        }
    }
}

/// Reads the input of a `+=` to the slot at a vertex, and returns the number of its target.
fn read_input(
    change: &Change,
    alloc: Global,
    over: &BlockContext<'_>,
    leaves: &Leaves<'_>,
    c: &Candidate,
    slot: u32,
    vertex: u32,
    input: &mut ScalarInput,
) -> Option<u64>
    requires { AreFound over.now leaves.now }
    ensures { IfSome result (λ target. IsInput over.now.frame.accums.slots (contributed (sees gregorian over.now leaves.now c.now) (slots_are over.now.frame.accums) (Slot slot) vertex (view_change change.now)) (target, input.new)) }
{
    match added(change) {
        None => None,
        Some(feed) => match leaves.cells.get(slot as usize) {
            None => None,
            Some(cells) => match target_in(cells, vertex) {
                None => None,
                Some(target) => {
                    if read_before(feed, alloc, over, leaves, c, cells.takes, input) {
                        Some(target)
                    } else {
                        None
                    }
                }
            },
        },
    }
}

/// Reads an input with the accumulators from before the block.
fn read_before(
    feed: &Feed,
    alloc: Global,
    over: &BlockContext<'_>,
    leaves: &Leaves<'_>,
    c: &Candidate,
    takes: Taken,
    input: &mut ScalarInput,
) -> bool
    requires { AreFound over.now leaves.now }
    ensures { result ≡ true → IsFed (sees gregorian over.now leaves.now c.now) (view_feed feed.now) takes input.new }
{
    let accums = &over.frame.accums;
    read(feed, alloc, over, leaves, accums, c, takes, input)
}

/// The input of a `+=`; `None` for `=`.
pub(crate) fn added(change: &Change) -> Option<&Feed>
    ensures { IfSome result (λ feed. view_change change.entry.now ≡ AddsTo (view_feed feed.now)) }
{
    match change {
        Change::Set(_) => None,
        Change::Feed(feed) => Some(feed),
    }
}
