// Runs the statements of a phase at one vertex.
ghost use Rattle.std.specs.Prelude.{◌≡◌, OnOk, map};
ghost use Rattle.gq_value.specs.AccumViews.{given};
ghost use Rattle.gq_rules_meaning.specs.Blocks.{contributed};
ghost use Rattle.gq_rules_meaning.specs.Expressions.{truth_of};
ghost use Rattle.gq_rules_meaning.specs.Posts.{post_act, post_acts, write, feed};
ghost use Rattle.gq_rules_calendar.specs.Gregorian.{gregorian};
ghost use Rattle.gq_plan_ir.specs.BlockView.{view_act, view_acts, view_change};
ghost use Rattle.gq_plan_ir.specs.ExprView.{view};
ghost use Rattle.gq_plan_ir.specs.Reference.{Slot};
ghost use Rattle.gq_plan_ir.specs.References.{same};
ghost use Rattle.gq_eval_operand.specs.Meant.{Tells, itself};
ghost use Rattle.gq_frame.specs.Names.{alias_of};
ghost use Rattle.gq_frame.specs.Slots.{AreSound, slots_are};
ghost use Rattle.gq_exec_post.specs.Making.{making_of};
ghost use Rattle.gq_exec_post.specs.Sights.{DoesSo, PutSo, ReadsAt, look_now, made_at, one_waiting};
ghost use Rattle.gq_exec_post.specs.Writing.{AreTaken, KeepsTo, left};

use crate::changed::{ChangeFault, change_at};
use crate::making::{Made, made_by};
use crate::waiting::{queue, queue_read};
use crate::writing::Writing;
use gq_eval::run_truth;
use gq_eval_context::{BlockContext, BlockFault, fault_at};
use gq_eval_operand::Halt;
use gq_exec_contribute::{Leaves, added_at, input_of, run_feed, truth_at};
use gq_frame::{Accums, Alias};
use gq_plan_ir::{Act, Change, Expr};
use gq_value::Input;
use std::alloc::Global;

/// Runs statements at a vertex, in order.
#[cycle(act)]
#[tactic(auto, using(crate::proofs::ActLemmas::acts_laws, crate::proofs::ReadLemmas::reads_kept))]
pub(crate) fn run_acts(
    acts: &[Act],
    alloc: Global,
    over: &BlockContext<'_>,
    aliases: &[Alias<'_>],
    leaves: &Leaves<'_>,
    vertex: u32,
    writing: &mut Writing,
) -> Result<(), BlockFault>
    requires sound { AreSound writing.old.accums }
    requires taken { AreTaken writing.old }
    requires reads { ReadsAt leaves.now (map alias_of aliases.now) vertex writing.old.accums }
    ensures told { DoesSo gregorian over.now (map alias_of aliases.now) vertex (λ p. post_acts p (view_acts acts.now)) writing.old (left result writing.new) }
    ensures sound { OnOk result (KeepsTo writing.old.accums writing.new.accums) }
    ensures taken { OnOk result (AreTaken writing.new) }
{
    for act in acts {
        match run_act(act, alloc, over, aliases, leaves, vertex, writing) {
            Err(fault) => return Err(fault),
            Ok(()) => {}
        }
    }
    Ok(())
}

/// Runs a statement at a vertex.
#[cycle(act)]
#[tactic(auto, using(gq_plan_ir::proofs::ViewLaws::step_laws, crate::proofs::ActLemmas::act_laws))]
fn run_act(
    act: &Act,
    alloc: Global,
    over: &BlockContext<'_>,
    aliases: &[Alias<'_>],
    leaves: &Leaves<'_>,
    vertex: u32,
    writing: &mut Writing,
) -> Result<(), BlockFault>
    requires sound { AreSound writing.old.accums }
    requires taken { AreTaken writing.old }
    requires reads { ReadsAt leaves.now (map alias_of aliases.now) vertex writing.old.accums }
    ensures told { DoesSo gregorian over.now (map alias_of aliases.now) vertex (λ p. post_act p (view_act act.now)) writing.old (left result writing.new) }
    ensures sound { OnOk result (KeepsTo writing.old.accums writing.new.accums) }
    ensures taken { OnOk result (AreTaken writing.new) }
{
    match act {
        Act::Attached(_, slot, change) => {
            let to = (*slot, vertex);
            write(change, alloc, over, aliases, leaves, to, writing)
        }
        Act::Global(slot, change) => {
            let to = (*slot, vertex);
            wait(change, alloc, over, aliases, leaves, to, writing)
        }
        Act::If(branches, others) => {
            for branch in branches.as_slice() {
                match holds(
                    &branch.0,
                    alloc,
                    over,
                    aliases,
                    leaves,
                    vertex,
                    &writing.accums,
                ) {
                    Err(halt) => return Err(fault_at(vertex, halt)),
                    Ok(true) => {
                        let acts = branch.1.as_slice();
                        return run_acts(acts, alloc, over, aliases, leaves, vertex, writing);
                    }
                    Ok(false) => {}
                }
            }
            match others {
                Some(others) => {
                    let acts = others.as_slice();
                    run_acts(acts, alloc, over, aliases, leaves, vertex, writing)
                }
                None => Ok(()),
            }
        }
    }
}

/// Whether a condition holds: it is read if possible, else evaluated.
#[tactic(auto, using(crate::proofs::ReadLemmas::holds_laws))]
fn holds(
    expr: &Expr,
    alloc: Global,
    over: &BlockContext<'_>,
    aliases: &[Alias<'_>],
    leaves: &Leaves<'_>,
    vertex: u32,
    accums: &Accums,
) -> Result<bool, Halt>
    requires sound { AreSound accums.now }
    requires reads { ReadsAt leaves.now (map alias_of aliases.now) vertex accums.now }
    ensures { Tells itself (truth_of (look_now gregorian over.now (map alias_of aliases.now) accums.now) (view expr.now)) result }
{
    match truth_at(expr, alloc, over, leaves, accums, vertex) {
        Some(truth) => Ok(truth),
        None => evaluated_truth(expr, alloc, over, aliases, accums),
    }
}

/// Evaluates a condition.
fn evaluated_truth(
    expr: &Expr,
    alloc: Global,
    over: &BlockContext<'_>,
    aliases: &[Alias<'_>],
    accums: &Accums,
) -> Result<bool, Halt>
    requires { AreSound accums.now }
    ensures { Tells itself (truth_of (look_now gregorian over.now (map alias_of aliases.now) accums.now) (view expr.now)) result }
{
    let sight = over.eval_context(aliases, accums, &over.frame.accums);
    run_truth(expr, alloc, &sight)
}

// ---- writes

/// Changes the attached accumulator of a slot at a vertex immediately.
#[tactic(auto, using(crate::proofs::WriteLemmas::write_laws))]
fn write(
    change: &Change,
    alloc: Global,
    over: &BlockContext<'_>,
    aliases: &[Alias<'_>],
    leaves: &Leaves<'_>,
    to: (u32, u32),
    writing: &mut Writing,
) -> Result<(), BlockFault>
    requires sound { AreSound writing.old.accums }
    requires taken { AreTaken writing.old }
    requires reads { ReadsAt leaves.now (map alias_of aliases.now) to.1 writing.old.accums }
    ensures told { DoesSo gregorian over.now (map alias_of aliases.now) to.1 (λ p. write p (Slot to.0) (view_change change.now)) writing.old (left result writing.new) }
    ensures sound { OnOk result (KeepsTo writing.old.accums writing.new.accums) }
    ensures taken { OnOk result (AreTaken writing.new) }
{
    match made_at(change, alloc, over, aliases, leaves, to, &writing.accums) {
        Err(halt) => Err(fault_at(to.1, halt)),
        Ok(made) => put_in(alloc, to, &made, writing),
    }
}

/// The change of the accumulator of a slot at a vertex: its input is read if possible, else it is evaluated.
#[tactic(auto, using(crate::proofs::ReadLemmas::made_laws))]
fn made_at(
    change: &Change,
    alloc: Global,
    over: &BlockContext<'_>,
    aliases: &[Alias<'_>],
    leaves: &Leaves<'_>,
    to: (u32, u32),
    accums: &Accums,
) -> Result<Made, Halt>
    requires sound { AreSound accums.now }
    requires reads { ReadsAt leaves.now (map alias_of aliases.now) to.1 accums.now }
    ensures { Tells making_of (made_at (look_now gregorian over.now (map alias_of aliases.now) accums.now) accums.now.slots to.0 (view_change change.now)) result }
{
    match added_at(change, alloc, over, leaves, accums, to.1, to.0) {
        Some(x) => {
            let input = input_of(alloc, &x)?;
            Ok(Made::Input(input))
        }
        None => evaluated_made(change, alloc, over, aliases, accums, to.0),
    }
}

/// Evaluates the change of an accumulator of a slot.
#[tactic(auto, using(crate::proofs::WriteLemmas::made_laws))]
fn evaluated_made(
    change: &Change,
    alloc: Global,
    over: &BlockContext<'_>,
    aliases: &[Alias<'_>],
    accums: &Accums,
    slot: u32,
) -> Result<Made, Halt>
    requires { AreSound accums.now }
    ensures { Tells making_of (made_at (look_now gregorian over.now (map alias_of aliases.now) accums.now) accums.now.slots slot (view_change change.now)) result }
{
    match accums.slots.declared.get(slot as usize) {
        None => Err(Halt::Stuck),
        Some(declared) => {
            let sight = over.eval_context(aliases, accums, &over.frame.accums);
            made_by(change, &declared.kind, alloc, &sight)
        }
    }
}

/// Applies a change to the accumulator of a slot at a vertex.
fn put_in(
    alloc: Global,
    to: (u32, u32),
    made: &Made,
    writing: &mut Writing,
) -> Result<(), BlockFault>
    requires { AreSound writing.old.accums }
    ensures { PutSo made.now to.0 to.1 writing.old (left result writing.new) }
{
    match change_at(alloc, &mut writing.accums, to.0, to.1, made) {
        Ok(()) => Ok(()),
        Err(ChangeFault::TooBig) => Err(BlockFault::SumRange {
            slot: to.0 as usize,
        }),
        Err(ChangeFault::OutOfMemory) => Err(BlockFault::OutOfMemory),
    }
}

// ---- waiting inputs

/// Queues the input of a `+=` to the global accumulator of a slot: it is read if possible, else evaluated.
#[tactic(auto, using(crate::proofs::WaitLemmas::wait_laws, crate::proofs::ReadLemmas::input_laws))]
fn wait(
    change: &Change,
    alloc: Global,
    over: &BlockContext<'_>,
    aliases: &[Alias<'_>],
    leaves: &Leaves<'_>,
    to: (u32, u32),
    writing: &mut Writing,
) -> Result<(), BlockFault>
    requires sound { AreSound writing.old.accums }
    requires taken { AreTaken writing.old }
    requires reads { ReadsAt leaves.now (map alias_of aliases.now) to.1 writing.old.accums }
    ensures told { DoesSo gregorian over.now (map alias_of aliases.now) to.1 (λ p. feed p (Slot to.0) (view_change change.now)) writing.old (left result writing.new) }
    ensures sound { OnOk result (KeepsTo writing.old.accums writing.new.accums) }
    ensures taken { OnOk result (AreTaken writing.new) }
{
    match added_at(change, alloc, over, leaves, &writing.accums, to.1, to.0) {
        Some(x) => {
            let slots = &writing.accums.slots;
            match queue_read(alloc, slots, &leaves.cells, to.0, &x, &mut writing.waiting) {
                Ok(()) => Ok(()),
                Err(_) => Err(BlockFault::OutOfMemory),
            }
        }
        None => wait_evaluated(change, alloc, over, aliases, to, writing),
    }
}

/// Evaluates the input of a `+=` to the global accumulator of a slot, and queues it.
#[tactic(auto, using(crate::proofs::WaitLemmas::wait_laws))]
fn wait_evaluated(
    change: &Change,
    alloc: Global,
    over: &BlockContext<'_>,
    aliases: &[Alias<'_>],
    to: (u32, u32),
    writing: &mut Writing,
) -> Result<(), BlockFault>
    requires sound { AreSound writing.old.accums }
    requires taken { AreTaken writing.old }
    ensures told { DoesSo gregorian over.now (map alias_of aliases.now) to.1 (λ p. feed p (Slot to.0) (view_change change.now)) writing.old (left result writing.new) }
    ensures sound { OnOk result (KeepsTo writing.old.accums writing.new.accums) }
    ensures taken { OnOk result (AreTaken writing.new) }
{
    match evaluated_input(change, alloc, over, aliases, &writing.accums, to.0) {
        Err(halt) => Err(fault_at(to.1, halt)),
        Ok(input) => match queue(&writing.accums.slots, to.0, input, &mut writing.waiting) {
            Ok(()) => Ok(()),
            Err(_) => Err(BlockFault::OutOfMemory),
        },
    }
}

/// Evaluates the input of a `+=` to the global accumulator of a slot. `=` isn't allowed there.
#[tactic(auto, using(crate::proofs::WaitLemmas::input_laws))]
fn evaluated_input(
    change: &Change,
    alloc: Global,
    over: &BlockContext<'_>,
    aliases: &[Alias<'_>],
    accums: &Accums,
    slot: u32,
) -> Result<Input, Halt>
    requires { AreSound accums.now }
    ensures { Tells (λ input. one_waiting slot (given input)) (contributed (look_now gregorian over.now (map alias_of aliases.now) accums.now) (slots_are accums.now) (Slot slot) 0 (view_change change.now)) result }
{
    match change {
        Change::Set(_) => Err(Halt::Stuck),
        Change::Feed(feed) => match accums.slots.declared.get(slot as usize) {
            None => Err(Halt::Stuck),
            Some(declared) => {
                let sight = over.eval_context(aliases, accums, &over.frame.accums);
                run_feed(feed, &declared.kind, alloc, &sight)
            }
        },
    }
}
