// Changes of global accumulators.
ghost use Rattle.std.specs.Prelude.{◌≡◌, OnOk};
ghost use Rattle.gq_value.specs.AccumViews.{accum_of};
ghost use Rattle.gq_rules_meaning.specs.Writes.{made_by};
ghost use Rattle.gq_rules_calendar.specs.Gregorian.{gregorian};
ghost use Rattle.gq_plan_ir.specs.BlockView.{view_change};
ghost use Rattle.gq_eval_operand.specs.Meant.{Tells};
ghost use Rattle.gq_frame.specs.Slots.{AreSound};
ghost use Rattle.gq_exec_control.specs.Changes.{Becomes};
ghost use Rattle.gq_exec_control.specs.Contexts.{look_on, world_on};
ghost use Rattle.gq_exec_post.specs.Making.{making_of};
ghost use Rattle.gq_flow.specs.Steps.{Makes, global_so};

use gq_eval_operand::Halt;
use gq_exec_control::{RunContext, RunFault, run_fault};
use gq_exec_post::{ChangeFault, Made, change_at, made_by};
use gq_frame::{Frame, Live};
use gq_plan_ir::Change;
use gq_value::Kind;
use std::alloc::Global;

/// Changes the global accumulator in a slot immediately, and checks its sum immediately.
pub(crate) fn change(
    alloc: Global,
    context: &RunContext<'_>,
    slot: u32,
    change: &Change,
    live: &mut Live,
) -> Result<(), RunFault>
    requires { AreSound live.old.frame.accums }
    ensures names { Becomes (global_so (world_on gregorian context.now) slot (view_change change.now)) live.old live.new result }
    ensures sound { OnOk result (AreSound live.new.frame.accums) }
{
    match made_over(alloc, context, slot, change, &live.frame) {
        Err(halt) => Err(run_fault(halt)),
        Ok(made) => match change_at(alloc, &mut live.frame.accums, slot, 0, &made) {
            Ok(()) => Ok(()),
            Err(ChangeFault::TooBig) => Err(RunFault::SumRange(slot as usize)),
            Err(ChangeFault::OutOfMemory) => Err(RunFault::OutOfMemory),
        },
    }
}

/// Returns the result of a change of the accumulator in a slot.
fn made_over(
    alloc: Global,
    context: &RunContext<'_>,
    slot: u32,
    change: &Change,
    frame: &Frame,
) -> Result<Made, Halt>
    requires { AreSound frame.now.accums }
    ensures { Makes (look_on gregorian context.now frame.now) frame.now.accums slot (view_change change.now) result }
{
    match frame.accums.slots.declared.get(slot as usize) {
        None => Err(Halt::Stuck),
        Some(declared) => made_of(alloc, context, &declared.kind, change, frame),
    }
}

fn made_of(
    alloc: Global,
    context: &RunContext<'_>,
    kind: &Kind,
    change: &Change,
    frame: &Frame,
) -> Result<Made, Halt>
    requires { AreSound frame.now.accums }
    ensures { Tells making_of (made_by (look_on gregorian context.now frame.now) (accum_of kind.now) (view_change change.now)) result }
{
    let sight = context.eval_context(frame);
    made_by(change, kind, alloc, &sight)
}
