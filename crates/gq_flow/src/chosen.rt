// Assignments of a SELECT.
ghost use Rattle.std.specs.Prelude.{◌≡◌, IfOk, OnOk};
ghost use Rattle.std.specs.Option.{option_map};
ghost use Rattle.gq_rules_meaning.specs.Statements.{assigned};
ghost use Rattle.gq_rules_calendar.specs.Gregorian.{gregorian};
ghost use Rattle.gq_plan_ir.specs.PlanView.{view_right, view_set_types};
ghost use Rattle.gq_plan_ir.specs.declared.step.Right.TheVariants as right;
ghost use Rattle.gq_plan_ir.specs.Reference.{Place};
ghost use Rattle.gq_frame.specs.Slots.{AreSound};
ghost use Rattle.gq_flow.specs.Selecting.{Selects};
ghost use Rattle.gq_exec_control.specs.Changes.{Becomes};
ghost use Rattle.gq_exec_control.specs.Contexts.{over_of, world_on};
ghost use Rattle.gq_flow.specs.Assigning.{Kept};

use crate::selects::{Selected, Workers, select};
use crate::sets::give_set;
use gq_base::OutOfMemory;
use gq_exec_control::{RunContext, RunFault};
use gq_exec_vars::TypedSet;
use gq_frame::{Frame, Live};
use gq_plan_ir::{Block, SetTypes};
use std::alloc::Global;
use std::thread::Threads;

/// Assigns the vertices of a SELECT, and keeps its accumulators.
pub(crate) fn assign_select<R: Threads + Sync>(
    workers: &Workers<'_, R>,
    alloc: Global,
    context: &RunContext<'_>,
    place: u32,
    types: Option<SetTypes>,
    block: &Block,
    live: &mut Live,
) -> Result<(), RunFault>
    requires { AreSound live.old.frame.accums }
    ensures names { Becomes (λ s. assigned (world_on gregorian context.now) s (Place place) (option_map view_set_types types) (view_right (right.Select block.now))) live.old live.new result }
    ensures sound { OnOk result (AreSound live.new.frame.accums) }
{
    match select_over(workers, alloc, context, block, &live.frame) {
        Err(fault) => Err(fault),
        Ok(selected) => match keep(alloc, context, place, types, selected, live) {
            Err(_) => Err(RunFault::OutOfMemory),
            Ok(()) => Ok(()),
        },
    }
}

fn select_over<R: Threads + Sync>(
    workers: &Workers<'_, R>,
    alloc: Global,
    context: &RunContext<'_>,
    block: &Block,
    frame: &Frame,
) -> Result<Selected, RunFault>
    requires { AreSound frame.now.accums }
    ensures selects { Selects gregorian (over_of context.now frame.now) block.now result }
    ensures sound { IfOk result (λ selected. AreSound selected.accums) }
{
    let over = context.block_context(frame);
    select(workers, alloc, block, &over)
}

/// Keeps the accumulators of a SELECT, and assigns its vertices to the set variable at a place.
fn keep(
    alloc: Global,
    context: &RunContext<'_>,
    place: u32,
    types: Option<SetTypes>,
    selected: Selected,
    live: &mut Live,
) -> Result<(), OutOfMemory>
    ensures names { Kept gregorian context.now place (option_map view_set_types types) selected live.old live.new result }
    ensures accums { live.new.frame.accums ≡ selected.accums }
{
    let Selected {
        accums,
        types: found,
        vertices,
    } = selected;
    live.frame.accums = accums;
    let set = TypedSet {
        types: found,
        vertices,
    };
    give_set(alloc, context, place, types, set, live)
}
