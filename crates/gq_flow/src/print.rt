// PRINT.
ghost use Rattle.std.specs.Prelude.{◌≡◌, map};
ghost use Rattle.gq_rules_typing.specs.Statements as plain;
ghost use Rattle.gq_rules_meaning.specs.Runs.{run};
ghost use Rattle.gq_rules_calendar.specs.Gregorian.{gregorian};
ghost use Rattle.gq_plan_ir.specs.PlanView.{view_item};
ghost use Rattle.gq_frame.specs.Slots.{AreSound};
ghost use Rattle.gq_exec_control.specs.Standing.{Does};
ghost use Rattle.gq_exec_control.specs.Contexts.{world_on};
ghost use Rattle.gq_flow.specs.Steps.{PrintsOn, PrintsOne};

use gq_eval_operand::Halt;
use gq_exec_control::{RunContext, RunFault, Running, or_fault};
use gq_frame::Frame;
use gq_json::Printed;
use gq_output::print;
use gq_plan_ir::PrintItem;
use std::alloc::Global;

/// Prints one more object.
pub(crate) fn print_more(
    alloc: Global,
    context: &RunContext<'_>,
    items: &[PrintItem],
    r: &mut Running,
) -> Result<(), RunFault>
    requires { AreSound r.old.live.frame.accums }
    ensures does { Does (run (world_on gregorian context.now) (plain.Print (map view_item items.now))) r.old r.new result }
    ensures live { r.new.live ≡ r.old.live }
    ensures turns { r.new.turns ≡ r.old.turns }
{
    match printed(alloc, context, items, &r.live.frame) {
        Err(fault) => Err(fault),
        Ok(printed) => match r.printed.push(printed) {
            Err(_) => Err(RunFault::OutOfMemory),
            Ok(()) => Ok(()),
        },
    }
}

/// Returns the object that one PRINT prints.
fn printed(
    alloc: Global,
    context: &RunContext<'_>,
    items: &[PrintItem],
    frame: &Frame,
) -> Result<Printed, RunFault>
    requires { AreSound frame.now.accums }
    ensures { PrintsOne (world_on gregorian context.now) (map view_item items.now) frame.now result }
{
    or_fault(print_over(alloc, context, items, frame))
}

fn print_over(
    alloc: Global,
    context: &RunContext<'_>,
    items: &[PrintItem],
    frame: &Frame,
) -> Result<Printed, Halt>
    requires { AreSound frame.now.accums }
    ensures { PrintsOn (world_on gregorian context.now) (map view_item items.now) frame.now result }
{
    let over = context.block_context(frame);
    print(alloc, items, &over)
}
