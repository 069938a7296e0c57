// Assignments.
ghost use Rattle.std.specs.Prelude.{OnOk};
ghost use Rattle.std.specs.Option.{option_map};
ghost use Rattle.gq_rules_meaning.specs.Statements.{assigned};
ghost use Rattle.gq_rules_calendar.specs.Gregorian.{gregorian};
ghost use Rattle.gq_plan_ir.specs.PlanView.{view_right, view_set_types};
ghost use Rattle.gq_plan_ir.specs.Reference.{Place};
ghost use Rattle.gq_frame.specs.Slots.{AreSound};
ghost use Rattle.gq_exec_control.specs.Changes.{Becomes};
ghost use Rattle.gq_exec_control.specs.Contexts.{world_on};

use crate::chosen::assign_select;
use crate::named::assign_value;
use crate::selects::Workers;
use crate::sets::assign_sets;
use gq_exec_control::{RunContext, RunFault};
use gq_frame::Live;
use gq_plan_ir::{Right, SetTypes};
use std::alloc::Global;
use std::thread::Threads;

/// Assigns the right side of an assignment to the variable at a place.
///
/// A SELECT also gives its accumulators, and its vertices to a set variable, whose types are fixed when it comes into
/// view.
pub fn assign<R: Threads + Sync>(
    workers: &Workers<'_, R>,
    alloc: Global,
    context: &RunContext<'_>,
    place: u32,
    types: Option<SetTypes>,
    right: &Right,
    live: &mut Live,
) -> Result<(), RunFault>
    requires { AreSound live.old.frame.accums }
    ensures names { Becomes (λ s. assigned (world_on gregorian context.now) s (Place place) (option_map view_set_types types) (view_right right.now)) live.old live.new result }
    ensures sound { OnOk result (AreSound live.new.frame.accums) }
{
    match right {
        Right::Select(block) => assign_select(workers, alloc, context, place, types, block, live),
        Right::Sets(sets) => assign_sets(alloc, context, place, types, sets, live),
        Right::Value(expr) => assign_value(alloc, context, place, types, expr, live),
    }
}
