// Assignments of set expressions.
ghost use Rattle.std.specs.Prelude.{◌≡◌};
ghost use Rattle.std.specs.Option.{option_map};
ghost use Rattle.gq_rules_meaning.specs.Answers.{blaming};
ghost use Rattle.gq_rules_meaning.specs.Sets.{sets_of};
ghost use Rattle.gq_rules_meaning.specs.Statements.{Evaluation, assigned};
ghost use Rattle.gq_rules_calendar.specs.Gregorian.{gregorian};
ghost use Rattle.gq_plan_ir.specs.PlanView.{view_right, view_set_types, view_term};
ghost use Rattle.gq_plan_ir.specs.declared.step.Right.TheVariants as right;
ghost use Rattle.gq_plan_ir.specs.Reference.{Place};
ghost use Rattle.gq_frame.specs.Slots.{AreSound};
ghost use Rattle.gq_exec_vars.specs.Written.{others_of, typed};
ghost use Rattle.gq_exec_control.specs.Changes.{Becomes, Reads};
ghost use Rattle.gq_exec_control.specs.Contexts.{world_on};
ghost use Rattle.gq_flow.specs.Assigning.{Fixed};

use gq_base::OutOfMemory;
use gq_exec_control::{RunContext, RunFault, or_fault};
use gq_exec_vars::{Lookup, TypedSet, assign_set, sets};
use gq_frame::{Frame, Live};
use gq_plan_ir::{SetTypes, Sets};
use std::alloc::Global;

/// Assigns the vertices of a set expression.
pub(crate) fn assign_sets(
    alloc: Global,
    context: &RunContext<'_>,
    place: u32,
    types: Option<SetTypes>,
    sets: &Sets,
    live: &mut Live,
) -> Result<(), RunFault>
    requires { AreSound live.old.frame.accums }
    ensures names { Becomes (λ s. assigned (world_on gregorian context.now) s (Place place) (option_map view_set_types types) (view_right (right.Sets sets.now))) live.old live.new result }
    ensures accums { live.new.frame.accums ≡ live.old.frame.accums }
{
    match set_held(alloc, context, sets, &live.frame) {
        Err(fault) => Err(fault),
        Ok(set) => match give_set(alloc, context, place, types, set, live) {
            Err(_) => Err(RunFault::OutOfMemory),
            Ok(()) => Ok(()),
        },
    }
}

/// Returns the vertices of a set expression, with its types.
fn set_held(
    alloc: Global,
    context: &RunContext<'_>,
    expression: &Sets,
    frame: &Frame,
) -> Result<TypedSet, RunFault>
    requires { AreSound frame.now.accums }
    ensures { Reads typed (λ s. blaming Evaluation (sets_of (world_on gregorian context.now) s (view_term expression.now.first) (others_of expression.now.others))) frame.now result }
{
    let at = Lookup {
        vertices: &context.graph.store.vertices,
        own: context.plan.vertices.as_slice(),
        frame,
    };
    or_fault(sets(alloc, expression, &at))
}

/// Assigns a set to the set variable at a place.
pub(crate) fn give_set(
    alloc: Global,
    context: &RunContext<'_>,
    place: u32,
    types: Option<SetTypes>,
    set: TypedSet,
    live: &mut Live,
) -> Result<(), OutOfMemory>
    ensures names { Fixed gregorian context.now place (option_map view_set_types types) (typed set) live.old live.new result }
    ensures accums { live.new.frame.accums ≡ live.old.frame.accums }
{
    let own = context.plan.vertices.as_slice();
    assign_set(alloc, live, own, place, types, set)
}
