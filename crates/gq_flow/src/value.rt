// Assignments of values.
ghost use Rattle.std.specs.Prelude.{◌≡◌, IfOk};
ghost use Rattle.gq_value.specs.AccumViews.{base_of};
ghost use Rattle.gq_value.specs.Views.{val};
ghost use Rattle.gq_rules_meaning.specs.Answers.{blaming};
ghost use Rattle.gq_rules_meaning.specs.Expressions.{value_as};
ghost use Rattle.gq_rules_meaning.specs.States.{seen};
ghost use Rattle.gq_rules_meaning.specs.Statements.{Evaluation, value_assigned};
ghost use Rattle.gq_rules_calendar.specs.Gregorian.{gregorian};
ghost use Rattle.gq_plan_ir.specs.ExprView.{view};
ghost use Rattle.gq_plan_ir.specs.Reference.{Place};
ghost use Rattle.gq_eval_operand.specs.Meant.{Tells};
ghost use Rattle.gq_frame.specs.Names.{thing_in};
ghost use Rattle.gq_frame.specs.Slots.{AreSound};
ghost use Rattle.gq_exec_control.specs.Changes.{Becomes, Reads};
ghost use Rattle.gq_exec_control.specs.Contexts.{look_on, world_on};
ghost use Rattle.gq_flow.specs.Assigning.{IsBase};

use gq_base::OutOfMemory;
use gq_eval_operand::Halt;
use gq_exec_control::{RunContext, RunFault, or_fault, value_as, variable_in_view};
use gq_frame::{Frame, Live, Thing};
use gq_plan_ir::Expr;
use gq_value::{BaseType, Value};
use std::alloc::Global;

/// Assigns a value to a variable, converted to its type. Returns `Stuck` for a place without a variable in view.
pub(crate) fn assign_variable(
    alloc: Global,
    context: &RunContext<'_>,
    place: u32,
    expr: &Expr,
    live: &mut Live,
) -> Result<(), RunFault>
    requires { AreSound live.old.frame.accums }
    ensures names { Becomes (λ s. blaming Evaluation (value_assigned (world_on gregorian context.now) s (Place place) (view expr.now))) live.old live.new result }
    ensures accums { live.new.frame.accums ≡ live.old.frame.accums }
{
    match base_in_view(alloc, place, &live.frame) {
        Err(_) => Err(RunFault::OutOfMemory),
        Ok(None) => Err(RunFault::Stuck),
        Ok(Some(base)) => match converted_value(alloc, context, expr, &base, &live.frame) {
            Err(fault) => Err(fault),
            Ok(value) => match live.assign(place, Thing::Value(base, value)) {
                Err(_) => Err(RunFault::OutOfMemory),
                Ok(()) => Ok(()),
            },
        },
    }
}

/// Returns a copy of the type of the variable at a place, if one is in view.
#[tactic(auto, using(crate::proofs::AssignLemmas::base_laws))]
fn base_in_view(alloc: Global, place: u32, frame: &Frame) -> Result<Option<BaseType>, OutOfMemory>
    ensures { IfOk result (IsBase (thing_in frame.now.things place)) }
{
    match variable_in_view(frame.things.as_slice(), place) {
        None => Ok(None),
        Some(base) => Ok(Some(base.duplicate(alloc)?)),
    }
}

/// Returns the value of an expression, converted to a type.
fn converted_value(
    alloc: Global,
    context: &RunContext<'_>,
    expr: &Expr,
    base: &BaseType,
    frame: &Frame,
) -> Result<Value, RunFault>
    requires { AreSound frame.now.accums }
    ensures { Reads val (λ s. blaming Evaluation (value_as (seen (world_on gregorian context.now) s) (base_of base.now) (view expr.now))) frame.now result }
{
    or_fault(value_over(alloc, context, expr, base, frame))
}

fn value_over(
    alloc: Global,
    context: &RunContext<'_>,
    expr: &Expr,
    base: &BaseType,
    frame: &Frame,
) -> Result<Value, Halt>
    requires { AreSound frame.now.accums }
    ensures { Tells val (value_as (look_on gregorian context.now frame.now) (base_of base.now) (view expr.now)) result }
{
    let sight = context.eval_context(frame);
    value_as(expr, base, alloc, &sight)
}
