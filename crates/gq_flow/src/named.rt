// Assignments of expressions.
ghost use Rattle.std.specs.Prelude.{◌≡◌, IfOk, MatchOption};
ghost use Rattle.std.specs.Option.{option_map};
ghost use Rattle.gq_rules_meaning.specs.Statements.{assigned};
ghost use Rattle.gq_tree.specs.Tree.{Name};
ghost use Rattle.gq_rules_calendar.specs.Gregorian.{gregorian};
ghost use Rattle.gq_plan_ir.specs.ExprView.{view};
ghost use Rattle.gq_plan_ir.specs.PlanView.{view_right, view_set_types};
ghost use Rattle.gq_plan_ir.specs.declared.step.Right.TheVariants as right;
ghost use Rattle.gq_plan_ir.specs.Reference.{Place};
ghost use Rattle.gq_frame.specs.Names.{thing_in};
ghost use Rattle.gq_frame.specs.Slots.{AreSound};
ghost use Rattle.gq_exec_control.specs.Changes.{Becomes};
ghost use Rattle.gq_exec_control.specs.Contexts.{world_on};
ghost use Rattle.gq_flow.specs.Assigning.{IsNoName, IsCopied};

use crate::sets::give_set;
use crate::value::assign_variable;
use gq_base::OutOfMemory;
use gq_exec_control::{RunContext, RunFault};
use gq_exec_vars::{SetOperand, TypedSet};
use gq_frame::{Frame, Live, set_at};
use gq_plan_ir::{Expr, SetTypes};
use std::alloc::Global;

/// Assigns the value of an expression. The name of a set variable alone is its set.
pub(crate) fn assign_value(
    alloc: Global,
    context: &RunContext<'_>,
    place: u32,
    types: Option<SetTypes>,
    expr: &Expr,
    live: &mut Live,
) -> Result<(), RunFault>
    requires { AreSound live.old.frame.accums }
    ensures names { Becomes (λ s. assigned (world_on gregorian context.now) s (Place place) (option_map view_set_types types) (view_right (right.Value expr.now))) live.old live.new result }
    ensures accums { live.new.frame.accums ≡ live.old.frame.accums }
{
    match name_of(expr) {
        None => assign_variable(alloc, context, place, expr, live),
        Some(name) => match set_copied(alloc, name, &live.frame) {
            Err(_) => Err(RunFault::OutOfMemory),
            Ok(None) => assign_variable(alloc, context, place, expr, live),
            Ok(Some(set)) => match give_set(alloc, context, place, types, set, live) {
                Err(_) => Err(RunFault::OutOfMemory),
                Ok(()) => Ok(()),
            },
        },
    }
}

/// Returns the place of a name, if the expression is one.
#[tactic(auto, using(gq_plan_ir::proofs::ViewLaws::view_laws))]
fn name_of(expr: &Expr) -> Option<u32>
    ensures { MatchOption result (IsNoName (view expr.now)) (λ name. view expr.now ≡ Name (Place name)) }
{
    match expr {
        Expr::Name(place) => Some(*place),
        Expr::Number(_) | Expr::Text(_) | Expr::Truth(_) | Expr::Global(_) => None,
        Expr::Call(_, _) | Expr::Post(_, _) | Expr::Neg(_, _) | Expr::Not(_, _) => None,
        Expr::Mul(_, _) | Expr::Sum(_, _) | Expr::Cmp(_, _, _) => None,
        Expr::And(_, _) | Expr::Or(_, _) => None,
    }
}

/// Returns a copy of the set at a place, if one is in view.
fn set_copied(alloc: Global, place: u32, frame: &Frame) -> Result<Option<TypedSet>, OutOfMemory>
    ensures { IfOk result (IsCopied (thing_in frame.now.things place)) }
{
    match set_at(frame.things.as_slice(), place) {
        None => Ok(None),
        Some((types, vertices)) => Ok(Some(SetOperand::Lent(types, vertices).own(alloc)?)),
    }
}
