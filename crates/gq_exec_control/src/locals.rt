// Declarations.
ghost use Rattle.std.specs.Prelude.{◌≡◌, true, false};
ghost use Rattle.std.specs.Option.{option_map};
ghost use Rattle.gq_value.specs.AccumViews.{base_of};
ghost use Rattle.gq_rules_calendar.specs.Gregorian.{gregorian};
ghost use Rattle.gq_plan_ir.specs.ExprView.{view};
ghost use Rattle.gq_plan_ir.specs.PlanView.{view_declared, view_locals};
ghost use Rattle.gq_plan_ir.specs.Reference.{Place};
ghost use Rattle.gq_frame.specs.Slots.{AreSound};
ghost use Rattle.gq_exec_control.specs.Changes.{Becomes};
ghost use Rattle.gq_exec_control.specs.Contexts.{world_on};
ghost use Rattle.gq_exec_control.specs.Locals.{IsKnown, IsUnknown, base_declared, declared_all, declared_one};

use crate::run_context::RunContext;
use crate::running::RunFault;
use crate::value::first_value;
use gq_frame::{Live, Thing};
use gq_plan_ir::{Declared, Expr};
use gq_value::BaseType;
use std::alloc::Global;

/// Declares variables of a type, one after the other: each sees those before it. A variable without a value gets the
/// default of its type.
///
/// Returns `Stuck` for a type that isn't one of the graph.
pub fn declare(
    context: &RunContext<'_>,
    alloc: Global,
    declared: Declared,
    locals: &[(u32, Option<Expr>)],
    live: &mut Live,
) -> Result<(), RunFault>
    requires { AreSound live.old.frame.accums }
    ensures names { Becomes (declared_all (world_on gregorian context.now) (view_declared declared) (view_locals locals.now)) live.old live.new result }
    ensures accums { live.new.frame.accums ≡ live.old.frame.accums }
{
    if !is_known(declared, context.plan.vertices.as_slice()) {
        return Err(RunFault::Stuck);
    }
    for local in locals {
        declare_one(context, alloc, declared, local.0, &local.1, live)?;
    }
    Ok(())
}

/// Whether a type is built in, or a vertex type of the graph.
fn is_known(declared: Declared, own: &[u32]) -> bool
    ensures known { result ≡ true → IsKnown own.now declared }
    ensures unknown { result ≡ false → IsUnknown own.now declared }
{
    match declared {
        Declared::Int | Declared::UInt | Declared::Bool | Declared::Text => true,
        Declared::AnyVertex => true,
        Declared::VertexOf(kind) => own.contains(&kind),
    }
}

/// Declares one variable.
fn declare_one(
    context: &RunContext<'_>,
    alloc: Global,
    declared: Declared,
    place: u32,
    local: &Option<Expr>,
    live: &mut Live,
) -> Result<(), RunFault>
    requires { AreSound live.old.frame.accums }
    ensures names { Becomes (declared_one (world_on gregorian context.now) (base_declared declared) (Place place, option_map view local.now)) live.old live.new result }
    ensures accums { live.new.frame.accums ≡ live.old.frame.accums }
{
    let base = base_declared(declared);
    match first_value(local, &base, alloc, context, &live.frame) {
        Err(fault) => Err(fault),
        Ok(value) => match live.declare(place, Thing::Value(base, value)) {
            Err(_) => Err(RunFault::OutOfMemory),
            Ok(()) => Ok(()),
        },
    }
}

/// Returns the declared type.
#[tactic(auto, using(gq_eval_operand::proofs::ConvertLemmas::base_laws))]
fn base_declared(declared: Declared) -> BaseType
    ensures { base_of result ≡ base_declared declared }
{
    match declared {
        Declared::Int => BaseType::Int,
        Declared::UInt => BaseType::UInt,
        Declared::Bool => BaseType::Bool,
        Declared::Text => BaseType::Text,
        Declared::AnyVertex => BaseType::AnyVertex,
        Declared::VertexOf(kind) => BaseType::VertexOf(kind),
    }
}
