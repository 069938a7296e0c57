// Initial values of variables.
ghost use Rattle.std.specs.Option.{option_map};
ghost use Rattle.gq_value.specs.AccumViews.{base_of};
ghost use Rattle.gq_value.specs.Views.{val};
ghost use Rattle.gq_rules_meaning.specs.Expressions.{value_as};
ghost use Rattle.gq_rules_meaning.specs.Answers.{blaming};
ghost use Rattle.gq_rules_meaning.specs.States.{seen};
ghost use Rattle.gq_rules_meaning.specs.Statements.{Evaluation, default_of, local_value};
ghost use Rattle.gq_rules_calendar.specs.Gregorian.{gregorian};
ghost use Rattle.gq_plan_ir.specs.ExprView.{view};
ghost use Rattle.gq_eval_operand.specs.Meant.{Tells};
ghost use Rattle.gq_frame.specs.Slots.{AreSound};
ghost use Rattle.gq_exec_control.specs.Changes.{Reads};
ghost use Rattle.gq_exec_control.specs.Contexts.{look_on, world_on};

use crate::faults::or_fault;
use crate::run_context::RunContext;
use crate::running::RunFault;
use gq_eval::run_value;
use gq_eval_operand::{Halt, Sees, converted, own};
use gq_frame::Frame;
use gq_plan_ir::Expr;
use gq_value::{BaseType, Txt, Value};
use std::alloc::Global;

/// Returns the value of an expression, converted to a type and copied.
#[tactic(auto, using(crate::proofs::ValueLemmas::value_laws))]
pub fn value_as<V: Sees>(
    expr: &Expr,
    base: &BaseType,
    alloc: Global,
    sight: &V,
) -> Result<Value, Halt>
    ensures { Tells val (value_as (V.look sight.now) (base_of base.now) (view expr.now)) result }
{
    let value = run_value(expr, alloc, sight)?;
    let value = converted(base, value)?;
    Ok(own(alloc, value)?)
}

/// Returns the value that a variable of a type is declared with, or else the default of the type.
pub(crate) fn first_value(
    local: &Option<Expr>,
    base: &BaseType,
    alloc: Global,
    context: &RunContext<'_>,
    frame: &Frame,
) -> Result<Value, RunFault>
    requires { AreSound frame.now.accums }
    ensures { Reads val (λ s. blaming Evaluation (local_value (seen (world_on gregorian context.now) s) (base_of base.now) (option_map view local.now))) frame.now result }
{
    or_fault(value_over(local, base, alloc, context, frame))
}

fn value_over(
    local: &Option<Expr>,
    base: &BaseType,
    alloc: Global,
    context: &RunContext<'_>,
    frame: &Frame,
) -> Result<Value, Halt>
    requires { AreSound frame.now.accums }
    ensures { Tells val (local_value (look_on gregorian context.now frame.now) (base_of base.now) (option_map view local.now)) result }
{
    let sight = context.eval_context(frame);
    value_seen(local, base, alloc, &sight)
}

fn value_seen<V: Sees>(
    local: &Option<Expr>,
    base: &BaseType,
    alloc: Global,
    sight: &V,
) -> Result<Value, Halt>
    ensures { Tells val (local_value (V.look sight.now) (base_of base.now) (option_map view local.now)) result }
{
    match local {
        None => default_value(alloc, base),
        Some(expr) => value_as(expr, base, alloc, sight),
    }
}

/// Returns the default of a variable without a value: 0, false or no text.
#[tactic(auto, using(gq_eval_operand::proofs::ConvertLemmas::base_laws, gq_value::specs::ViewLaws::view_laws))]
fn default_value(alloc: Global, base: &BaseType) -> Result<Value, Halt>
    ensures { Tells val (default_of (base_of base.now)) result }
{
    match base {
        BaseType::Int => Ok(Value::Int(0)),
        BaseType::UInt => Ok(Value::UInt(0)),
        BaseType::Bool => Ok(Value::Bool(false)),
        BaseType::Text => Ok(Value::Text(Txt::of(alloc, "")?)),
        BaseType::AnyVertex | BaseType::VertexOf(_) => Err(Halt::Stuck),
        BaseType::Tuple(_, _) | BaseType::Time => Err(Halt::Stuck),
    }
}
