// Values of expressions.
ghost use Rattle.std.specs.Prelude.{IfOk};
ghost use Rattle.gq_value.specs.Views.{val};
ghost use Rattle.gq_plan_ir.specs.ExprView.{view};
ghost use Rattle.gq_rules_meaning.specs.Expressions.{value_of};
ghost use Rattle.gq_eval_operand.specs.Meant.{Tells};
ghost use Rattle.gq_eval.specs.Typed.{IsTyped, HasType};

use crate::expressions::run_value;
use gq_eval_operand::{Halt, Sees, own};
use gq_plan_ir::Expr;
use gq_value::Value;
use std::alloc::Global;

/// The value of an expression, or its first fault in order of text. The value of a well typed expression has its type.
#[tactic(auto, using(crate::proofs::TypedLemmas::value_typed))]
pub fn eval<V: Sees>(alloc: Global, expr: &Expr, sight: &V) -> Result<Value, Halt>
    ensures value { Tells val (value_of (V.look sight.now) (view expr.now)) result }
    ensures typed { (known : IsTyped (V.look sight.now) (view expr.now)) → IfOk result (λ v. HasType (V.look sight.now).world known.type (val v)) }
{
    let operand = run_value(expr, alloc, sight)?;
    Ok(own(alloc, operand)?)
}
