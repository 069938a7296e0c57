// Ranges of numbers.
ghost use Rattle.std.specs.Prelude.{pos};
ghost use Rattle.gq_value.specs.declared.kind.Number.TheVariants as number;
ghost use Rattle.gq_rules_meaning.specs.Expressions.{value_of};
ghost use Rattle.gq_rules_meaning.specs.Statements.{between, end_of};
ghost use Rattle.gq_plan_ir.specs.ExprView.{view};
ghost use Rattle.gq_eval_operand.specs.Meant.{Tells, itself, valued};
ghost use Rattle.gq_exec_control.specs.Rounds.{between_as, both_ends};
ghost use Rattle.gq_exec_control.specs.Values.{rounds_in};

use crate::running::Rounds;
use gq_eval::run_value;
use gq_eval_operand::{Halt, Operand, Sees, converted_to, is_unsigned, number};
use gq_plan_ir::Expr;
use gq_value::{Number, Value};
use std::alloc::Global;

/// Returns the numbers from one to another, including both. They are UINT if both ends are, else INT.
#[tactic(auto, using(crate::proofs::RangeLemmas::range_laws))]
pub(crate) fn range<V: Sees>(
    first: &Expr,
    last: &Expr,
    alloc: Global,
    sight: &V,
) -> Result<Rounds, Halt>
    ensures { Tells rounds_in (both_ends (value_of (V.look sight.now) (view first.now)) (value_of (V.look sight.now) (view last.now))) result }
{
    let first = run_value(first, alloc, sight)?;
    let last = run_value(last, alloc, sight)?;
    between(&first, &last)
}

#[tactic(auto, using(crate::proofs::RangeLemmas::both_laws))]
fn between(first: &Operand<'_>, last: &Operand<'_>) -> Result<Rounds, Halt>
    ensures { Tells rounds_in (between (valued first.now) (valued last.now)) result }
{
    if is_unsigned(first) && is_unsigned(last) {
        uints(first, last)
    } else {
        ints(first, last)
    }
}

#[tactic(auto, using(crate::proofs::RangeLemmas::int_laws))]
fn ints(first: &Operand<'_>, last: &Operand<'_>) -> Result<Rounds, Halt>
    ensures { Tells rounds_in (between_as number.Int (valued first.now) (valued last.now)) result }
{
    let first = int_end(first)?;
    let last = int_end(last)?;
    Ok(Rounds::Ints(first, last))
}

#[tactic(auto, using(crate::proofs::RangeLemmas::uint_laws))]
fn uints(first: &Operand<'_>, last: &Operand<'_>) -> Result<Rounds, Halt>
    ensures { Tells rounds_in (between_as number.UInt (valued first.now) (valued last.now)) result }
{
    let first = uint_end(first)?;
    let last = uint_end(last)?;
    Ok(Rounds::UInts(first, last))
}

/// Evaluates an end, converted to INT.
#[tactic(auto, using(gq_value::specs::ViewLaws::view_laws, crate::proofs::RangeLemmas::int_end_laws, crate::proofs::RangeLemmas::other_values))]
fn int_end(operand: &Operand<'_>) -> Result<i64, Halt>
    ensures { Tells itself (end_of number.Int (valued operand.now)) result }
{
    let end = converted_to(Number::Int, operand)?;
    match number(&end) {
        Ok(Value::Int(x)) => Ok(x),
        Ok(Value::UInt(_)) => unreachable!(),
        Ok(Value::Bool(_)) | Ok(Value::Text(_)) | Ok(Value::Vertex(_)) => unreachable!(),
        Ok(Value::Tuple(_)) | Ok(Value::Fraction(_)) => unreachable!(),
        Err(halt) => Err(halt),
    }
}

/// Evaluates an end, converted to UINT.
#[tactic(auto, using(gq_value::specs::ViewLaws::view_laws, crate::proofs::RangeLemmas::uint_end_laws, crate::proofs::RangeLemmas::other_values))]
fn uint_end(operand: &Operand<'_>) -> Result<u64, Halt>
    ensures { Tells pos (end_of number.UInt (valued operand.now)) result }
{
    let end = converted_to(Number::UInt, operand)?;
    match number(&end) {
        Ok(Value::UInt(n)) => Ok(n),
        Ok(Value::Int(_)) => unreachable!(),
        Ok(Value::Bool(_)) | Ok(Value::Text(_)) | Ok(Value::Vertex(_)) => unreachable!(),
        Ok(Value::Tuple(_)) | Ok(Value::Fraction(_)) => unreachable!(),
        Err(halt) => Err(halt),
    }
}
