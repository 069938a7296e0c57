// LIMIT.
ghost use Rattle.gq_rules_meaning.specs.Meanings.{as_number};
ghost use Rattle.gq_eval_operand.specs.Meant.{Tells, itself, valued};
ghost use Rattle.gq_eval_context.specs.Limits.{most_of};

use gq_eval_operand::{Halt, Operand, number};
use gq_value::Value;

/// How many vertices a LIMIT of this value keeps. A negative number counts as 0.
#[tactic(auto, using(gq_value::specs::ViewLaws::view_laws, crate::proofs::LimitLemmas::limit_laws))]
pub fn limit_count(value: &Operand<'_>) -> Result<u64, Halt>
    ensures { Tells itself (most_of (as_number (valued value.now))) result }
{
    match number(value)? {
        Value::Int(x) => Ok(if x < 0 { 0 } else { x as u64 }),
        Value::UInt(n) => Ok(n),
        Value::Bool(_) => unreachable!(),
        Value::Text(_) => unreachable!(),
        Value::Vertex(_) => unreachable!(),
        Value::Tuple(_) => unreachable!(),
        Value::Fraction(_) => unreachable!(),
    }
}
