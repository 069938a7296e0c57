// Conversions.
ghost use Rattle.gq_value.specs.AccumViews.{base_of};
ghost use Rattle.gq_value.specs.Accums.{INT};
ghost use Rattle.gq_plan_ir.specs.Meanings.{converted_to};
ghost use Rattle.gq_eval_operand.specs.Meant.{valued, number_to, Told, Tells};
ghost use Rattle.gq_plan_ir.specs.Answers.{Gives};
ghost use Rattle.gq_value.specs.Views.{val};

use crate::halt::Halt;
use crate::operand::number;
use crate::seen::Operand;
use gq_value::{BaseType, EvalFault, Number, Value, convert};

/// Converts a number to another number type if one is required, by value; other values stay. Takes no memory.
#[tactic(auto, using(crate::proofs::ConvertLemmas::base_laws))]
pub fn converted<'a>(base: &BaseType, operand: Operand<'a>) -> Result<Operand<'a>, Halt>
    ensures { Tells valued (converted_to (base_of base.now) (valued operand.entry)) result }
{
    match base {
        BaseType::Int => converted_to(Number::Int, &operand),
        BaseType::UInt => converted_to(Number::UInt, &operand),
        BaseType::Bool | BaseType::Text | BaseType::Time => Ok(operand),
        BaseType::AnyVertex | BaseType::VertexOf(_) | BaseType::Tuple(_, _) => Ok(operand),
    }
}

/// A number of this type, by value. Takes no memory.
#[tactic(auto, using(crate::proofs::ConvertLemmas::number_laws))]
pub fn converted_to<'a>(to: Number, operand: &Operand<'_>) -> Result<Operand<'a>, Halt>
    ensures { Tells valued (number_to to (valued operand.now)) result }
{
    let x = number(operand)?;
    made(convert(&x, to))
}

/// The result of an operation, or its fault.
pub fn made<'a>(answer: Result<Value, EvalFault>) -> Result<Operand<'a>, Halt>
    ensures { Told valued Gives answer result }
{
    match answer {
        Ok(value) => Ok(Operand::Made(value)),
        Err(EvalFault::Wrong(wrong)) => Err(Halt::Wrong(wrong)),
        Err(EvalFault::OutOfMemory) => Err(Halt::OutOfMemory),
    }
}
