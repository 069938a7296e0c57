// Functions of one argument.
ghost use Rattle.std.specs.Prelude.{◌≡◌, ◌∷◌, []};
ghost use Rattle.gq_value.specs.Views.{val};
ghost use Rattle.gq_rules_typing.specs.Builtins.{builtin_is};
ghost use Rattle.gq_rules_meaning.specs.Calls.{function_of, text_of};
ghost use Rattle.gq_eval_operand.specs.Meant.{meant, valued, itself, Tells};
ghost use Rattle.gq_eval_builtins.specs.Clock.{ByClock, magnitude_of, spelled};

use crate::times::{datetime_to_epoch, epoch_to_datetime, part_of, to_datetime};
use gq_eval_operand::{Halt, Operand, Seen, Sort, calculated, decimal, number, signed_decimal};
use gq_rules_typing::Builtin;
use gq_value::{Txt, Value, absolute};
use std::alloc::Global;

/// The result of one of the language's own functions for one argument. Takes memory only for texts.
#[tactic(auto, using(crate::proofs::FunctionLemmas::one_laws))]
pub fn one<'a>(alloc: Global, builtin: Builtin, operand: &Operand<'a>) -> Result<Seen<'a>, Halt>
    ensures { ByClock (λ clock. function_of clock (builtin_is builtin) (valued operand.entry.now ∷ [])) result }
{
    match builtin {
        Builtin::Abs => magnitude(operand),
        Builtin::ToString => to_string(alloc, operand),
        Builtin::ToDatetime => to_datetime(operand),
        Builtin::EpochToDatetime => epoch_to_datetime(operand),
        Builtin::DatetimeToEpoch => datetime_to_epoch(operand),
        Builtin::DatetimeDiff | Builtin::DatetimeAdd => Err(Halt::Stuck),
        Builtin::Part(part) => part_of(part, operand),
    }
}

/// The absolute value of a number.
#[tactic(auto, using(crate::proofs::FunctionLemmas::magnitude_laws))]
fn magnitude<'a>(operand: &Operand<'_>) -> Result<Seen<'a>, Halt>
    ensures { Tells meant (magnitude_of (valued operand.now)) result }
{
    let x = number(operand)?;
    calculated(absolute(&x))
}

/// A value as a text; a text is returned as it is, borrowed.
#[tactic(auto, using(gq_value::specs::ViewLaws::view_laws))]
fn to_string<'a>(alloc: Global, operand: &Operand<'a>) -> Result<Seen<'a>, Halt>
    ensures { Tells meant (spelled (valued operand.entry.now)) result }
{
    match operand {
        Operand::Text(text) => Ok(Seen::Value(Sort::Text, Operand::Text(text))),
        Operand::Joined(text) => {
            let copy = Txt::of(alloc, text.as_str())?;
            Ok(Seen::Value(Sort::Text, Operand::Made(Value::Text(copy))))
        }
        Operand::Lent(value) => lent(alloc, value),
        Operand::Made(value) => {
            let text = spell(alloc, value)?;
            Ok(Seen::Value(Sort::Text, Operand::Made(Value::Text(text))))
        }
    }
}

#[tactic(auto, using(gq_value::specs::ViewLaws::view_laws))]
fn lent<'a>(alloc: Global, value: &'a Value) -> Result<Seen<'a>, Halt>
    ensures { Tells meant (spelled (val value.entry.now)) result }
{
    match value {
        Value::Text(_) => Ok(Seen::Value(Sort::Text, Operand::Lent(value))),
        Value::Int(_) | Value::UInt(_) | Value::Bool(_) | Value::Vertex(_) => {
            let text = spell(alloc, value)?;
            Ok(Seen::Value(Sort::Text, Operand::Made(Value::Text(text))))
        }
        Value::Tuple(_) | Value::Fraction(_) => Err(Halt::Stuck),
    }
}

/// The text of a value, as an owned copy.
#[tactic(auto, using(gq_value::specs::ViewLaws::view_laws))]
fn spell(alloc: Global, value: &Value) -> Result<Txt, Halt>
    ensures { Tells itself (text_of (val value.now)) result }
{
    match value {
        Value::Text(text) => Ok(Txt::of(alloc, text.as_str())?),
        Value::Bool(true) => Ok(Txt::of(alloc, "true")?),
        Value::Bool(false) => Ok(Txt::of(alloc, "false")?),
        Value::Int(x) => Ok(signed_decimal(alloc, *x)?),
        Value::UInt(x) => Ok(decimal(alloc, *x)?),
        Value::Vertex(_) | Value::Tuple(_) | Value::Fraction(_) => Err(Halt::Stuck),
    }
}
