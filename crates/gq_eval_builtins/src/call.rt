// Functions of the language: how many arguments they take, and the one of three.
ghost use Rattle.std.specs.Prelude.{◌∷◌, []};
ghost use Rattle.gq_rules_typing.specs.Words as words;
ghost use Rattle.gq_rules_typing.specs.Builtins.{builtin_is};
ghost use Rattle.gq_rules_meaning.specs.Calls.{function_of as given_by};
ghost use Rattle.gq_eval_operand.specs.Meant.{valued};
ghost use Rattle.gq_eval_builtins.specs.Clock.{ByClock};
ghost use Rattle.gq_eval_builtins.specs.Steps.{Takes};

use crate::times::datetime_add;
use gq_eval_operand::{Halt, Operand, Seen};
use gq_rules_typing::Builtin;

/// How many arguments a function takes. Only `datetime_diff` takes two, and only `datetime_add` three.
#[derive(Clone, Copy)]
pub enum Arity {
    One,
    Two,
    Three,
}

/// How many arguments a function takes.
#[tactic(auto, using(crate::proofs::CallSteps::is_single_laws))]
pub fn arity_of(builtin: Builtin) -> Arity
    ensures { Takes (builtin_is builtin) result }
{
    match builtin {
        Builtin::DatetimeDiff => Arity::Two,
        Builtin::DatetimeAdd => Arity::Three,
        Builtin::Abs | Builtin::ToString | Builtin::ToDatetime => Arity::One,
        Builtin::EpochToDatetime | Builtin::DatetimeToEpoch | Builtin::Part(_) => Arity::One,
    }
}

/// Adds `count` units to a time; consumes the operands.
pub fn units_later<'a>(
    time: Operand<'_>,
    count: Operand<'_>,
    unit: Operand<'_>,
) -> Result<Seen<'a>, Halt>
    ensures { ByClock (λ clock. given_by clock words.DatetimeAdd (valued time.entry ∷ valued count.entry ∷ valued unit.entry ∷ [])) result }
{
    datetime_add(&time, &count, &unit)
}
