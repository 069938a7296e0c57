// Times.
ghost use Rattle.std.specs.Prelude.{◌≡◌, ◌∷◌, [], IfOk, IfSome};
ghost use Rattle.gq_value.specs.Views.{val};
ghost use Rattle.gq_value.specs.Typed.{in_calendar};
ghost use Rattle.gq_time.specs.Moments.{IsDatetime};
ghost use Rattle.gq_rules_typing.specs.Words as words;
ghost use Rattle.gq_rules_typing.specs.Builtins.{part_is};
ghost use Rattle.gq_rules_meaning.specs.Meanings.{as_int, as_time, at_time, if_in_calendar};
ghost use Rattle.gq_rules_meaning.specs.Calls.{function_of};
ghost use Rattle.gq_eval_operand.specs.Meant.{meant, valued, itself, Tells};
ghost use Rattle.gq_eval_builtins.specs.Clock.{ByClock, part_among, time_of_epoch, later};

use gq_eval_operand::{Halt, Operand, Seen, Sort, held, numbered, text};
use gq_rules_typing::unit_named;
use gq_time::{DateTimeParts, Unit, add, parts, read_time};
use gq_value::{Value, Wrong};

/// The seconds of a DATETIME.
pub(crate) fn seconds(operand: &Operand<'_>) -> Result<i64, Halt>
    ensures told { Tells itself (as_time (valued operand.now)) result }
    ensures range { IfOk result IsDatetime }
{
    match held(operand) {
        Some(value) => seconds_of(value),
        None => Err(Halt::Stuck),
    }
}

#[tactic(auto, using(gq_value::specs::ViewLaws::view_laws))]
fn seconds_of(value: &Value) -> Result<i64, Halt>
    ensures told { Tells itself (as_time (val value.now)) result }
    ensures range { IfOk result IsDatetime }
{
    match value {
        Value::Int(x) => match if_in_calendar(*x) {
            Some(x) => Ok(x),
            None => Err(Halt::Stuck),
        },
        Value::UInt(_) | Value::Bool(_) | Value::Text(_) | Value::Vertex(_) => Err(Halt::Stuck),
        Value::Tuple(_) | Value::Fraction(_) => Err(Halt::Stuck),
    }
}

/// An INT.
fn int(operand: &Operand<'_>) -> Result<i64, Halt>
    ensures { Tells itself (as_int (valued operand.now)) result }
{
    match held(operand) {
        Some(value) => int_of(value),
        None => Err(Halt::Stuck),
    }
}

#[tactic(auto, using(gq_value::specs::ViewLaws::view_laws))]
fn int_of(value: &Value) -> Result<i64, Halt>
    ensures { Tells itself (as_int (val value.now)) result }
{
    match value {
        Value::Int(x) => Ok(*x),
        Value::UInt(_) | Value::Bool(_) | Value::Text(_) | Value::Vertex(_) => Err(Halt::Stuck),
        Value::Tuple(_) | Value::Fraction(_) => Err(Halt::Stuck),
    }
}

/// A DATETIME of these seconds, or Range if there is none.
#[tactic(auto, using(gq_value::specs::ViewLaws::view_laws))]
fn time<'a>(seconds: Option<i64>) -> Result<Seen<'a>, Halt>
    ensures { Tells meant (at_time seconds) result }
{
    match seconds {
        None => Err(Halt::Wrong(Wrong::Range)),
        Some(x) => Ok(Seen::Value(Sort::Time, Operand::Made(Value::Int(x)))),
    }
}

/// Whether the seconds are a DATETIME.
fn in_calendar(seconds: i64) -> bool
    ensures { result ≡ in_calendar seconds }
{
    seconds >= -62_167_219_200 && seconds <= 253_402_300_799
}

/// The seconds, if they are a DATETIME.
#[tactic(auto, using(crate::proofs::TimeLemmas::is_datetime))]
fn if_in_calendar(seconds: i64) -> Option<i64>
    ensures same { result ≡ if_in_calendar seconds }
    ensures range { IfSome result IsDatetime }
{
    if in_calendar(seconds) {
        Some(seconds)
    } else {
        None
    }
}

/// The DATETIME that a text reads as.
#[tactic(auto, using(crate::proofs::TimeLemmas::read_laws))]
pub(crate) fn to_datetime<'a>(operand: &Operand<'_>) -> Result<Seen<'a>, Halt>
    ensures { ByClock (λ clock. function_of clock words.ToDatetime (valued operand.now ∷ [])) result }
{
    match text(operand) {
        None => Err(Halt::Stuck),
        Some(text) => time(read_time(text)),
    }
}

/// The DATETIME of a number of seconds.
pub(crate) fn epoch_to_datetime<'a>(operand: &Operand<'_>) -> Result<Seen<'a>, Halt>
    ensures { ByClock (λ clock. function_of clock words.EpochToDatetime (valued operand.now ∷ [])) result }
{
    match held(operand) {
        Some(value) => time_of(value),
        None => Err(Halt::Stuck),
    }
}

/// A whole number past the greatest INT isn't a DATETIME.
#[tactic(auto, using(gq_value::specs::ViewLaws::view_laws, crate::proofs::TimeLemmas::past_int))]
fn time_of<'a>(value: &Value) -> Result<Seen<'a>, Halt>
    ensures { Tells meant (time_of_epoch (val value.now)) result }
{
    match value {
        Value::Int(x) => time(if_in_calendar(*x)),
        Value::UInt(x) => match i64::try_from(*x) {
            Ok(x) => time(if_in_calendar(x)),
            Err(_) => Err(Halt::Wrong(Wrong::Range)),
        },
        Value::Bool(_) | Value::Text(_) | Value::Vertex(_) => Err(Halt::Stuck),
        Value::Tuple(_) | Value::Fraction(_) => Err(Halt::Stuck),
    }
}

/// The seconds of a DATETIME.
#[tactic(auto, using(crate::proofs::TimeLemmas::epoch_laws))]
pub(crate) fn datetime_to_epoch<'a>(operand: &Operand<'_>) -> Result<Seen<'a>, Halt>
    ensures { ByClock (λ clock. function_of clock words.DatetimeToEpoch (valued operand.now ∷ [])) result }
{
    let x = seconds(operand)?;
    Ok(numbered(Operand::Made(Value::Int(x))))
}

/// The seconds from the second DATETIME to the first.
#[tactic(auto, using(crate::proofs::TimeLemmas::diff_laws))]
pub fn datetime_diff<'a>(left: &Operand<'_>, right: &Operand<'_>) -> Result<Seen<'a>, Halt>
    ensures { ByClock (λ clock. function_of clock words.DatetimeDiff (valued left.now ∷ valued right.now ∷ [])) result }
{
    let x = seconds(left)?;
    let y = seconds(right)?;
    Ok(numbered(Operand::Made(Value::Int(x - y))))
}

/// The DATETIME that is a number of units later.
#[tactic(auto, using(crate::proofs::TimeLemmas::add_laws))]
pub fn datetime_add<'a>(
    time: &Operand<'_>,
    count: &Operand<'_>,
    unit: &Operand<'_>,
) -> Result<Seen<'a>, Halt>
    ensures { ByClock (λ clock. function_of clock words.DatetimeAdd (valued time.now ∷ valued count.now ∷ valued unit.now ∷ [])) result }
{
    let x = seconds(time)?;
    let n = int(count)?;
    let unit = match text(unit) {
        Some(unit) => unit,
        None => return Err(Halt::Stuck),
    };
    later(x, n, unit)
}

/// Adds `n` units to these seconds.
#[tactic(auto, using(crate::proofs::TimeLemmas::add_laws))]
fn later<'a>(x: i64, n: i64, unit: &str) -> Result<Seen<'a>, Halt>
    requires { IsDatetime x }
    ensures { ByClock (λ clock. later clock unit.now n x) result }
{
    match unit_named(unit) {
        None => Err(Halt::Stuck),
        Some(unit) => time(add(x, n, unit)),
    }
}

/// A part of a DATETIME.
#[tactic(auto, using(crate::proofs::TimeLemmas::part_laws))]
pub(crate) fn part_of<'a>(part: Unit, operand: &Operand<'_>) -> Result<Seen<'a>, Halt>
    ensures { ByClock (λ clock. function_of clock (words.PartOf (part_is part)) (valued operand.now ∷ [])) result }
{
    let x = seconds(operand)?;
    let x = part_in(part, parts(x));
    Ok(numbered(Operand::Made(Value::Int(x))))
}

fn part_in(part: Unit, parts: DateTimeParts) -> i64
    ensures { result ≡ part_among (part_is part) parts }
{
    match part {
        Unit::Year => parts.year,
        Unit::Month => parts.month,
        Unit::Day => parts.day,
        Unit::Hour => parts.hour,
        Unit::Minute => parts.minute,
        Unit::Second => parts.second,
    }
}
