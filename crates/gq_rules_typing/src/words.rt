// The language's own names: units of time and functions.
ghost use Rattle.std.specs.Prelude.{◌≡◌};
ghost use Rattle.std.specs.Str.{bytes_eq};
ghost use Rattle.std.specs.Option.{option_map};
ghost use Rattle.gq_rules_typing.specs.Words as words;
ghost use Rattle.gq_rules_typing.specs.Builtins as spec;
ghost use Rattle.gq_rules_typing.specs.Builtins.{builtin_is};

use gq_time::Unit;

/// A function of the language's own.
#[derive(Clone, Copy, Debug, PartialEq, Eq)]
pub enum Builtin {
    Abs,
    ToString,
    ToDatetime,
    EpochToDatetime,
    DatetimeToEpoch,
    DatetimeDiff,
    DatetimeAdd,

    /// `year` to `second`: a part of a DATETIME.
    Part(Unit),
}

/// The language's own function of a name, which is case-sensitive.
pub fn builtin_named(name: &str) -> Option<Builtin>
    ensures { option_map builtin_is result ≡ words.under bytes_eq name.now words.functions }
{
    if "abs" == name {
        Some(Builtin::Abs)
    } else if "to_string" == name {
        Some(Builtin::ToString)
    } else if "to_datetime" == name {
        Some(Builtin::ToDatetime)
    } else if "epoch_to_datetime" == name {
        Some(Builtin::EpochToDatetime)
    } else if "datetime_to_epoch" == name {
        Some(Builtin::DatetimeToEpoch)
    } else if "datetime_diff" == name {
        Some(Builtin::DatetimeDiff)
    } else if "datetime_add" == name {
        Some(Builtin::DatetimeAdd)
    } else {
        part_named(name)
    }
}

fn part_named(name: &str) -> Option<Builtin>
    ensures { option_map builtin_is result ≡ words.under bytes_eq name.now spec.part_functions }
{
    if "year" == name {
        Some(Builtin::Part(Unit::Year))
    } else if "month" == name {
        Some(Builtin::Part(Unit::Month))
    } else if "day" == name {
        Some(Builtin::Part(Unit::Day))
    } else if "hour" == name {
        Some(Builtin::Part(Unit::Hour))
    } else if "minute" == name {
        Some(Builtin::Part(Unit::Minute))
    } else if "second" == name {
        Some(Builtin::Part(Unit::Second))
    } else {
        None
    }
}

/// A unit of time by its text, in any case.
pub fn unit_named(text: &str) -> Option<Unit>
    ensures { result ≡ words.unit_named text.now }
{
    if "YEAR".eq_ignore_ascii_case(text) {
        Some(Unit::Year)
    } else if "MONTH".eq_ignore_ascii_case(text) {
        Some(Unit::Month)
    } else if "DAY".eq_ignore_ascii_case(text) {
        Some(Unit::Day)
    } else if "HOUR".eq_ignore_ascii_case(text) {
        Some(Unit::Hour)
    } else if "MINUTE".eq_ignore_ascii_case(text) {
        Some(Unit::Minute)
    } else if "SECOND".eq_ignore_ascii_case(text) {
        Some(Unit::Second)
    } else {
        None
    }
}
