// Seconds as dates and times of day.
ghost use Rattle.std.specs.Prelude.{◌≡◌, ◌↔◌, IsTrue};
ghost use Rattle.gq_time.specs.declared.shown.DateTimeParts.{DateTimeParts};
ghost use Rattle.gq_time.specs.Moments.{IsDatetime, IsMoment, HasParts};

use crate::shown::DateTimeParts;
use jiff_core::civil::{Date, DateTime, Time};

// The seconds from -9999-01-01 00:00:00, where jiff's days begin, to 1970-01-01 00:00:00.
const BEFORE_EPOCH: i64 = 377_705_116_800;

/// Whether the seconds are a DATETIME: from 0000-01-01 00:00:00 to 9999-12-31 23:59:59. Takes no memory.
pub fn in_range(seconds: i64) -> bool
    ensures { IsTrue result ↔ IsDatetime seconds }
{
    seconds >= -62_167_219_200 && seconds <= 253_402_300_799
}

/// The parts of a DATETIME. Takes no memory.
pub fn parts(seconds: i64) -> DateTimeParts
    requires { IsDatetime seconds }
    ensures parts { HasParts seconds result }
    ensures only { (other : DateTimeParts) → HasParts seconds other → other ≡ result }
{
    let moment = moment_of(seconds);
    DateTimeParts {
        year: i64::from(moment.date.year),
        month: i64::from(moment.date.month),
        day: i64::from(moment.date.day),
        hour: i64::from(moment.time.hour),
        minute: i64::from(moment.time.minute),
        second: i64::from(moment.time.second),
    }
}

// The date and the time of day of seconds in range.
pub fn moment_of(seconds: i64) -> DateTime
    requires { IsDatetime seconds }
    ensures { IsMoment seconds result }
{
    let since = (seconds + BEFORE_EPOCH) as u64;
    DateTime {
        date: Date::from_days_since_min((since / 86_400) as u32),
        time: Time::from_second((since % 86_400) as u32, 0),
    }
}
