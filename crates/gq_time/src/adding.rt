// Units of time added to seconds.
ghost use Rattle.std.specs.Prelude.{◌≡◌, ◌≤◌, min, ℤ, pos, ◌*ℤ◌, ◌≤ℤ◌, IfSome, IfNone};
ghost use Rattle.jiff_core.specs.Calendar.{IsBetween};
ghost use Rattle.jiff_core.specs.Date.{month_length};
ghost use Rattle.gq_time.specs.Moments.{IsDatetime};
ghost use Rattle.gq_time.specs.Adding.{IsAdded, AreMonthsLater, AreSecondsLater, month_number};

use crate::moment::{in_range, moment_of};
use jiff_core::civil::{Date, DateTime};

/// The units that can be added to a DATETIME.
#[derive(Clone, Copy, Debug, PartialEq, Eq)]
pub enum Unit {
    Year,
    Month,
    Day,
    Hour,
    Minute,
    Second,
}

/// The seconds of the DATETIME that is `n` units later, or earlier if `n` is negative. Takes no memory.
///
/// Months and years keep the time of day and the day of the month, or take the month's last day if it has no such day.
/// None exactly if the result isn't in range.
pub fn add(seconds: i64, n: i64, unit: Unit) -> Option<i64>
    requires { IsDatetime seconds }
    ensures some { IfSome result (IsAdded unit n seconds) }
    ensures only { IfSome result (λ sum. (other : ℤ) → IsAdded unit n seconds other → other ≡ sum) }
    ensures none { IfNone result ((other : ℤ) → ¬ (IsAdded unit n seconds other)) }
    ensures in_range { IfSome result IsDatetime }
{
    match unit {
        Unit::Year => match n.checked_mul(12) {
            Some(months) => add_months(seconds, months),
            None => None,
        },
        Unit::Month => add_months(seconds, n),
        Unit::Day => add_seconds(seconds, n, 86_400),
        Unit::Hour => add_seconds(seconds, n, 3_600),
        Unit::Minute => add_seconds(seconds, n, 60),
        Unit::Second => add_seconds(seconds, n, 1),
    }
}

// Adds `n` units of `size` seconds.
fn add_seconds(seconds: i64, n: i64, size: i64) -> Option<i64>
    requires { IsDatetime seconds }
    ensures some { IfSome result (AreSecondsLater (n *ℤ size) seconds) }
    ensures none { IfNone result ((other : ℤ) → ¬ (AreSecondsLater (n *ℤ size) seconds other)) }
{
    let more = match n.checked_mul(size) {
        Some(more) => more,
        None => return None,
    };
    match seconds.checked_add(more) {
        Some(sum) => if in_range(sum) { Some(sum) } else { None },
        None => None,
    }
}

// Adds `months` months.
fn add_months(seconds: i64, months: i64) -> Option<i64>
    requires { IsDatetime seconds }
    ensures some { IfSome result (AreMonthsLater months seconds) }
    ensures only { IfSome result (λ sum. (other : ℤ) → AreMonthsLater months seconds other → other ≡ sum) }
    ensures none { IfNone result ((other : ℤ) → ¬ (AreMonthsLater months seconds other)) }
    ensures in_range { IfSome result IsDatetime }
{
    let before = moment_of(seconds);
    let to = match month_number(before.date).checked_add(months) {
        Some(to) => to,
        None => return None,
    };
    if to < 1 || to > 120_000 {
        return None;
    }
    let date = day_of_month(to, before.date.day);
    let time = before.time;
    Some(DateTime { date, time }.to_second())
}

// The months up to a date's month, from the year 0 on.
fn month_number(date: Date) -> i64
    ensures { result ≡ month_number date }
{
    i64::from(date.year) * 12 + i64::from(date.month)
}

// This day of the month with this number, or the month's last.
fn day_of_month(number: i64, day: u8) -> Date
    requires number { IsBetween (pos 1) (pos 120_000) number }
    requires day { 1 ≤ day }
    ensures month { month_number result ≡ number }
    ensures day { result.day ≡ min day (month_length result) }
    ensures from_year_0 { pos 0 ≤ℤ result.year }
{
    let before = number - 1;
    Date::constrain((before / 12) as i16, (before % 12 + 1) as u8, day)
}
