// Moments that a text shows.
ghost use Rattle.std.specs.Prelude.{◌≡◌, ◌≢◌, ◌++◌, ◌≤ℤ◌, pos, IfSome, IfNone};
ghost use Rattle.jiff_core.specs.declared.civil.date.Date.{Date};
ghost use Rattle.jiff_core.specs.declared.civil.time.Time.{Time};
ghost use Rattle.jiff_core.specs.declared.civil.datetime.DateTime.{DateTime};
ghost use Rattle.gq_time.specs.Texts.{date_text, clock_text};
ghost use Rattle.gq_time.specs.Reading.{TellsTime, TellsMoment};
ghost use Rattle.gq_time.specs.Places.{ShowsDate, ShowsAnyDate, ShowsClockWithEnd};

use crate::ends::is_end;
use crate::numbers::three;
use jiff_core::civil::{Date, DateTime, Time};

// The date and the time of day that a text shows.
pub fn moment(text: &[u8]) -> Option<DateTime>
    ensures some { IfSome result (TellsMoment text.now) }
    ensures none { IfNone result ((moment : DateTime) → ¬ (TellsMoment text.now moment)) }
{
    if text.len() < 10 {
        return None;
    }
    let date = match any_date(&text[..10]) {
        Some(date) => date,
        None => return None,
    };
    match time(&text[10..]) {
        Some(time) => Some(DateTime { date, time }),
        None => None,
    }
}

// The date that a text shows, with `-` or with `/`.
fn any_date(text: &[u8]) -> Option<Date>
    ensures some { IfSome result (ShowsAnyDate text.now) }
    ensures none { IfNone result ((date : Date) → ¬ (ShowsAnyDate text.now date)) }
{
    match date(text, b'-') {
        Some(date) => Some(date),
        None => date(text, b'/'),
    }
}

// The date that a text shows, with this mark between year, month and day.
fn date(text: &[u8], mark: u8) -> Option<Date>
    ensures some { IfSome result (ShowsDate text.now mark) }
    ensures none { IfNone result ((date : Date) → ¬ (ShowsDate text.now mark date)) }
{
    let (year, month, day) = match three(text, 4, mark) {
        Some(parts) => parts,
        None => return None,
    };
    match Date::new(year as i16, month as i8, day as i8) {
        Ok(date) => Some(date),
        Err(_) => None,
    }
}

// The time of day in the text after a date; an empty text is midnight.
fn time(text: &[u8]) -> Option<Time>
    ensures some { IfSome result (TellsTime text.now) }
    ensures none { IfNone result ((time : Time) → ¬ (TellsTime text.now time)) }
{
    match text {
        [] => Some(Time::MIN),
        [b' ', rest @ ..] => clock(rest),
        [b'T', rest @ ..] => clock_with_end(rest),
        _ => None,
    }
}

// The time of day that a text shows, with whatever may follow it.
fn clock_with_end(text: &[u8]) -> Option<Time>
    ensures some { IfSome result (ShowsClockWithEnd text.now) }
    ensures none { IfNone result ((time : Time) → ¬ (ShowsClockWithEnd text.now time)) }
{
    if text.len() < 8 || !is_end(&text[8..]) {
        return None;
    }
    clock(&text[..8])
}

// The time of day that a text shows.
fn clock(text: &[u8]) -> Option<Time>
    ensures some { IfSome result (λ time. text.now ≡ clock_text time) }
    ensures none { IfNone result ((time : Time) → text.now ≢ clock_text time) }
{
    let (hour, minute, second) = match three(text, 2, b':') {
        Some(parts) => parts,
        None => return None,
    };
    match Time::new(hour as i8, minute as i8, second as i8, 0) {
        Ok(time) => Some(time),
        Err(_) => None,
    }
}
