// Times.
ghost use Rattle.std.specs.Prelude.{◌≡◌, ◌%◌, IfOk};
ghost use Rattle.gq_time.specs.Moments.{IsDatetime};
ghost use Rattle.gq_rules_calendar.specs.Days.{since_year_0};
ghost use Rattle.gq_rules_calendar.specs.Gregorian.{gregorian};
ghost use Rattle.gq_output.specs.Printed.{time_shown};

use gq_base::OutOfMemory;
use gq_json::Out;
use gq_time::write_time;
use std::alloc::Global;

/// The first second of the year 0.
const FIRST: i64 = -62_167_219_200;

/// The number of seconds in 10,000 years.
const CYCLE: u64 = 315_569_520_000;

/// Returns the text of a DATETIME. One beyond the calendar has a text by the definitions, too.
pub(crate) fn shown_time(alloc: Global, seconds: i64) -> Result<Out, OutOfMemory>
    ensures { IfOk result (λ out. out ≡ time_shown gregorian seconds) }
{
    let text = write_time(alloc, within_calendar(seconds))?;
    Ok(Out::Text(text))
}

/// Returns the DATETIME that has the same text: years are written with four digits, so texts repeat after 10,000 years.
fn within_calendar(seconds: i64) -> i64
    ensures within { IsDatetime result }
    ensures same { since_year_0 result ≡ since_year_0 seconds % 315569520000 }
{
    let since = seconds.abs_diff(FIRST) % CYCLE;
    FIRST + since as i64
}
