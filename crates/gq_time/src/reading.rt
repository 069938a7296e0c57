// Texts read.
ghost use Rattle.std.specs.Prelude.{◌≡◌, ℤ, IfSome, IfNone};
ghost use Rattle.gq_time.specs.Moments.{IsDatetime};
ghost use Rattle.gq_time.specs.Reading.{Reads};

use crate::blanks::trimmed;
use crate::counts::count;
use crate::dates::moment;

/// The seconds of a text, or None exactly if it doesn't read as a DATETIME. Takes no memory.
///
/// A text is a date, `2016-02-29` or `2016/02/29`; a date and a time of day, `2016-02-29 23:59:59`; the same with `T` in
/// place of the blank, and then perhaps a fraction, `.123`, and a `Z` or `z`, neither of which has an effect; or the
/// seconds themselves, `-1`. Blanks and tabs at its ends are dropped.
pub fn read_time(text: &str) -> Option<i64>
    ensures some { IfSome result (Reads text.now) }
    ensures only { IfSome result (λ seconds. (other : ℤ) → Reads text.now other → other ≡ seconds) }
    ensures none { IfNone result ((other : ℤ) → ¬ (Reads text.now other)) }
    ensures in_range { IfSome result IsDatetime }
{
    let text = trimmed(text.as_bytes());
    match moment(text) {
        Some(moment) => Some(moment.to_second()),
        None => count(text),
    }
}
