// Counts of seconds.
ghost use Rattle.std.specs.Prelude.{◌≡◌, ℤ, IfSome, IfNone};
ghost use Rattle.gq_time.specs.Reading.{TellsCount, IsCount};

use crate::moment::in_range;
use crate::numbers::number;

// The seconds that a text counts.
pub fn count(text: &[u8]) -> Option<i64>
    ensures some { IfSome result (TellsCount text.now) }
    ensures none { IfNone result ((seconds : ℤ) → ¬ (TellsCount text.now seconds)) }
{
    match text {
        [b'-', digits @ ..] => counted(digits, true),
        _ => counted(text, false),
    }
}

// The seconds that digits count, negated if `negative`.
fn counted(text: &[u8], negative: bool) -> Option<i64>
    ensures some { IfSome result (IsCount negative text.now) }
    ensures none { IfNone result ((seconds : ℤ) → ¬ (IsCount negative text.now seconds)) }
{
    if text.is_empty() || text.len() > 12 {
        return None;
    }
    let size = match number(text) {
        Some(number) => number as i64,
        None => return None,
    };
    let seconds = if negative { -size } else { size };
    if in_range(seconds) {
        Some(seconds)
    } else {
        None
    }
}
