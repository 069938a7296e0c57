// What may follow a time of day with `T`.
ghost use Rattle.std.specs.Prelude.{◌≡◌, ◌⊎◌, ◌↔◌, [], IsTrue};
ghost use Rattle.gq_time.specs.Reading.{IsEnd, IsFraction, IsFewDigits};

use crate::numbers::number;

// Whether a text may follow there.
pub fn is_end(text: &[u8]) -> bool
    ensures { IsTrue result ↔ IsEnd text.now }
{
    match text {
        [fraction @ .., b'Z' | b'z'] => is_fraction(fraction),
        _ => is_fraction(text),
    }
}

// Whether a text is empty or a fraction.
fn is_fraction(text: &[u8]) -> bool
    ensures { IsTrue result ↔ ((text.now ≡ []) ⊎ IsFraction text.now) }
{
    match text {
        [] => true,
        [b'.', digits @ ..] => is_few_digits(digits),
        _ => false,
    }
}

// Whether a text is one to nine digits.
fn is_few_digits(text: &[u8]) -> bool
    ensures { IsTrue result ↔ IsFewDigits text.now }
{
    if text.is_empty() || text.len() > 9 {
        return false;
    }
    match number(text) {
        Some(_) => true,
        None => false,
    }
}
