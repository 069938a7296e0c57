// Signed numbers as words, with the same order.
ghost use Rattle.std.specs.Prelude.{◌≡◌, ◌<◌, ◌<ℤ◌, ◌↔◌, ℕ, ℤ};
ghost use Rattle.gq_words.specs.Shift.{IsShifted};

const HALF: i128 = 1 << 63;

/// Returns the word for a signed number: 2^63 more. Greater numbers have greater words, so max and min work for both.
pub fn shift(x: i64) -> u64
    ensures shifted { IsShifted x result }
    ensures order { (y : ℤ) (word : ℕ) → IsShifted y word → (x <ℤ y) ↔ (result < word) }
{
    (x as i128 + HALF) as u64
}

/// Returns the signed number of a word: 2^63 less.
pub fn unshift(word: u64) -> i64
    ensures shifted { IsShifted result word }

    // After `shift`, it is the number that was shifted.
    ensures undone { (x : ℤ) → IsShifted x word → result ≡ x }
{
    (word as i128 - HALF) as i64
}
