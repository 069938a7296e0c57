// Digits.
ghost use Rattle.std.specs.Prelude.{◌≡◌, ◌≢◌, ℕ, ◌≤◌, length, IfSome, IfNone};
ghost use Rattle.gq_time.specs.Texts.{digits, three_text};
ghost use Rattle.gq_time.specs.Places.{IsNumber, IsThree};

// The number that a text of digits denotes; the empty text denotes 0.
pub fn number(text: &[u8]) -> Option<u64>
    requires { length text.now ≤ 12 }
    ensures some { IfSome result (IsNumber text.now) }
    ensures none { IfNone result ((n : ℕ) → text.now ≢ digits (length text.now) n) }
{
    let mut number = 0;
    for byte in text {
        if !byte.is_ascii_digit() {
            return None;
        }
        number = number * 10 + u64::from(*byte - b'0');
    }
    Some(number)
}

// Three numbers separated by `mark`, the first of `size` digits and the others of two.
pub fn three(text: &[u8], size: usize, mark: u8) -> Option<(u64, u64, u64)>
    requires { size ≤ 4 }
    ensures some { IfSome result (IsThree text.now size mark) }
    ensures none { IfNone result ((a b c : ℕ) → text.now ≢ three_text size mark a b c) }
{
    if text.len() != size + 6 || text[size] != mark || text[size + 3] != mark {
        return None;
    }
    let first = match number(&text[..size]) {
        Some(first) => first,
        None => return None,
    };
    let second = match number(&text[size + 1..size + 3]) {
        Some(second) => second,
        None => return None,
    };
    match number(&text[size + 4..]) {
        Some(third) => Some((first, second, third)),
        None => None,
    }
}
