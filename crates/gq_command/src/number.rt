// The numbers that options take.
ghost use Rattle.std.specs.Prelude.{◌≡◌, ◌↔◌, IsTrue, IfSome, EachIndex, slice_index, option_map};
ghost use Rattle.std.specs.Char.{is_ascii_digit};
ghost use Rattle.gq_command.specs.Number.{number_or, number_to};
ghost use Rattle.gq_command.specs.Ranges.{IsUpTo};

/// Returns the value of an option: its default if it isn't given, and None if it isn't a number from 1 to `most`.
pub fn number_or(text: Option<&str>, default: u64, most: u64) -> Option<u64>
    requires { IsUpTo most default }
    ensures number { result ≡ number_or default most (option_map (λ t. t.now) text.entry) }
    ensures range { IfSome result (λ n. IsUpTo most n) }
{
    match text {
        Some(text) => number_to(text, most),
        None => Some(default),
    }
}

/// Returns the number from 1 to `most` that the text is.
pub fn number_to(text: &str, most: u64) -> Option<u64>
    ensures number { result ≡ number_to most text.now }
    ensures range { IfSome result (λ n. IsUpTo most n) }
{
    if text.len() > 10 || !has_only_digits(text) {
        return None;
    }
    match text.parse::<u64>() {
        Ok(number) => {
            if 1 <= number && number <= most {
                Some(number)
            } else {
                None
            }
        }
        Err(_) => None,
    }
}

fn has_only_digits(text: &str) -> bool
    ensures { IsTrue result ↔ EachIndex text.now (λ k. IsTrue (is_ascii_digit (slice_index text.now k))) }
{
    text.as_bytes().iter().all(|byte| byte.is_ascii_digit())
}
