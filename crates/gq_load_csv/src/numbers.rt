// Texts as numbers and truth values.
ghost use Rattle.std.specs.Prelude.{◌≡◌, IfSome};
ghost use Rattle.std.specs.Str.{str_eq_ignore_ascii_case};
ghost use Rattle.gq_load_csv.specs.Digits.{IsShort, IsOwn, has_leading_zero};
ghost use Rattle.gq_load_csv.specs.Texts.{int_in, uint_in, truth_in};

/// The most digits that are read without a range check: any number of at most this many digits is an INT and a UINT.
const FEW: usize = 18;

/// Parses an INT.
pub(crate) fn int_in(text: &[u8]) -> Option<i64>
    ensures { result ≡ int_in text.now }
{
    match few_digits(text) {
        Some(number) => Some(number as i64),
        None => parsed_int(text),
    }
}

/// Parses a UINT.
pub(crate) fn uint_in(text: &[u8]) -> Option<u64>
    ensures { result ≡ uint_in text.now }
{
    match few_digits(text) {
        Some(number) => Some(number),
        None => parsed_uint(text),
    }
}

/// Returns the number of a text of 1 to 18 digits. None says nothing about the text.
pub(crate) fn few_digits(text: &[u8]) -> Option<u64>
    ensures { IfSome result (IsShort text.now) }
{
    if text.is_empty() || text.len() > FEW {
        return None;
    }
    let mut number: u64 = 0;
    for byte in text {
        if !byte.is_ascii_digit() {
            return None;
        }
        number = number * 10 + (*byte - b'0') as u64;
    }
    Some(number)
}

/// Returns the text if it is 1 to 18 digits without a leading zero, which is the shortest text of its number. None says
/// nothing about the text.
pub(crate) fn own_text(text: &[u8]) -> Option<&str>
    ensures { IfSome result (λ own. (own.now ≡ text.now) × IsOwn text.now) }
{
    if has_leading_zero(text) {
        return None;
    }
    match few_digits(text) {
        // Digits are ASCII.
        Some(_) => Some(unsafe { str::from_utf8_unchecked(text) }),
        None => None,
    }
}

/// Whether a zero comes before other bytes.
pub(crate) fn has_leading_zero(text: &[u8]) -> bool
    ensures { result ≡ has_leading_zero text.now }
{
    text.len() > 1 && text[0] == b'0'
}

fn parsed_int(text: &[u8]) -> Option<i64>
    ensures { result ≡ int_in text.now }
{
    match str::from_utf8(text) {
        Ok(text) => match text.parse::<i64>() {
            Ok(number) => Some(number),
            Err(_) => None,
        },
        Err(_) => None,
    }
}

fn parsed_uint(text: &[u8]) -> Option<u64>
    ensures { result ≡ uint_in text.now }
{
    match str::from_utf8(text) {
        Ok(text) => match text.parse::<u64>() {
            Ok(number) => Some(number),
            Err(_) => None,
        },
        Err(_) => None,
    }
}

/// Parses a BOOL.
#[tactic(auto, unfolding(crate::specs::Texts::truth_in))]
pub(crate) fn truth_in(text: &[u8]) -> Option<bool>
    ensures { result ≡ truth_in text.now }
{
    if is_word(text, b"true") || text == b"1".as_slice() {
        Some(true)
    } else if is_word(text, b"false") || text == b"0".as_slice() {
        Some(false)
    } else {
        None
    }
}

/// Whether a text is the word, ignoring case.
fn is_word(text: &[u8], word: &[u8]) -> bool
    ensures { result ≡ str_eq_ignore_ascii_case text.now word.now }
{
    text.eq_ignore_ascii_case(word)
}
