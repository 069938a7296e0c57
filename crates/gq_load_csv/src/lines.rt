// Texts whose records are their lines.
ghost use Rattle.std.specs.Prelude.{◌≡◌, ◌==◌, ◌+◌, ◌≤◌, ℕ, Bool, Option, [], ◌∷◌, ◌++◌, length, take, drop, slice_index_or, true, false, IfOk, if◌then◌else◌, is_none};
ghost use Rattle.std.specs.List.{list_all};
ghost use Rattle.csv.specs.Reading.{records, strip_bom};
ghost use Rattle.gq_load_csv.specs.Lines as spec;
ghost use Rattle.gq_load_csv.specs.Lines.{IsPlain, line_from, lines_left, says};
ghost use Rattle.gq_load_csv.specs.Records.{config_of};

use gq_base::OutOfMemory;
use memchr::{memchr, memchr2};

/// A text in which only the separator and line ends are special. Fields are borrowed pieces of it: `csv` looks up each
/// byte in its tables and copies it one at a time, which takes four times as long.
#[derive(Drop)]
pub(crate) struct Lines<'a> {
    pub rest: &'a [u8],
    pub separator: u8,
    pub quote: Option<u8>,
}

/// Whether a text can be read by lines: it has no quote, no carriage return, and can't begin with a byte order mark.
pub(crate) fn is_plain(separator: u8, quote: Option<u8>, text: &[u8]) -> bool
    ensures plain { result ≡ true → IsPlain separator quote text.now }
    ensures whole { result ≡ true → strip_bom text.now ≡ text.now }
{
    if separator == b'\n' || begins_like_mark(text) {
        return false;
    }
    are_plain(quote, text)
}

fn are_plain(quote: Option<u8>, text: &[u8]) -> bool
    ensures { result ≡ true → list_all (spec.is_plain_byte quote) text.now ≡ true }
{
    match quote {
        Some(quote) => is_nowhere(memchr2(quote, b'\r', text)),
        None => is_nowhere(memchr(b'\r', text)),
    }
}

fn is_nowhere(found: Option<usize>) -> bool
    ensures { result ≡ is_none found }
{
    found.is_none()
}

/// Whether the first byte is that of a byte order mark.
fn begins_like_mark(text: &[u8]) -> bool
    ensures { result ≡ false → strip_bom text.now ≡ text.now }
{
    match text {
        [] => false,
        [first, ..] => *first == 0xEF,
    }
}

/// Reads the fields of the next non-empty line into `fields`, replacing its content. Returns whether there was one.
pub(crate) fn next_line<'a>(
    lines: &mut Lines<'a>,
    fields: &mut Vec<&'a [u8]>,
) -> Result<bool, OutOfMemory>
    requires { IsPlain lines.old.separator lines.old.quote lines.old.rest.now }
    ensures plain { IsPlain lines.new.separator lines.new.quote lines.new.rest.now }
    ensures next { IfOk result (λ found. lines_left lines.old ≡ (if found then says fields.new.items ∷ lines_left lines.new else [])) }
{
    fields.clear();
    let text = behind_ends(lines.rest);
    if text.is_empty() {
        lines.rest = text;
        return Ok(false);
    }
    let size = read_fields(lines.separator, text, fields)?;
    lines.rest = behind(text, size);
    Ok(true)
}

/// Takes the lines in about the first `size` bytes of a text, up to a line end, or all of them if there are no more.
pub(crate) fn cut<'a>(lines: &mut Lines<'a>, size: usize) -> Lines<'a>
    requires { IsPlain lines.old.separator lines.old.quote lines.old.rest.now }
    ensures front { IsPlain result.separator result.quote result.rest.now }
    ensures behind { IsPlain lines.new.separator lines.new.quote lines.new.rest.now }
    ensures all { lines_left lines.old ≡ lines_left result ++ lines_left lines.new }
{
    let text = lines.rest;
    let place = cut_place(text, size);
    lines.rest = &text[place..];
    Lines {
        rest: &text[..place],
        separator: lines.separator,
        quote: lines.quote,
    }
}

/// The first place from `size` on that is behind a line end, or the end of the text.
fn cut_place(text: &[u8], size: usize) -> usize
    ensures within { result ≤ length text.now }
    ensures all { (separator : ℕ) (quote : Option ℕ) → IsPlain separator quote text.now →
        records (config_of separator quote) text.now ≡
        records (config_of separator quote) (take result text.now) ++ records (config_of separator quote) (drop result text.now) }
{
    if size >= text.len() {
        return text.len();
    }
    match memchr(b'\n', &text[size..]) {
        Some(place) => size + place + 1,
        None => text.len(),
    }
}

/// Skips the line ends at the beginning of a text.
#[tactic(auto, using(crate::proofs::LineLemmas::end_before))]
fn behind_ends(text: &[u8]) -> &[u8]
    ensures begins { (slice_index_or result.now 0 0 == 10) ≡ false }
    ensures same { (separator : ℕ) (quote : Option ℕ) → records (config_of separator quote) text.now ≡ records (config_of separator quote) result.now }
    ensures plain { (p : ℕ → Bool) → list_all p text.now ≡ true → list_all p result.now ≡ true }
{
    for (place, byte) in text.iter().enumerate() {
        if *byte != b'\n' {
            return &text[place..];
        }
    }
    &[]
}

/// Returns the text after a line of that size and its line end.
fn behind(text: &[u8], size: usize) -> &[u8]
    requires { size ≤ length text.now }
    ensures { result.now ≡ drop (size + 1) text.now }
{
    if size < text.len() {
        &text[size + 1..]
    } else {
        &[]
    }
}

/// Appends the fields of the first line, and returns its size in bytes without its line end.
fn read_fields<'a>(
    separator: u8,
    text: &'a [u8],
    fields: &mut Vec<&'a [u8]>,
) -> Result<usize, OutOfMemory>
    requires { fields.old.items ≡ [] }
    ensures within { IfOk result (λ size. size ≤ length text.now) }
    ensures line { IfOk result (λ size. line_from separator [] [] text.now ≡ (says fields.new.items, drop (size + 1) text.now)) }
{
    let mut start = 0;
    for (place, byte) in text.iter().enumerate() {
        if *byte == separator {
            fields.push(&text[start..place])?;
            start = place + 1;
        } else if *byte == b'\n' {
            fields.push(&text[start..place])?;
            return Ok(place);
        }
    }
    fields.push(&text[start..])?;
    Ok(text.len())
}
