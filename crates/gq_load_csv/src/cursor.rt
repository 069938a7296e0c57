// Places in a line, from field to field.
ghost use Rattle.std.specs.Prelude.{◌≡◌, ◌≤◌, ◌<◌, ◌+◌, ℕ, List, [], length, take, drop, true, false, IfSome, Some, option_and_then};
ghost use Rattle.csv.specs.Records.{field_at};
ghost use Rattle.std.specs.List.{list_all};
ghost use Rattle.gq_load_csv.specs.Cursors.{is_inner, is_low, IsApart, Stands, Goes, IsField, IsNumber, HasNumber, IsRun, behind_end};
ghost use Rattle.gq_load_csv.specs.Fields as spec;

use crate::numbers::has_leading_zero;
use gq_graph::IdKind;

/// A place in a line, before a field or behind all of them.
#[derive(Clone, Copy)]
pub(crate) struct Cursor<'a> {
    /// The text from the next field on; behind the line, if it is over.
    pub rest: &'a [u8],
    /// The number of the next field.
    pub next: u64,
    /// Whether all fields of the line were passed.
    pub is_over: bool,
}

/// The digits at the beginning of a text, at most 18, and their number.
#[derive(Clone, Copy)]
pub(crate) struct Run {
    pub size: usize,
    pub number: u64,
}

/// The most digits that are read without a range check.
const FEW: usize = 18;

/// Reads an id from a field by number, if the field wasn't passed and is an id in stored form. None says nothing about
/// the field.
#[inline(always)]
pub(crate) fn id_at<'a>(
    separator: u8,
    cursor: &mut Cursor<'a>,
    number: u64,
    kind: IdKind,
) -> Option<&'a str>
    requires { IsApart separator }
    ensures goes { Goes separator cursor.old cursor.new }
    ensures id { IfSome result (λ id. (line : List (List ℕ) × List ℕ) → Stands separator line cursor.old →
        option_and_then (spec.id_in kind) (field_at line.0 number) ≡ Some id.now) }
{
    if !go_to(separator, cursor, number) {
        return None;
    }
    match kind {
        IdKind::Text => text_id(separator, cursor),
        IdKind::Int => number_id(separator, cursor),
        IdKind::UInt => number_id(separator, cursor),
    }
}

/// Reads a field by number, if it wasn't passed and is 1 to 18 digits, and returns their number. None says nothing about
/// the field, which isn't passed.
#[inline(always)]
pub(crate) fn number_at(separator: u8, cursor: &mut Cursor<'_>, number: u64) -> Option<u64>
    requires { IsApart separator }
    ensures goes { Goes separator cursor.old cursor.new }
    ensures number { IfSome result (λ n. (line : List (List ℕ) × List ℕ) → Stands separator line cursor.old → HasNumber (field_at line.0 number) n) }
{
    if !go_to(separator, cursor, number) {
        return None;
    }
    short_number(separator, cursor)
}

/// Passes the fields before that of a number. Returns whether the cursor is there then.
#[inline(always)]
pub(crate) fn go_to(separator: u8, cursor: &mut Cursor<'_>, number: u64) -> bool
    ensures goes { Goes separator cursor.old cursor.new }
    ensures there { result ≡ true → cursor.new.next ≡ number }
    ensures open { result ≡ true → cursor.new.is_over ≡ false }
{
    if cursor.next == number {
        return !cursor.is_over;
    }
    pass_to(separator, cursor, number);
    cursor.next == number && !cursor.is_over
}

/// Passes the fields before that of a number, as far as there are fields.
#[inline(never)]
fn pass_to(separator: u8, cursor: &mut Cursor<'_>, number: u64)
    ensures { Goes separator cursor.old cursor.new }
{
    for _ in cursor.next..number {
        if next_field(separator, cursor).is_none() {
            return;
        }
    }
}

/// Reads the next field, if the line isn't over.
pub(crate) fn next_field<'a>(separator: u8, cursor: &mut Cursor<'a>) -> Option<&'a [u8]>
    ensures goes { Goes separator cursor.old cursor.new }
    ensures field { IfSome result (λ field. IsField separator cursor.old cursor.old.next field.now) }
{
    if cursor.is_over {
        return None;
    }
    let text = cursor.rest;
    let size = field_size(separator, text, false);
    if end_field(separator, cursor, size) {
        Some(&text[..size])
    } else {
        None
    }
}

/// Reads the next field if it is an id that is a text in ASCII. None says nothing about the field.
#[inline(always)]
fn text_id<'a>(separator: u8, cursor: &mut Cursor<'a>) -> Option<&'a str>
    requires open { cursor.old.is_over ≡ false }
    ensures goes { Goes separator cursor.old cursor.new }
    ensures field { IfSome result (λ id. IsField separator cursor.old cursor.old.next id.now) }
    ensures text { IfSome result (λ id. spec.id_in IdKind.Text id.now ≡ Some id.now) }
{
    let text = cursor.rest;
    let size = field_size(separator, text, true);
    if size == 0 || !end_field(separator, cursor, size) {
        return None;
    }
    // ASCII is UTF-8.
    Some(unsafe { str::from_utf8_unchecked(&text[..size]) })
}

/// Reads the next field if it is 1 to 18 digits without a leading zero, which is the shortest text of its number. None
/// says nothing about the field.
#[inline(always)]
fn number_id<'a>(separator: u8, cursor: &mut Cursor<'a>) -> Option<&'a str>
    requires open { cursor.old.is_over ≡ false }
    requires apart { IsApart separator }
    ensures goes { Goes separator cursor.old cursor.new }
    ensures field { IfSome result (λ id. IsField separator cursor.old cursor.old.next id.now) }
    ensures int { IfSome result (λ id. spec.id_in IdKind.Int id.now ≡ Some id.now) }
    ensures uint { IfSome result (λ id. spec.id_in IdKind.UInt id.now ≡ Some id.now) }
{
    let text = cursor.rest;
    let run = run_at(text);
    let field = &text[..run.size];
    if run.size == 0 || has_leading_zero(field) {
        return None;
    }
    if !end_field(separator, cursor, run.size) {
        return None;
    }
    // Digits are ASCII.
    Some(unsafe { str::from_utf8_unchecked(field) })
}

/// Reads the next field if it is 1 to 18 digits, and returns their number. None says nothing about the field, and the
/// cursor is where it was.
#[inline(always)]
fn short_number(separator: u8, cursor: &mut Cursor<'_>) -> Option<u64>
    requires open { cursor.old.is_over ≡ false }
    requires apart { IsApart separator }
    ensures goes { Goes separator cursor.old cursor.new }
    ensures number { IfSome result (IsNumber separator cursor.old) }
{
    let run = run_at(cursor.rest);
    if run.size == 0 || !end_field(separator, cursor, run.size) {
        return None;
    }
    Some(run.number)
}

/// Ends the field that begins at the cursor after `size` bytes, if it ends there. Returns whether it does.
#[inline(always)]
fn end_field(separator: u8, cursor: &mut Cursor<'_>, size: usize) -> bool
    requires open { cursor.old.is_over ≡ false }
    requires within { size ≤ length cursor.old.rest.now }
    requires inner { list_all (is_inner separator) (take size cursor.old.rest.now) ≡ true }
    ensures goes { Goes separator cursor.old cursor.new }
    ensures field { result ≡ true → IsField separator cursor.old cursor.old.next (take size cursor.old.rest.now) }
{
    let text = cursor.rest;
    let next = match cursor.next.checked_add(1) {
        Some(next) => next,
        None => return false,
    };
    if size >= text.len() {
        *cursor = over(next);
        return true;
    }
    let byte = text[size];
    if byte == separator {
        *cursor = behind_byte(text, size, next, false);
        return true;
    }
    if byte == b'\n' {
        *cursor = behind_byte(text, size, next, true);
        return true;
    }
    false
}

/// The cursor behind the last field of a text.
#[inline(always)]
fn over<'a>(next: u64) -> Cursor<'a>
    ensures rest { result.rest.now ≡ [] }
    ensures next { result.next ≡ next }
    ensures over { result.is_over ≡ true }
{
    Cursor {
        rest: &[],
        next,
        is_over: true,
    }
}

/// The cursor behind the byte at a place of a text.
#[inline(always)]
fn behind_byte(text: &[u8], place: usize, next: u64, is_over: bool) -> Cursor<'_>
    requires { place < length text.now }
    ensures rest { result.rest.now ≡ drop (place + 1) text.now }
    ensures next { result.next ≡ next }
    ensures over { result.is_over ≡ is_over }
{
    Cursor {
        rest: &text[place + 1..],
        next,
        is_over,
    }
}

/// The size of the field at the beginning of a text, or of its part before the first byte that isn't ASCII.
#[inline(always)]
fn field_size(separator: u8, text: &[u8], ascii: bool) -> usize
    ensures within { result ≤ length text.now }
    ensures inner { list_all (is_inner separator) (take result text.now) ≡ true }
    ensures ascii { ascii ≡ true → list_all is_low (take result text.now) ≡ true }
{
    for (place, byte) in text.iter().enumerate() {
        if *byte == separator || *byte == b'\n' {
            return place;
        }
        if ascii && *byte >= 128 {
            return place;
        }
    }
    text.len()
}

/// A size, but at most 18.
#[inline(always)]
fn few_of(size: usize) -> usize
    ensures within { result ≤ size }
    ensures few { result ≤ 18 }
{
    if size < FEW { size } else { FEW }
}

/// The digits at the beginning of a text, at most 18.
#[inline(always)]
fn run_at(text: &[u8]) -> Run
    ensures { IsRun text.now result }
{
    let most = few_of(text.len());
    let mut number: u64 = 0;
    for place in 0..most {
        let byte = text[place];
        if !byte.is_ascii_digit() {
            return Run {
                size: place,
                number,
            };
        }
        number = number * 10 + (byte - b'0') as u64;
    }
    Run { size: most, number }
}

/// The text behind the first line end.
pub(crate) fn behind_line(text: &[u8]) -> &[u8]
    ensures { result.now ≡ behind_end text.now }
{
    for (place, byte) in text.iter().enumerate() {
        if *byte == b'\n' {
            return &text[place + 1..];
        }
    }
    &[]
}
