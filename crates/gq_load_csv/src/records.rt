// The records of a file.
ghost use Rattle.std.specs.Prelude.{◌≡◌, [], ◌∷◌, ◌++◌, Some, IfOk, IfNone, IfSome, if◌then◌else◌};
ghost use Rattle.gq_load_csv.specs.Lines.{left_in, lines_left, IsOpen, IsPlain};
ghost use Rattle.gq_load_csv.specs.Records.{records_of};
ghost use Rattle.gq_load_csv.specs.Unread.{unread, Reads};

use crate::line::{Line, line_of};
use crate::lines::{Lines, cut, is_plain};
use crate::record::Record;
use csv::{Reader, ReaderBuilder};
use gq_base::OutOfMemory;
use std::alloc::Global;
use std::marker::Model;

/// A file that is read record by record. Contracts see it as the list of the records that are left.
#[derive(Drop)]
pub struct Records<'a> {
    source: Source<'a>,
}

/// Where records come from: a text that is read by lines, or one that `csv` splits.
#[derive(Drop)]
pub(crate) enum Source<'a> {
    Plain(Lines<'a>),
    Any(Reader<&'a [u8]>),
}

impl<'a> Model for Records<'a> {
    ghost use Rattle.std.specs.Prelude.{List, ℕ};
    ghost use Rattle.gq_load_csv.specs.Lines.{left_in, IsOpen};

    ghost Value = { List (List (List ℕ)) };

    ghost view = { λ r. left_in r.source };

    ghost invariant = { λ r. IsOpen r.source };
}

impl<'a> Records<'a> {
    /// Opens a file with these bytes: fields are split at the separator and may be enclosed in the quote, if there is
    /// one.
    pub fn open(alloc: Global, separator: u8, quote: Option<u8>, bytes: &'a [u8]) -> Records<'a>
        ensures { result ≡ records_of separator quote bytes.now }
    {
        let source = if is_plain(separator, quote, bytes) {
            Source::Plain(Lines {
                rest: bytes,
                separator,
                quote,
            })
        } else {
            Source::Any(reader_of(alloc, separator, quote, bytes))
        };
        Records { source }
    }

    /// Reads the next record into `row`, reusing its memory, and returns whether there was one. After `OutOfMemory`
    /// the remaining records are unspecified.
    pub fn next(&mut self, row: &mut Record<'a>) -> Result<bool, OutOfMemory>
        ensures { IfOk result (λ found. self.old ≡ (if found then row.new ∷ self.new else [])) }
    {
        next_of(&mut self.source, row)
    }

    /// How many bytes are left, if the file is read by lines. It says nothing about the records.
    pub fn size(&self) -> Option<usize> {
        match &self.source {
            Source::Plain(lines) => Some(lines.rest.len()),
            Source::Any(_) => None,
        }
    }

    /// Takes the records in about the next `size` bytes, if the file is read by lines. None says nothing about them.
    pub fn cut(&mut self, size: usize) -> Option<Records<'a>>
        ensures some { IfSome result (λ front. self.old ≡ front ++ self.new) }
        ensures none { IfNone result (self.new ≡ self.old) }
    {
        match cut_lines(&mut self.source, size) {
            Some(lines) => Some(Records {
                source: Source::Plain(lines),
            }),
            None => None,
        }
    }

    /// The next record as a line, if the file is read by lines. None says nothing about the records.
    #[inline(always)]
    pub fn line(&self) -> Option<Line<'a>>
        ensures { IfSome result (λ line. self.now ≡ line.fields ∷ line.others) }
    {
        match &self.source {
            Source::Plain(lines) => line_of(lines.separator, lines.quote, lines.rest),
            Source::Any(_) => None,
        }
    }

    /// Goes on behind a line.
    #[inline(always)]
    pub fn go_behind(&mut self, line: Line<'a>)
        ensures { self.new ≡ line.entry.others }
    {
        put_lines(&mut self.source, line.lines_behind());
    }
}

/// Returns a reader of all records of a text.
fn reader_of<'a>(
    alloc: Global,
    separator: u8,
    quote: Option<u8>,
    bytes: &'a [u8],
) -> Reader<&'a [u8]>
    ensures reads { Reads result }
    ensures all { unread (λ rest. Some rest.now) result ≡ records_of separator quote bytes.now }
{
    ReaderBuilder::new()
        .has_headers(false)
        .flexible(true)
        .delimiter(separator)
        .quote(quote.unwrap_or(b'"'))
        .quoting(quote.is_some())
        .from_reader(alloc, bytes)
}

/// Takes the lines in about the next `size` bytes of a source, if it has lines.
fn cut_lines<'a>(source: &mut Source<'a>, size: usize) -> Option<Lines<'a>>
    requires { IsOpen source.old }
    ensures open { IsOpen source.new }
    ensures plain { IfSome result (λ front. IsPlain front.separator front.quote front.rest.now) }
    ensures some { IfSome result (λ front. left_in source.old ≡ lines_left front ++ left_in source.new) }
    ensures none { IfNone result (source.new ≡ source.old) }
{
    match source {
        Source::Plain(lines) => Some(cut(lines, size)),
        Source::Any(_) => None,
    }
}

fn next_of<'a>(source: &mut Source<'a>, row: &mut Record<'a>) -> Result<bool, OutOfMemory>
    requires { IsOpen source.old }
    ensures open { IsOpen source.new }
    ensures next { IfOk result (λ found. left_in source.old ≡ (if found then row.new ∷ left_in source.new else [])) }
{
    match source {
        Source::Plain(lines) => row.read_line(lines),
        Source::Any(reader) => row.read_cut(reader),
    }
}

/// Replaces a source by lines. If it has lines already, they are replaced in place.
#[inline(always)]
fn put_lines<'a>(source: &mut Source<'a>, lines: Lines<'a>)
    ensures { source.new ≡ Source.Plain lines.entry }
{
    match source {
        Source::Plain(old) => *old = lines,
        Source::Any(_) => *source = Source::Plain(lines),
    }
}
