// The next record of a file that is read by lines.
ghost use Rattle.std.specs.Prelude.{◌≡◌, ◌∷◌, ℕ, ℤ, List, Option, Some, false, IfSome, option_and_then};
ghost use Rattle.csv.specs.Records.{field_at};
ghost use Rattle.gq_load_csv.specs.Fields.{id_in, field_value, key_value};
ghost use Rattle.csv.specs.Reading.{records};
ghost use Rattle.gq_load_csv.specs.Lines.{IsPlain, lines_left};
ghost use Rattle.gq_load_csv.specs.Records.{config_of};
ghost use Rattle.gq_value.specs.declared.value.Value.TheVariants as variant;

use crate::cursor::{Cursor, behind_line, go_to, id_at, next_field, number_at};
use crate::lines::Lines;
use gq_graph::{Attribute, IdKind};
use gq_value::BaseType;
use std::marker::Model;

/// The next record of a file that is read by lines, whose fields are read one after the other. Contracts see the record
/// and the records behind it, whatever was read.
#[derive(Drop)]
pub struct Line<'a> {
    /// The line, and the text behind it.
    lines: Lines<'a>,
    at: Cursor<'a>,
}

impl<'a> Model for Line<'a> {
    ghost use Rattle.gq_load_csv.specs.Cursors.{first_of, IsWithin};
    ghost use Rattle.gq_load_csv.specs.Next.{NextRecord, next_code};

    ghost Value = { NextRecord };

    ghost coded = { next_code };

    ghost view = { λ l. first_of l.lines };

    ghost invariant = { λ l. IsWithin l.lines l.at };
}

/// The first line of a text, if the text begins with one.
#[inline(always)]
pub(crate) fn line_of(separator: u8, quote: Option<u8>, text: &[u8]) -> Option<Line<'_>>
    requires { IsPlain separator quote text.now }
    ensures { IfSome result (λ line. records (config_of separator quote) text.now ≡ line.fields ∷ line.others) }
{
    if separator.is_ascii_digit() {
        return None;
    }
    match text {
        [] => None,
        [first, ..] => {
            if *first == b'\n' {
                return None;
            }
            Some(Line {
                lines: Lines {
                    rest: text,
                    separator,
                    quote,
                },
                at: start_of(text),
            })
        }
    }
}

/// The place before the first field of a line.
#[inline(always)]
fn start_of(text: &[u8]) -> Cursor<'_>
    ensures { result ≡ record { rest = text.entry; next = 0; is_over = false } }
{
    Cursor {
        rest: text,
        next: 0,
        is_over: false,
    }
}

impl<'a> Line<'a> {
    /// Goes back to the first field.
    #[inline(always)]
    pub fn restart(&mut self)
        ensures { self.new ≡ self.old }
    {
        if self.at.next > 0 {
            self.at = start_of(self.lines.rest);
        }
    }

    /// Reads an id from a field by number, if the field wasn't passed and is an id in stored form. None says nothing
    /// about the field.
    #[inline(always)]
    pub fn id(&mut self, number: u64, kind: IdKind) -> Option<&'a str>
        ensures same { self.new ≡ self.old }
        ensures id { IfSome result (λ id. option_and_then (id_in kind) (field_at self.old.fields number) ≡ Some id.now) }
    {
        id_at(self.lines.separator, &mut self.at, number, kind)
    }

    /// Reads an INT attribute, a discriminator or not, from a field by number, if the field wasn't passed and is only a
    /// few digits. None says nothing about the field, which isn't passed.
    #[inline(always)]
    pub fn int(&mut self, number: u64, attribute: &Attribute) -> Option<i64>
        ensures same { self.new ≡ self.old }
        ensures field { IfSome result (λ n. (read : List ℕ → Option ℤ) →
            option_and_then (field_value read attribute.now) (field_at self.old.fields number) ≡ Some (variant.Int n)) }
        ensures key { IfSome result (λ n. (read : List ℕ → Option ℤ) →
            option_and_then (key_value read attribute.now) (field_at self.old.fields number) ≡ Some (variant.Int n)) }
    {
        match &attribute.kind {
            BaseType::Int => match number_at(self.lines.separator, &mut self.at, number) {
                Some(number) => Some(number as i64),
                None => None,
            },
            _ => None,
        }
    }

    /// Returns a field by number, if there is one and it wasn't passed.
    pub fn field(&mut self, number: u64) -> Option<&'a [u8]>
        ensures same { self.new ≡ self.old }
        ensures field { IfSome result (λ field. field_at self.old.fields number ≡ Some field.now) }
    {
        if !go_to(self.lines.separator, &mut self.at, number) {
            return None;
        }
        next_field(self.lines.separator, &mut self.at)
    }

    /// The text behind the line.
    #[inline(always)]
    pub(crate) fn lines_behind(self) -> Lines<'a>
        ensures plain { IsPlain result.separator result.quote result.rest.now }
        ensures left { lines_left result ≡ self.entry.others }
    {
        let rest = if self.at.is_over {
            self.at.rest
        } else {
            behind_line(self.at.rest)
        };
        Lines {
            rest,
            separator: self.lines.separator,
            quote: self.lines.quote,
        }
    }
}
