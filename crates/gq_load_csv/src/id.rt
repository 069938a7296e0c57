// Fields as ids.
ghost use Rattle.std.specs.Prelude.{◌≡◌, [], IfOk, IfSome, Some, None, if◌then◌else◌, string_bytes, option_and_then};
ghost use Rattle.csv.specs.Records.{field_at};
ghost use Rattle.std.specs.Option.{option_map};
ghost use Rattle.std.specs.Fmt.{decimal, signed_decimal};
ghost use Rattle.gq_load_csv.specs.Fields as spec;
ghost use Rattle.gq_load_csv.specs.Texts as texts;

use crate::numbers::{int_in, own_text, uint_in};
use crate::record::Record;
use gq_base::OutOfMemory;
use gq_graph::IdKind;
use gq_time::trimmed;
use itoa::Buffer;
use std::alloc::Global;
use std::marker::Model;

/// An id in stored form: either a borrowed piece of the file that is already the shortest text, or an owned text whose
/// memory is reused. Contracts see its bytes.
#[derive(Drop)]
pub struct Id<'a> {
    piece: Option<&'a str>,
    own: String,
}

impl<'a> Model for Id<'a> {
    ghost use Rattle.std.specs.Prelude.{List, ℕ, string_bytes};
    ghost use Rattle.gq_load_csv.specs.Lines.{id_bytes};

    ghost Value = { List ℕ };

    ghost view = { λ i. id_bytes i.piece (string_bytes i.own) };
}

impl<'a> Id<'a> {
    /// Returns the empty text, which isn't an id yet and takes no memory.
    pub fn new(alloc: Global) -> Id<'a>
        ensures { result ≡ [] }
    {
        Id {
            piece: None,
            own: String::new(alloc),
        }
    }

    /// Returns the text.
    pub fn as_str(&self) -> &str
        ensures { result.now ≡ self.now }
    {
        match self.piece {
            Some(piece) => piece,
            None => self.own.as_str(),
        }
    }

    /// Makes the id a piece of the file, in stored form.
    #[inline(always)]
    pub fn lend(&mut self, piece: &'a str)
        ensures { self.new ≡ piece.now }
    {
        self.piece = Some(piece);
    }

    /// Reads the id from a record's field by number. Returns false if there is no such field or it can't be read; the
    /// id is then unspecified.
    pub fn read(
        &mut self,
        kind: IdKind,
        row: &Record<'a>,
        number: usize,
    ) -> Result<bool, OutOfMemory>
        ensures { IfOk result (λ read. option_and_then (spec.id_in kind) (field_at row.now number) ≡ (if read then Some self.new else None)) }
    {
        if let Some(piece) = row.lent(number) {
            if let Some(own) = own_id(kind, piece) {
                self.piece = Some(own);
                return Ok(true);
            }
        }
        self.piece = None;
        match row.get(number) {
            Some(field) => read_id(&mut self.own, kind, field),
            None => Ok(false),
        }
    }
}

/// Returns the field if it is already an id in stored form. None says nothing about the field.
fn own_id(kind: IdKind, field: &[u8]) -> Option<&str>
    ensures { IfSome result (λ own. spec.id_in kind field.now ≡ Some own.now) }
{
    match kind {
        IdKind::Text => whole_text(field),
        IdKind::Int => own_text(field),
        IdKind::UInt => own_text(field),
    }
}

/// The same for an id that is a text.
fn whole_text(field: &[u8]) -> Option<&str>
    ensures { IfSome result (λ own. spec.id_in IdKind.Text field.now ≡ Some own.now) }
{
    if field.is_empty() {
        return None;
    }
    match str::from_utf8(field) {
        Ok(text) => Some(text),
        Err(_) => None,
    }
}

/// Reads an id from its field into `id`, in stored form: a text, or the shortest text of a number. Returns false if the
/// field can't be read; `id` is then unspecified.
///
/// The old text of `id` is replaced, and its memory is reused.
pub fn read_id(id: &mut String, kind: IdKind, field: &[u8]) -> Result<bool, OutOfMemory>
    ensures { IfOk result (λ read. spec.id_in kind field.now ≡ (if read then Some (string_bytes id.new) else None)) }
{
    id.clear();
    match kind {
        IdKind::Text => {
            if field.is_empty() {
                return Ok(false);
            }
            match str::from_utf8(field) {
                Ok(text) => {
                    id.push_str(text)?;
                    Ok(true)
                }
                Err(_) => Ok(false),
            }
        }
        IdKind::Int => {
            let text = trimmed(field);
            match own_text(text) {
                Some(own) => {
                    id.push_str(own)?;
                    Ok(true)
                }
                None => push_int(id, text),
            }
        }
        IdKind::UInt => {
            let text = trimmed(field);
            match own_text(text) {
                Some(own) => {
                    id.push_str(own)?;
                    Ok(true)
                }
                None => push_uint(id, text),
            }
        }
    }
}

/// Writes the shortest text of an INT into an empty `id`.
fn push_int(id: &mut String, text: &[u8]) -> Result<bool, OutOfMemory>
    requires { string_bytes id.old ≡ [] }
    ensures { IfOk result (λ read. option_map signed_decimal (texts.int_in text.now) ≡ (if read then Some (string_bytes id.new) else None)) }
{
    match int_in(text) {
        Some(number) => {
            id.push_str(Buffer::new().format(number))?;
            Ok(true)
        }
        None => Ok(false),
    }
}

/// Writes the shortest text of a UINT into an empty `id`.
fn push_uint(id: &mut String, text: &[u8]) -> Result<bool, OutOfMemory>
    requires { string_bytes id.old ≡ [] }
    ensures { IfOk result (λ read. option_map decimal (texts.uint_in text.now) ≡ (if read then Some (string_bytes id.new) else None)) }
{
    match uint_in(text) {
        Some(number) => {
            id.push_str(Buffer::new().format(number))?;
            Ok(true)
        }
        None => Ok(false),
    }
}
