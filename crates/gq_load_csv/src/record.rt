// One record of a file.
ghost use Rattle.std.specs.Prelude.{◌≡◌, [], ◌∷◌, length, slice_get, Some, IfOk, IfSome, if◌then◌else◌};
ghost use Rattle.std.specs.Option.{option_map};
ghost use Rattle.csv.specs.Records.{field_at};
ghost use Rattle.gq_load_csv.specs.Lines.{lines_left, IsPlain};
ghost use Rattle.gq_load_csv.specs.Unread.{unread, Reads};

use crate::lines::{Lines, next_line};
use csv::{ByteRecord, Reader};
use gq_base::OutOfMemory;
use std::alloc::Global;
use std::marker::Model;

/// A record of a file. Contracts see it as the list of its fields, each as its bytes.
#[derive(Drop)]
pub struct Record<'a> {
    /// The fields of a line: borrowed pieces of the file.
    pieces: Vec<&'a [u8]>,
    /// The fields of a record that `csv` split.
    copies: ByteRecord,
    is_line: bool,
}

impl<'a> Model for Record<'a> {
    ghost use Rattle.std.specs.Prelude.{List, ℕ};
    ghost use Rattle.gq_load_csv.specs.Lines.{fields_in};

    ghost Value = { List (List ℕ) };

    ghost view = { λ r. fields_in r.is_line r.pieces.items r.copies };
}

impl<'a> Record<'a> {
    /// Returns a record without fields, which takes no memory.
    pub fn new(alloc: Global) -> Record<'a>
        ensures { result ≡ [] }
    {
        Record {
            pieces: Vec::new(alloc),
            copies: ByteRecord::new(alloc),
            is_line: true,
        }
    }

    /// Returns the number of fields.
    pub fn len(&self) -> usize
        ensures { result ≡ length self.now }
    {
        if self.is_line {
            self.pieces.len()
        } else {
            self.copies.len()
        }
    }

    /// Returns a field by number, counted from 0, if there is one.
    pub fn get(&self, number: usize) -> Option<&[u8]>
        ensures { option_map (λ s. s.now) result ≡ field_at self.now number }
    {
        if self.is_line {
            piece_at(&self.pieces, number)
        } else {
            self.copies.get(number)
        }
    }

    /// The same, borrowed from the file, if the field is a piece of it.
    pub fn lent(&self, number: usize) -> Option<&'a [u8]>
        ensures { IfSome result (λ field. field_at self.now number ≡ Some field.now) }
    {
        if self.is_line {
            piece_at(&self.pieces, number)
        } else {
            None
        }
    }

    /// Reads the next line.
    pub(crate) fn read_line(&mut self, lines: &mut Lines<'a>) -> Result<bool, OutOfMemory>
        requires { IsPlain lines.old.separator lines.old.quote lines.old.rest.now }
        ensures plain { IsPlain lines.new.separator lines.new.quote lines.new.rest.now }
        ensures next { IfOk result (λ found. lines_left lines.old ≡ (if found then self.new ∷ lines_left lines.new else [])) }
    {
        self.is_line = true;
        next_line(lines, &mut self.pieces)
    }

    /// Reads the next record with `csv`.
    pub(crate) fn read_cut(&mut self, reader: &mut Reader<&'a [u8]>) -> Result<bool, OutOfMemory>
        requires { Reads reader.old }
        ensures reads { Reads reader.new }
        ensures next { IfOk result (λ found. unread (λ rest. Some rest.now) reader.old ≡ (if found then self.new ∷ unread (λ rest. Some rest.now) reader.new else [])) }
    {
        self.is_line = false;
        let found = match reader.read_byte_record(&mut self.copies) {
            Ok(found) => found,
            Err(_) => return Err(OutOfMemory),
        };
        Ok(found)
    }
}

/// Returns a piece by number, if there is one.
fn piece_at<'a>(pieces: &[&'a [u8]], number: usize) -> Option<&'a [u8]>
    ensures { result ≡ slice_get pieces.now number }
{
    pieces.get(number).copied()
}
