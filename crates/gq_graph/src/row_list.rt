// Rows of values.
ghost use Rattle.std.specs.Prelude.{◌≡◌, ◌<◌, ◌++◌, [], ◌∷◌, length, slice_index_or, slice_set, take, vec_len, vec_capacity, IfOk, OnOk, OnErr};

use crate::row_values::{append, write};
use crate::spans::Spans;
use gq_base::OutOfMemory;
use gq_value::{Row, Value};
use std::alloc::Global;
use std::marker::Model;

/// Rows of values, by number. Contracts see them as a list of rows.
#[derive(Drop)]
pub struct Rows {
    spans: Spans,
    values: Vec<Value>,
}

impl Model for Rows {
    ghost use Rattle.std.specs.Prelude.{List, length};
    ghost use Rattle.std.specs.Coded.{codes};
    ghost use Rattle.gq_value.specs.contracts.value.Value as value;
    ghost use Rattle.gq_value.specs.declared.value.Value.{Value as Item};
    ghost use Rattle.gq_graph.specs.Spans.{rows_of, AreApart};

    ghost Value = { List (List Item) };

    ghost coded = { Prim.hlevel (codes, value.the_row.coded) };

    ghost view = { λ r. rows_of r.spans r.values.items };

    ghost invariant = { λ r. AreApart r.spans (length r.values.items) };
}

impl Rows {
    /// No rows, which take no memory.
    pub fn new(alloc: Global) -> Rows
        ensures { result ≡ [] }
    {
        Rows {
            spans: Spans::new(alloc),
            values: Vec::new(alloc),
        }
    }

    /// The values of a row.
    pub fn at(&self, number: u32) -> &[Value]
        requires { number < length self.now }
        ensures { result.now ≡ slice_index_or self.now number [] }
    {
        let span = self.spans.at(number as usize);
        let start = span.start as usize;
        &self.values[start..start + span.len as usize]
    }

    /// Appends a row, whose values are moved. Unchanged after OutOfMemory.
    pub fn push(&mut self, row: &mut Row) -> Result<(), OutOfMemory>
        ensures ok { OnOk result (self.new ≡ self.old ++ row.old ∷ []) }
        ensures err { OnErr result (self.new ≡ self.old) }
    {
        let start = self.values.len();
        let span = append(&mut self.values, row)?;
        match self.spans.push(span) {
            Ok(()) => Ok(()),
            Err(OutOfMemory) => {
                self.values.truncate(start);
                Err(OutOfMemory)
            }
        }
    }

    /// Replaces a row; the values of the new one are moved. It takes no memory if both have as many values. Unchanged
    /// after OutOfMemory.
    pub fn set(&mut self, number: u32, row: &mut Row) -> Result<(), OutOfMemory>
        requires { number < length self.old }
        ensures ok { OnOk result (self.new ≡ slice_set self.old number row.old) }
        ensures err { OnErr result (self.new ≡ self.old) }
    {
        let span = self.spans.at(number as usize);
        if span.len as usize == row.len() {
            write(&mut self.values, span.start as usize, row);
            return Ok(());
        }
        let start = self.values.len();
        let span = append(&mut self.values, row)?;
        match self.spans.set(number as usize, span) {
            Ok(()) => Ok(()),
            Err(OutOfMemory) => {
                self.values.truncate(start);
                Err(OutOfMemory)
            }
        }
    }

    /// Keeps the first `len` rows, or all if there are fewer. The memory of the removed values isn't reused.
    pub fn truncate(&mut self, len: usize)
        ensures { self.new ≡ take len self.old }
    {
        self.spans.truncate(len);
    }

    /// A deep copy of the rows.
    pub fn duplicate(&self, alloc: Global) -> Result<Rows, OutOfMemory>
        ensures { IfOk result (λ copy. copy ≡ self.now) }
    {
        Ok(Rows {
            spans: self.spans.duplicate(alloc)?,
            values: copied(alloc, &self.values)?,
        })
    }
}

fn copied(alloc: Global, values: &[Value]) -> Result<Vec<Value>, OutOfMemory>
    ensures { IfOk result (λ copy. copy.items ≡ values.now) }
{
    let mut copy = Vec::with_capacity(alloc, values.len())?;
    for value in values {
        copy.push(value.duplicate(alloc)?)?;
    }
    Ok(copy)
}
