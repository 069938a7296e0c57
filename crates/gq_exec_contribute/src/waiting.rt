// Inputs that wait to be fed.
ghost use Rattle.std.specs.Prelude.{◌≡◌, ◌<◌, ◌≤◌, ◌++◌, ◌∷◌, [], length, slice_get, take, Some, IfOk, OnOk, OnErr};
ghost use Rattle.gq_exec_contribute.specs.Waiting.{IsPacked, own, rows_needed, unpacked};

use crate::cells::touch_target;
use crate::rows::Ints;
use crate::scalars::ScalarInput;
use gq_base::{List, OutOfMemory, narrow};
use gq_frame::Accums;
use std::alloc::Global;
use std::marker::Model;

/// An input whose row of INTs, if it has one, is kept apart.
#[derive(Clone, Copy)]
pub(crate) enum PackedInput {
    Int(i64),
    Truth(bool),

    /// An INT of a set, a bag or a list.
    Element(i64),

    /// The place of the fields.
    Tuple(u32),

    /// The number of keys, and the place of keys and parts.
    Keyed(u32, u32),
}

/// An input whose row is borrowed, to be fed without a copy of it.
#[derive(Clone, Copy)]
pub(crate) enum LentInput<'w> {
    Int(i64),
    Truth(bool),
    Element(i64),
    Tuple(&'w Ints),
    Keyed(usize, &'w Ints),
}

// Hundreds of thousands of inputs may wait, and most are one INT.
const _: () = prove!(size_of::<(u64, PackedInput)>() <= 24);

/// Inputs that wait to be fed, in order, each with the number of its target. Contracts see their list.
///
/// An INT takes 24 bytes. The row of a tuple, or of keys with parts, takes 56 more.
#[derive(Drop)]
pub struct WaitingInputs {
    heads: List<(u64, PackedInput)>,
    rows: List<Ints>,
}

impl Model for WaitingInputs {
    ghost use Rattle.std.specs.Prelude.{List, ℕ, length};
    ghost use Rattle.std.specs.Coded.{codes};
    ghost use Rattle.gq_exec_contribute.specs.contracts.scalars.ScalarInput as input;
    ghost use Rattle.gq_exec_contribute.specs.declared.scalars.ScalarInput.{ScalarInput};
    ghost use Rattle.gq_exec_contribute.specs.Waiting.{ArePlaced, inputs_of};

    ghost Value = { List (ℕ × ScalarInput) };

    ghost coded = { Prim.hlevel (codes, input.the_row.coded) };

    ghost view = { λ w. inputs_of w.heads w.rows };

    ghost invariant = { λ w. ArePlaced w.heads (length w.rows) };
}

impl WaitingInputs {
    /// No inputs, which take no memory.
    pub fn new(alloc: Global) -> WaitingInputs
        ensures { result ≡ [] }
    {
        WaitingInputs {
            heads: List::new(alloc),
            rows: List::new(alloc),
        }
    }

    /// The number of inputs.
    pub fn len(&self) -> usize
        ensures { result ≡ length self.now }
    {
        self.heads.len()
    }

    /// An input with the number of its target.
    pub fn at(&self, place: usize) -> (u64, ScalarInput)
        requires { place < length self.now }
        ensures { slice_get self.now place ≡ Some result }
    {
        let (target, input) = self.lent_at(place);
        (target, owned(input))
    }

    /// The same, with a borrowed row.
    pub(crate) fn lent_at(&self, place: usize) -> (u64, LentInput<'_>)
        requires { place < length self.now }
        ensures { slice_get self.now place ≡ Some (result.0, own result.1) }
    {
        let (target, packed) = *self.heads.at(place);
        (target, lend(packed, self.rows.as_slice()))
    }

    /// Reads the contents at the targets, so that they are in the cache afterwards.
    pub(crate) fn touched(&self, accums: &Accums) -> u64 {
        let mut sum = 0u64;
        for head in self.heads.as_slice() {
            sum = sum.wrapping_add(touch_target(accums, head.0));
        }
        sum
    }

    /// Appends an input to the target with this number. Unchanged after `OutOfMemory`, which is also returned past
    /// 4,294,967,295 rows or keys.
    pub fn push(&mut self, target: u64, input: &ScalarInput) -> Result<(), OutOfMemory>
        ensures ok { OnOk result (self.new ≡ self.old ++ (target, input.now) ∷ []) }
        ensures err { OnErr result (self.new ≡ self.old) }
    {
        let packed = pack(input, &mut self.rows)?;
        self.heads.push((target, packed))
    }

    /// Keeps the first `len` inputs, or all if there are fewer. The memory stays. Rows of removed inputs go only if none
    /// is left.
    pub fn truncate(&mut self, len: usize)
        ensures { self.new ≡ take len self.old }
    {
        self.heads.truncate(len);
        if len == 0 {
            self.rows.truncate(0);
        }
    }

    /// A copy, which takes no more memory than its inputs need.
    pub fn copied(&self, alloc: Global) -> Result<WaitingInputs, OutOfMemory>
        ensures { IfOk result (λ copy. copy ≡ self.now) }
    {
        Ok(WaitingInputs {
            heads: List::from_slice(alloc, self.heads.as_slice())?,
            rows: List::from_slice(alloc, self.rows.as_slice())?,
        })
    }
}

/// Packs an input: its row, if it has one, is appended to the rows. Unchanged after `OutOfMemory`.
fn pack(input: &ScalarInput, rows: &mut List<Ints>) -> Result<PackedInput, OutOfMemory>
    ensures ok { IfOk result (IsPacked rows.old rows.new input.now) }
    ensures err { OnErr result (rows.new ≡ rows.old) }
{
    match input {
        ScalarInput::Int(x) => Ok(PackedInput::Int(*x)),
        ScalarInput::Truth(x) => Ok(PackedInput::Truth(*x)),
        ScalarInput::Element(x) => Ok(PackedInput::Element(*x)),
        ScalarInput::Tuple(fields) => Ok(PackedInput::Tuple(put(fields, rows)?)),
        ScalarInput::Keyed(count, ints) => {
            let count = narrow(*count)?;
            Ok(PackedInput::Keyed(count, put(ints, rows)?))
        }
    }
}

/// Appends a row, and returns its place. Unchanged after `OutOfMemory`.
#[inline]
fn put(row: &Ints, rows: &mut List<Ints>) -> Result<u32, OutOfMemory>
    ensures ok { OnOk result (rows.new ≡ rows.old ++ row.now ∷ []) }
    ensures place { IfOk result (λ place. place ≡ length rows.old) }
    ensures err { OnErr result (rows.new ≡ rows.old) }
{
    let place = narrow(rows.len())?;
    rows.push(*row)?;
    Ok(place)
}

/// The input that was packed, with its row.
fn lend(packed: PackedInput, rows: &[Ints]) -> LentInput<'_>
    requires { rows_needed packed ≤ length rows.now }
    ensures { own result ≡ unpacked rows.entry.now packed }
{
    match packed {
        PackedInput::Int(x) => LentInput::Int(x),
        PackedInput::Truth(x) => LentInput::Truth(x),
        PackedInput::Element(x) => LentInput::Element(x),
        PackedInput::Tuple(place) => LentInput::Tuple(&rows[place as usize]),
        PackedInput::Keyed(count, place) => LentInput::Keyed(count as usize, &rows[place as usize]),
    }
}

/// The input with a copy of its row.
fn owned(input: LentInput<'_>) -> ScalarInput
    ensures { result ≡ own input.entry }
{
    match input {
        LentInput::Int(x) => ScalarInput::Int(x),
        LentInput::Truth(x) => ScalarInput::Truth(x),
        LentInput::Element(x) => ScalarInput::Element(x),
        LentInput::Tuple(fields) => ScalarInput::Tuple(*fields),
        LentInput::Keyed(count, ints) => ScalarInput::Keyed(count, *ints),
    }
}
