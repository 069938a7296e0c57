// Rows by their keys, in slots.
ghost use Rattle.std.specs.Prelude.{◌≡◌, ◌<◌, ◌≤◌, ◌++◌, ◌∷◌, [], length, slice_index, take, vec_len, IfOk, MatchResult};
ghost use Rattle.gq_base.specs.Keys.{number_of, numbers_of};
ghost use Rattle.gq_base.specs.KeySlots.{IsTable};
ghost use Rattle.gq_base.specs.Last.{IsLast};

use crate::key::Key;
use crate::key_chains::Entry;
use crate::key_slots::{SPARE, add, before_in, drop_last, home, is_crowded, last_in, place_all};
use crate::memory::OutOfMemory;
use std::alloc::Global;
use std::marker::Model;

/// A slot without a row.
const FREE: Entry = Entry {
    word: 0,
    tag: 0,
    before: 0,
};

/// Finds the rows of a table by their keys, as `KeyIndex` does, with one read of memory where that takes two: 40 to 64
/// bytes a row. Contracts see the numbers of the keys, in order of row.
///
/// Keys that were chosen to collide make a push fail as if memory had run out. A caller that can meet such keys asks
/// `is_crowded` before each push, and changes to another kind of index.
#[derive(Drop)]
pub struct KeyTable {
    slots: Vec<Entry>,
    entries: Vec<Entry>,
}

impl Model for KeyTable {
    ghost use Rattle.std.specs.Prelude.{List, ℕ};
    ghost use Rattle.gq_base.specs.Keys.{numbers_of};
    ghost use Rattle.gq_base.specs.KeySlots.{IsTable};

    ghost Value = { List ℕ };

    ghost view = { λ k. numbers_of k.entries.items };

    ghost invariant = { λ k. IsTable k.slots.items k.entries.items };
}

impl KeyTable {
    /// No rows.
    pub fn new(alloc: Global) -> KeyTable
        ensures { result ≡ [] }
    {
        KeyTable {
            slots: Vec::new(alloc),
            entries: Vec::new(alloc),
        }
    }

    /// The number of rows.
    pub fn len(&self) -> usize
        ensures { result ≡ length self.now }
    {
        self.entries.len()
    }

    /// The last row of that key.
    pub fn last(&self, key: Key) -> Option<u32>
        ensures { IsLast self.now (number_of key) (length self.now) result }
    {
        last_in(&self.slots, &self.entries, key)
    }

    /// The place where the search for a key begins. It is only for prefetching, with `touch`, and implies nothing about
    /// the rows.
    pub fn first(&self, key: Key) -> u32 {
        home(key, self.slots.len()) as u32
    }

    /// Reads the slot where a search begins, and returns part of it, so that the read isn't optimized away.
    pub fn touch(&self, place: u32) -> u32 {
        match self.slots.get(place as usize) {
            Some(slot) => slot.before,
            None => 0,
        }
    }

    /// The row before `number` of the same key.
    pub fn before(&self, number: u32) -> Option<u32>
        requires { number < length self.now }
        ensures { IsLast self.now (slice_index self.now number) number result }
    {
        before_in(&self.slots, &self.entries, number)
    }

    /// Whether so many rows have a key, or slots near its own, that keys must have been chosen to collide. A performance
    /// hint: nothing is guaranteed about it.
    pub fn is_crowded(&self, key: Key) -> bool {
        is_crowded(&self.slots, &self.entries, key)
    }

    /// Appends the key of a new row. Unchanged after OutOfMemory.
    pub fn push(&mut self, key: Key) -> Result<(), OutOfMemory>
        requires { length self.old < 2147483648 }
        ensures { MatchResult result (λ _. self.new ≡ self.old ++ number_of key ∷ []) (λ _. self.new ≡ self.old) }
    {
        self.entries.reserve(1)?;
        if is_full(self.entries.len(), self.slots.len()) {
            widen(&mut self.slots, &self.entries)?;
        }
        add(&mut self.slots, &mut self.entries, key)
    }

    /// Keeps only the first `len` rows. Takes time for each row that is removed.
    pub fn cut(&mut self, len: usize)
        requires { len ≤ length self.old }
        ensures { self.new ≡ take len self.old }
    {
        while self.entries.len() > len {
            drop_last(&mut self.slots, &mut self.entries);
        }
    }

    /// A deep copy of the table.
    pub fn duplicate(&self) -> Result<KeyTable, OutOfMemory>
        ensures { IfOk result (λ copy. copy ≡ self.now) }
    {
        let alloc = *self.entries.allocator();
        let slots = Vec::from_slice(alloc, &self.slots)?;
        let entries = Vec::from_slice(alloc, &self.entries)?;
        Ok(KeyTable { slots, entries })
    }
}

/// Whether two thirds of the slots where searches begin are taken.
fn is_full(rows: usize, slots: usize) -> bool {
    match rows.checked_mul(3) {
        Some(thrice) => thrice / 2 >= slots.saturating_sub(SPARE),
        None => true,
    }
}

/// Puts all rows into twice as many slots.
fn widen(slots: &mut Vec<Entry>, entries: &[Entry]) -> Result<(), OutOfMemory>
    requires table { IsTable slots.old.items entries.now }
    requires few { length entries.now < 2147483648 }
    ensures { IsTable slots.new.items entries.now }
{
    let count = wider(entries.len());
    let mut wider = vec![in *slots.allocator(); FREE; count]?;
    place_all(&mut wider, entries)?;
    *slots = wider;
    Ok(())
}

/// The number of slots for so many rows.
fn wider(rows: usize) -> usize
    requires { rows < 2147483648 }
    ensures { result ≤ 4294967296 }
{
    (rows.max(22) * 3 + SPARE).min(4_294_967_296)
}
