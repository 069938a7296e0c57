// Rows by their keys.
ghost use Rattle.std.specs.Prelude.{◌≡◌, ◌+◌, ◌<◌, ◌≤◌, ◌++◌, ◌∷◌, [], length, slice_index, take, vec_len, vec_capacity, IfOk, MatchResult};
ghost use Rattle.gq_base.specs.Keys.{number_of, numbers_of};
ghost use Rattle.gq_base.specs.KeyChains.{IsChained};
ghost use Rattle.gq_base.specs.Last.{IsLast};

use crate::key::{Key, bucket};
use crate::key_chains::{Entry, add, drop_last, is_crowded, key_of, last_below, link_all};
use crate::memory::OutOfMemory;
use std::alloc::{AllocError, Global};
use std::marker::Model;

/// Finds the rows of a table by their keys: 16 bytes a row, and 4 a bucket. Contracts see the numbers of the keys, in order of row.
#[derive(Drop)]
pub struct KeyIndex {
    heads: Vec<u32>,
    entries: Vec<Entry>,
}

impl Model for KeyIndex {
    ghost use Rattle.std.specs.Prelude.{List, ℕ};
    ghost use Rattle.gq_base.specs.Keys.{numbers_of};
    ghost use Rattle.gq_base.specs.KeyChains.{IsChained};

    ghost Value = { List ℕ };

    ghost view = { λ k. numbers_of k.entries.items };

    ghost invariant = { λ k. IsChained k.heads.items k.entries.items };
}

impl KeyIndex {
    /// No rows.
    pub fn new(alloc: Global) -> KeyIndex
        ensures { result ≡ [] }
    {
        KeyIndex {
            heads: Vec::new(alloc),
            entries: Vec::new(alloc),
        }
    }

    /// The number of rows.
    pub fn len(&self) -> usize
        ensures { result ≡ length self.now }
    {
        self.entries.len()
    }

    /// The last row of that key.
    pub fn last(&self, key: Key) -> Option<u32>
        ensures { IsLast self.now (number_of key) (length self.now) result }
    {
        last_below(&self.heads, &self.entries, key, self.entries.len())
    }

    /// The place where the search for a key begins. It is only for prefetching, with `touch`, and implies nothing about
    /// the rows.
    ///
    /// A search waits for memory at least twice. Neither of these two reads depends on the result of another search, so
    /// that the processor overlaps the waits of many searches if their reads come in a row before the searches.
    pub fn first(&self, key: Key) -> u32 {
        match self.heads.get(bucket_in(key, &self.heads)) {
            Some(place) => *place,
            None => 0,
        }
    }

    /// Reads the entry where a search begins, and returns part of it, so that the read isn't optimized away.
    pub fn touch(&self, place: u32) -> u32 {
        match self.entries.get((place as usize).wrapping_sub(1)) {
            Some(entry) => entry.before,
            None => 0,
        }
    }

    /// The row before `number` of the same key.
    pub fn before(&self, number: u32) -> Option<u32>
        requires { number < length self.now }
        ensures { IsLast self.now (slice_index self.now number) number result }
    {
        let key = key_of(self.entries[number as usize]);
        last_below(&self.heads, &self.entries, key, number as usize)
    }

    /// Whether the bucket of a key holds so many rows that keys must have been chosen to collide. A performance hint:
    /// nothing is guaranteed about it.
    pub fn is_crowded(&self, key: Key) -> bool {
        is_crowded(&self.heads, &self.entries, key)
    }

    /// Appends the key of a new row. Unchanged after OutOfMemory.
    pub fn push(&mut self, key: Key) -> Result<(), OutOfMemory>
        requires { length self.old < 2147483648 }
        ensures { MatchResult result (λ _. self.new ≡ self.old ++ number_of key ∷ []) (λ _. self.new ≡ self.old) }
    {
        self.entries.reserve(1)?;
        if self.entries.len() >= self.heads.len() {
            widen(&mut self.heads, &mut self.entries)?;
        }
        add(&mut self.heads, &mut self.entries, key);
        Ok(())
    }

    /// Keeps only the first `len` rows. Takes time for each row that is removed.
    pub fn cut(&mut self, len: usize)
        requires { len ≤ length self.old }
        ensures { self.new ≡ take len self.old }
    {
        while self.entries.len() > len {
            drop_last(&mut self.heads, &mut self.entries);
        }
    }

    /// A deep copy of the index.
    pub fn duplicate(&self) -> Result<KeyIndex, OutOfMemory>
        ensures { IfOk result (λ copy. copy ≡ self.now) }
    {
        let alloc = *self.entries.allocator();
        let heads = Vec::from_slice(alloc, &self.heads)?;
        let entries = Vec::from_slice(alloc, &self.entries)?;
        Ok(KeyIndex { heads, entries })
    }
}

/// The bucket of a key, if there are buckets.
fn bucket_in(key: Key, heads: &[u32]) -> usize
    requires { length heads.now ≤ 4294967296 }
{
    if heads.is_empty() {
        0
    } else {
        bucket(key, heads.len())
    }
}

/// Rebuilds the chains with twice as many buckets as rows, and at least eight.
fn widen(heads: &mut Vec<u32>, entries: &mut Vec<Entry>) -> Result<(), AllocError>
    requires chained { IsChained heads.old.items entries.old.items }
    requires few { vec_len entries.old < 2147483648 }
    ensures chained { IsChained heads.new.items entries.new.items }
    ensures same { numbers_of entries.new.items ≡ numbers_of entries.old.items }
    ensures count { vec_len entries.new ≡ vec_len entries.old }
    ensures room { vec_capacity entries.new ≡ vec_capacity entries.old }
    ensures some { IfOk result (λ _. 0 < vec_len heads.new) }
{
    let count = if entries.len() < 4 {
        8
    } else {
        entries.len() * 2
    };
    let mut wider = vec![in *heads.allocator(); 0; count]?;
    link_all(&mut wider, entries);
    *heads = wider;
    Ok(())
}
