// Slots, in which rows are found by their keys, over plain lists.
ghost use Rattle.std.specs.Prelude.{ℕ, ◌≡◌, ◌+◌, ◌-◌, ◌<◌, ◌≤◌, ◌++◌, ◌∷◌, [], length, slice_index, take, vec_len, vec_capacity, MatchOption, MatchResult, IfOk};
ghost use Rattle.gq_base.specs.Keys.{number_of, numbers_of, links_of};
ghost use Rattle.gq_base.specs.KeySlots.{home_of, Ends, Holds, IsTable};
ghost use Rattle.gq_base.specs.Last.{IsLast};

use crate::key::{Key, bucket, is_same};
use crate::key_chains::{Entry, is_long, key_of, put};
use crate::memory::OutOfMemory;

/// How many slots follow those where searches begin, and the number of taken slots from which a place counts as crowded:
/// with two thirds of the slots taken, fewer than one key in 10^15 is so far from its home.
pub(crate) const SPARE: usize = 512;

/// The slot where the search for a key begins, out of `slots`. The last ones are the home of none: a search ends there,
/// and doesn't go on from the first slot.
pub(crate) fn home(key: Key, slots: usize) -> usize
    requires { slots ≤ 4294967296 }
    ensures exact { result ≡ home_of (number_of key) slots }
    ensures within { result < 4294967296 }
{
    if slots <= SPARE {
        0
    } else {
        bucket(key, slots - SPARE)
    }
}

/// The first slot from a key's home on that is free or has the key.
fn seek(slots: &[Entry], key: Key) -> Option<usize>
    requires { length slots.now ≤ 4294967296 }
    ensures { Ends slots.now (number_of key) result }
{
    for place in home(key, slots.len())..slots.len() {
        let slot = slots[place];
        if slot.before == 0 || is_same(key_of(slot), key) {
            return Some(place);
        }
    }
    None
}

/// The last row of a key.
pub(crate) fn last_in(slots: &[Entry], entries: &[Entry], key: Key) -> Option<u32>
    requires { IsTable slots.now entries.now }
    ensures { IsLast (numbers_of entries.now) (number_of key) (length entries.now) result }
{
    match seek(slots, key) {
        Some(place) => row_at(slots[place].before),
        None => None,
    }
}

/// The row that a place stands for.
fn row_at(place: u32) -> Option<u32>
    ensures { MatchOption result (place ≡ 0) (λ row. place ≡ row + 1) }
{
    if place == 0 { None } else { Some(place - 1) }
}

/// The row before `number` of the same key.
pub(crate) fn before_in(slots: &[Entry], entries: &[Entry], number: u32) -> Option<u32>
    requires table { IsTable slots.now entries.now }
    requires within { number < length entries.now }
    ensures { IsLast (numbers_of entries.now) (slice_index (numbers_of entries.now) number) number result }
{
    row_at(entries[number as usize].before)
}

/// Whether a search for a key passes `SPARE` slots, or too many rows have the key.
pub(crate) fn is_crowded(slots: &[Entry], entries: &[Entry], key: Key) -> bool
    requires { length slots.now ≤ 4294967296 }
{
    match seek(slots, key) {
        Some(place) => {
            place.saturating_sub(home(key, slots.len())) >= SPARE
                || is_long(entries, slots[place].before)
        }
        None => !slots.is_empty(),
    }
}

/// Puts all rows into free slots. OutOfMemory if too many keys have one home.
pub(crate) fn place_all(slots: &mut [Entry], entries: &[Entry]) -> Result<(), OutOfMemory>
    requires short { length slots.old ≤ 4294967296 }
    requires free { (q : ℕ) → slice_index (links_of slots.old) q ≡ 0 }
    requires few { length entries.now < 4294967296 }
    ensures { IfOk result (λ _. Holds slots.new (length entries.now) (numbers_of entries.now)) }
{
    for i in 0..entries.len() {
        let entry = entries[i];
        match seek(slots, key_of(entry)) {
            Some(place) => {
                slots[place] = Entry {
                    word: entry.word,
                    tag: entry.tag,
                    before: i as u32 + 1,
                };
            }
            None => return Err(OutOfMemory),
        }
    }
    Ok(())
}

/// Appends a row, for which memory is reserved. OutOfMemory if too many keys have its home.
pub(crate) fn add(
    slots: &mut [Entry],
    entries: &mut Vec<Entry>,
    key: Key,
) -> Result<(), OutOfMemory>
    requires table { IsTable slots.old entries.old.items }
    requires few { vec_len entries.old < 4294967295 }
    requires room { vec_len entries.old < vec_capacity entries.old }
    ensures table { IsTable slots.new entries.new.items }
    ensures added { MatchResult result
        (λ _. numbers_of entries.new.items ≡ numbers_of entries.old.items ++ number_of key ∷ [])
        (λ _. numbers_of entries.new.items ≡ numbers_of entries.old.items) }
{
    match seek(slots, key) {
        Some(place) => {
            let number = entries.len() as u32;
            put(entries, entry_of(key, slots[place].before));
            slots[place] = entry_of(key, number + 1);
            Ok(())
        }
        None => Err(OutOfMemory),
    }
}

fn entry_of(key: Key, before: u32) -> Entry
    ensures { result ≡ record { word = key.word; tag = key.tag; before = before } }
{
    Entry {
        word: key.word,
        tag: key.tag,
        before,
    }
}

/// Removes the last row.
pub(crate) fn drop_last(slots: &mut [Entry], entries: &mut Vec<Entry>)
    requires table { IsTable slots.old entries.old.items }
    ensures table { IsTable slots.new entries.new.items }
    ensures dropped { numbers_of entries.new.items ≡ take (vec_len entries.old - 1) (numbers_of entries.old.items) }
    ensures count { vec_len entries.new ≡ vec_len entries.old - 1 }
{
    if let Some(entry) = entries.pop() {
        match seek(slots, key_of(entry)) {
            Some(place) => slots[place].before = entry.before,
            None => {}
        }
    }
}
