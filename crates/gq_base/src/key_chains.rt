// The chains of rows that share a bucket, over plain lists.
ghost use Rattle.std.specs.Prelude.{◌≡◌, ◌+◌, ◌-◌, ◌<◌, ◌≤◌, ◌++◌, ◌∷◌, [], length, map, slice_index, take, replicate, vec_len, vec_capacity};
ghost use Rattle.gq_base.specs.Keys.{number_of, bucket_of, numbers_of, links_of};
ghost use Rattle.gq_base.specs.KeyChains.{latest, IsChained, IsChainedTo};
ghost use Rattle.gq_base.specs.Last.{IsLast};

use crate::key::{Key, bucket, is_same};

/// The length from which a chain counts as crowded. Keys not chosen to collide rarely share a bucket: in regular graphs
/// of a million edges at most 22 did, and at random 16 would in one of 10^14 buckets.
const MOST_SHARED: u32 = 32;

/// An entry of a table: a row's key, and the row before it in its bucket, as that row's number plus one.
#[derive(Clone, Copy)]
pub(crate) struct Entry {
    pub(crate) word: u64,
    pub(crate) tag: u32,
    pub(crate) before: u32,
}

/// The key of an entry.
pub(crate) fn key_of(entry: Entry) -> Key
    ensures { result ≡ record { word = entry.word; tag = entry.tag } }
{
    Key {
        word: entry.word,
        tag: entry.tag,
    }
}

/// The greatest row number below `bound` with the key; `bound` is itself a row with the key, or the number of rows.
pub(crate) fn last_below(heads: &[u32], entries: &[Entry], key: Key, bound: usize) -> Option<u32>
    requires chained { IsChained heads.now entries.now }
    requires within { bound ≤ length entries.now }
    requires starts { bound < length entries.now → slice_index (numbers_of entries.now) bound ≡ number_of key }
    ensures { IsLast (numbers_of entries.now) (number_of key) bound result }
{
    let mut place = start(heads, entries, key, bound);
    while place > 0 {
        let number = place - 1;
        let entry = entries[number as usize];
        if is_same(key_of(entry), key) {
            return Some(number);
        }
        place = entry.before;
    }
    None
}

fn start(heads: &[u32], entries: &[Entry], key: Key, bound: usize) -> u32
    requires chained { IsChained heads.now entries.now }
    requires within { bound ≤ length entries.now }
    requires starts { bound < length entries.now → slice_index (numbers_of entries.now) bound ≡ number_of key }
    ensures { result ≡ latest (length heads.now) (numbers_of entries.now) (bucket_of (number_of key) (length heads.now)) bound }
{
    if bound < entries.len() {
        entries[bound].before
    } else if heads.is_empty() {
        0
    } else {
        heads[bucket(key, heads.len())]
    }
}

/// Whether the chain of a key's bucket has `MOST_SHARED` rows or more.
pub(crate) fn is_crowded(heads: &[u32], entries: &[Entry], key: Key) -> bool
    requires { length heads.now ≤ 4294967296 }
{
    if heads.is_empty() {
        return false;
    }
    is_long(entries, heads[bucket(key, heads.len())])
}

/// Whether `MOST_SHARED` rows or more are linked from a place on.
pub(crate) fn is_long(entries: &[Entry], place: u32) -> bool {
    let mut place = place;
    for _ in 0..MOST_SHARED {
        match entries.get((place as usize).wrapping_sub(1)) {
            Some(entry) => place = entry.before,
            None => return false,
        }
    }
    true
}

/// Rebuilds all chains.
pub(crate) fn link_all(heads: &mut [u32], entries: &mut [Entry])
    requires some { 0 < length heads.old }
    requires short { length heads.old ≤ 4294967296 }
    requires fresh { heads.old ≡ replicate (length heads.old) 0 }
    requires few { length entries.old < 4294967296 }
    ensures chained { IsChained heads.new entries.new }
    ensures same { numbers_of entries.new ≡ numbers_of entries.old }
{
    for i in 0..entries.len() {
        let bucket = bucket(key_of(entries[i]), heads.len());
        entries[i].before = heads[bucket];
        heads[bucket] = i as u32 + 1;
    }
}

/// Appends a row, for which memory is reserved.
pub(crate) fn add(heads: &mut [u32], entries: &mut Vec<Entry>, key: Key)
    requires chained { IsChained heads.old entries.old.items }
    requires some { 0 < length heads.old }
    requires few { vec_len entries.old < 4294967295 }
    requires room { vec_len entries.old < vec_capacity entries.old }
    ensures chained { IsChained heads.new entries.new.items }
    ensures added { numbers_of entries.new.items ≡ numbers_of entries.old.items ++ number_of key ∷ [] }
{
    let number = entries.len() as u32;
    let bucket = bucket(key, heads.len());
    put(
        entries,
        Entry {
            word: key.word,
            tag: key.tag,
            before: heads[bucket],
        },
    );
    heads[bucket] = number + 1;
}

/// Removes the last row.
pub(crate) fn drop_last(heads: &mut [u32], entries: &mut Vec<Entry>)
    requires chained { IsChained heads.old entries.old.items }
    ensures chained { IsChained heads.new entries.new.items }
    ensures dropped { numbers_of entries.new.items ≡ take (vec_len entries.old - 1) (numbers_of entries.old.items) }
    ensures count { vec_len entries.new ≡ vec_len entries.old - 1 }
{
    if let Some(entry) = entries.pop() {
        heads[bucket(key_of(entry), heads.len())] = entry.before;
    }
}

/// Appends an entry, for which there is room.
pub(crate) fn put(entries: &mut Vec<Entry>, entry: Entry)
    requires { vec_len entries.old < vec_capacity entries.old }
    ensures { entries.new.items ≡ entries.old.items ++ entry ∷ [] }
{
    match entries.push(entry) {
        Ok(()) => {}
        Err(_) => unreachable!(),
    }
}
