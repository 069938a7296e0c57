// Sets in order.
ghost use Rattle.std.specs.Prelude.{◌≡◌, IfOk, OnOk};
ghost use Rattle.std.specs.BTreeSet.{IsEmpty, IsOrdered, btree_set_len, contains_by, insert_key};

use crate::iter::Keys;
use crate::map::SortedMap;
use gq_base::OutOfMemory;
use std::alloc::Global;
use std::collections::btree_map::Comparable;
use std::iter::IntoIterator;
use std::marker::Model;

/// A set in order. Contracts see it as std's `BTreeSet`: as its keys in that order.
#[derive(Drop)]
pub struct SortedSet<K: Ord> {
    map: SortedMap<K, ()>,
}

impl<K: Ord> Model for SortedSet<K> {
    ghost use Rattle.std.specs.Map.{keys_of};
    ghost use Rattle.std_collections.specs.Layout.BTreeSet.{BTreeSet as Seen, btree_set, btree_set_code};

    ghost Value = { Seen K };

    ghost coded = { btree_set_code K.code };

    ghost view = { λ a. btree_set (keys_of a.map.entries) };
}

impl<K: Ord> SortedSet<K> {
    /// A set without keys, which takes no memory.
    pub fn new(alloc: Global) -> SortedSet<K>
        ensures empty { IsEmpty result }
    {
        SortedSet {
            map: SortedMap::new(alloc),
        }
    }

    /// The number of keys.
    pub fn len(&self) -> usize
        ensures len { result ≡ btree_set_len self.now }
        ensures ordered { IsOrdered K.cmp self.now }
    {
        self.map.len()
    }

    /// Whether it has the key.
    pub fn contains<Q: Comparable<K>>(&self, key: Q) -> bool
        ensures { result ≡ contains_by (Q.compare key) self.now }
    {
        self.map.get(key).is_some()
    }

    /// The keys, in order.
    pub fn iter(&self) -> Keys<'_, K>
        ensures rest { result ≡ self.now.keys }
        ensures ordered { IsOrdered K.cmp self.now }
    {
        Keys::of(self.map.iter())
    }
}

impl<K: Ord + Drop> SortedSet<K> {
    /// A set without keys, with room for `capacity` of them if they are few.
    pub fn with_capacity(alloc: Global, capacity: usize) -> Result<SortedSet<K>, OutOfMemory>
        ensures { IfOk result (λ s. IsEmpty s) }
    {
        Ok(SortedSet {
            map: SortedMap::with_capacity(alloc, capacity)?,
        })
    }

    /// Puts the key at its place. A stored key that is equal to it stays.
    pub fn insert(&mut self, alloc: Global, key: K) -> Result<(), OutOfMemory>
        ensures keys { OnOk result (self.new.keys ≡ insert_key K.cmp self.old.keys key) }
        ensures ordered { IsOrdered K.cmp self.new }
    {
        self.map.insert(alloc, key, ())
    }
}

impl<'a, K: Ord> IntoIterator for &'a SortedSet<K> {
    type Item = &'a K;

    type IntoIter = Keys<'a, K>;

    ghost into_iter_gives = { λ s r. (r ≡ s.now.keys) × IsOrdered K.cmp s.now };

    fn into_iter(self) -> Keys<'a, K> {
        self.iter()
    }
}
