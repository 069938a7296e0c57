// Maps in the order of their keys.
ghost use Rattle.std.specs.Borrow.{sem};
ghost use Rattle.std.specs.Prelude.{◌≡◌, IfOk, OnOk};
ghost use Rattle.std.specs.BTreeMap.{IsEmpty, IsOrdered, btree_map_len, get_by, insert_entry};
ghost use Rattle.std.specs.Map.Iter.{ShowsInOrder, ShowsValuesInOrder, deref_pair};
ghost use Rattle.std.specs.Option.{option_copied, option_copied_mut};

use crate::form::Form;
use crate::iter::Iter;
use gq_base::OutOfMemory;
use std::alloc::Global;
use std::collections::btree_map::Comparable;
use std::iter::IntoIterator;
use std::marker::Model;

/// A map in the order of its keys. Contracts see it as std's `BTreeMap`: as its entries in that order.
#[derive(Drop)]
pub struct SortedMap<K: Ord, V> {
    form: Form<K, V>,
}

impl<K: Ord, V> Model for SortedMap<K, V> {
    ghost use Rattle.std.specs.List.Sorted.{IsStrictlySortedBy};
    ghost use Rattle.std.specs.Map.{keys_of};
    ghost use Rattle.std_collections.specs.Layout.BTreeMap.{BTreeMap as Seen, btree_map_code};

    ghost Value = { Seen K V };

    ghost coded = { btree_map_code K.code V.code };

    ghost use Rattle.gq_nest.specs.SortedForms.{entries_in, seen};

    ghost view = { λ a. seen a.form };

    ghost invariant = { λ a. IsStrictlySortedBy K.cmp (keys_of (entries_in a.form)) };
}

impl<K: Ord, V> SortedMap<K, V> {
    ghost use Rattle.gq_nest.specs.Lends.{follows_get};

    /// A map without entries, which takes no memory.
    pub fn new(alloc: Global) -> SortedMap<K, V>
        ensures empty { IsEmpty result }
        ensures ordered { IsOrdered K.cmp result }
    {
        SortedMap {
            form: Form::Few(Vec::new(alloc)),
        }
    }

    /// The number of entries.
    pub fn len(&self) -> usize
        ensures len { result ≡ btree_map_len self.now }
        ensures ordered { IsOrdered K.cmp self.now }
    {
        self.form.len()
    }

    /// The value at `key`, if there is one.
    pub fn get<Q: Comparable<K>>(&self, key: Q) -> Option<&V>
        ensures value { option_copied result ≡ get_by (Q.compare key) self.now }
    {
        self.form.get(key)
    }

    /// The value at `key`, if there is one, to be changed in its place.
    pub fn get_mut<Q: Comparable<K>>(&mut self, key: Q) -> Option<&mut V>
        ensures* writes_back { sem 𝓛 (follows_get K.row V.row K.Ord self.entry (Q.compare key) result) }
        ensures value { option_copied_mut result ≡ get_by (Q.compare key) self.old }
        ensures ordered { IsOrdered K.cmp self.old }
    {
        self.form.get_mut(key)
    }

    /// The entries, in order.
    pub fn iter(&self) -> Iter<'_, K, V>
        ensures rest { result ≡ self.now.entries }
        ensures ordered { IsOrdered K.cmp self.now }
        // The iterator gives the entries in order, and each value is one of the map's.
        ensures runs { ShowsInOrder (deref_pair {K = K} {X = V}) }
        ensures values_run { ShowsValuesInOrder (deref_pair {K = K} {X = V}) }
    {
        self.form.iter()
    }
}

impl<K: Ord + Drop, V: Drop> SortedMap<K, V> {
    /// A map without entries, with room for `capacity` of them if they are few.
    pub fn with_capacity(alloc: Global, capacity: usize) -> Result<SortedMap<K, V>, OutOfMemory>
        ensures { IfOk result (λ m. IsEmpty m) }
    {
        Ok(SortedMap {
            form: Form::with_capacity(alloc, capacity)?,
        })
    }

    /// Puts `value` at `key`. A stored key that is equal to it stays.
    pub fn insert(&mut self, alloc: Global, key: K, value: V) -> Result<(), OutOfMemory>
        ensures entries { OnOk result (self.new.entries ≡ insert_entry K.cmp self.old.entries key value) }
        ensures ordered { IsOrdered K.cmp self.new }
    {
        self.form.insert(alloc, key, value)
    }
}

impl<'a, K: Ord, V> IntoIterator for &'a SortedMap<K, V> {
    type Item = (&'a K, &'a V);

    type IntoIter = Iter<'a, K, V>;

    ghost into_iter_gives = { λ m r. (r ≡ m.now.entries) × IsOrdered K.cmp m.now × ShowsInOrder (deref_pair {K = K} {X = V}) × ShowsValuesInOrder (deref_pair {K = K} {X = V}) };

    fn into_iter(self) -> Iter<'a, K, V> {
        self.iter()
    }
}
