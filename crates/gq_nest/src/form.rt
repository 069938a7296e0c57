// The two forms of a map: a vector and a tree.
ghost use Rattle.std.specs.Borrow.{sem};
ghost use Rattle.std.specs.Prelude.{◌≡◌, ◌≤◌, [], length, IfOk, OnOk, OnErr};
ghost use Rattle.std.specs.List.{insert};
ghost use Rattle.std.specs.List.Sorted.{IsStrictlySortedBy};
ghost use Rattle.std.specs.Map.{keys_of, lookup};
ghost use Rattle.std.specs.BTreeMap.{is_at, insert_entry};
ghost use Rattle.std.specs.Option.{option_copied, option_copied_mut};
ghost use Rattle.gq_nest.specs.SortedForms.{entries_in};

use crate::find::find;
use crate::iter::Iter;
use gq_base::OutOfMemory;
use std::alloc::Global;
use std::collections::BTreeMap;
use std::collections::btree_map::Comparable;

/// The number of entries up to which a map is a vector.
const FEW: usize = 16;

/// The entries of a map, in the order of their keys.
#[derive(Drop)]
pub(crate) enum Form<K: Ord, V> {
    Few(Vec<(K, V)>),
    Many(Box<BTreeMap<K, V>>),
}

impl<K: Ord, V> Form<K, V> {
    ghost use Rattle.gq_nest.specs.Lends.{follows_form};

    /// The number of entries.
    pub(crate) fn len(&self) -> usize
        ensures { result ≡ length (entries_in self.now) }
    {
        match self {
            Form::Few(entries) => entries.len(),
            Form::Many(tree) => tree.len(),
        }
    }

    /// The value at `key`.
    pub(crate) fn get<Q: Comparable<K>>(&self, key: Q) -> Option<&V>
        requires { IsStrictlySortedBy K.cmp (keys_of (entries_in self.now)) }
        ensures { option_copied result ≡ lookup (is_at (Q.compare key)) (entries_in self.entry.now) }
    {
        match self {
            Form::Few(entries) => value_at(entries.as_slice(), key),
            Form::Many(tree) => tree.get(key),
        }
    }

    /// The value at `key`, to be changed in its place.
    pub(crate) fn get_mut<Q: Comparable<K>>(&mut self, key: Q) -> Option<&mut V>
        requires { IsStrictlySortedBy K.cmp (keys_of (entries_in self.old)) }
        ensures* writes_back { sem 𝓛 (follows_form K.row V.row K.Ord self.entry (Q.compare key) result) }
        ensures value { option_copied_mut result ≡ lookup (is_at (Q.compare key)) (entries_in self.old) }
    {
        match self {
            Form::Few(entries) => match find(entries.as_slice(), key) {
                Ok(at) => Some(&mut entries[at].1),
                Err(_) => None,
            },
            Form::Many(tree) => tree.get_mut(key),
        }
    }

    /// The entries, in order.
    pub(crate) fn iter(&self) -> Iter<'_, K, V>
        ensures { result ≡ entries_in self.now }
    {
        match self {
            Form::Few(entries) => Iter::few(entries.as_slice()),
            Form::Many(tree) => Iter::many(tree.iter()),
        }
    }

    /// Whether the next entry needs a tree.
    fn is_full(&self) -> bool {
        match self {
            Form::Few(entries) => entries.len() >= FEW,
            Form::Many(_) => false,
        }
    }
}

impl<K: Ord + Drop, V: Drop> Form<K, V> {
    /// No entries, with room for `capacity` of them if they are few.
    pub(crate) fn with_capacity(alloc: Global, capacity: usize) -> Result<Form<K, V>, OutOfMemory>
        ensures { IfOk result (λ form. entries_in form ≡ []) }
    {
        Ok(Form::Few(Vec::with_capacity(alloc, capacity.min(FEW))?))
    }

    /// Puts `value` at `key`. A stored key that is equal to it stays.
    pub(crate) fn insert(&mut self, alloc: Global, key: K, value: V) -> Result<(), OutOfMemory>
        requires { IsStrictlySortedBy K.cmp (keys_of (entries_in self.old)) }
        ensures entries { OnOk result (entries_in self.new ≡ insert_entry K.cmp (entries_in self.old) key value) }
        ensures ordered { IsStrictlySortedBy K.cmp (keys_of (entries_in self.new)) }
    {
        if self.is_full() {
            self.grow(alloc)?;
        }
        match self {
            Form::Few(entries) => insert_few(entries, key, value),
            Form::Many(tree) => insert_many(tree, key, value),
        }
    }

    /// Moves the entries into a tree. Without the memory for it they are lost.
    fn grow(&mut self, alloc: Global) -> Result<(), OutOfMemory>
        requires { IsStrictlySortedBy K.cmp (keys_of (entries_in self.old)) }
        ensures entries { OnOk result (entries_in self.new ≡ entries_in self.old) }
        ensures ordered { IsStrictlySortedBy K.cmp (keys_of (entries_in self.new)) }
    {
        match self {
            Form::Few(entries) => {
                let tree = tree_of(alloc, entries)?;
                *self = Form::Many(Box::new(alloc, tree)?);
                Ok(())
            }
            Form::Many(_) => Ok(()),
        }
    }
}

/// The value at a key of sorted entries.
fn value_at<K: Ord, V, Q: Comparable<K>>(entries: &[(K, V)], key: Q) -> Option<&V>
    requires { IsStrictlySortedBy K.cmp (keys_of entries.now) }
    ensures { option_copied result ≡ lookup (is_at (Q.compare key)) entries.entry.now }
{
    match find(entries, key) {
        Ok(at) => Some(&entries[at].1),
        Err(_) => None,
    }
}

/// Puts `value` at `key` into sorted entries.
fn insert_few<K: Ord + Drop, V: Drop>(
    entries: &mut Vec<(K, V)>,
    key: K,
    value: V,
) -> Result<(), OutOfMemory>
    requires { IsStrictlySortedBy K.cmp (keys_of entries.old.items) }
    ensures entries { OnOk result (entries.new.items ≡ insert_entry K.cmp entries.old.items key value) }
    ensures ordered { IsStrictlySortedBy K.cmp (keys_of entries.new.items) }
{
    match find(entries.as_slice(), &key) {
        Ok(at) => {
            entries[at].1 = value;
            Ok(())
        }
        Err(at) => insert_at(entries, at, key, value),
    }
}

/// Puts an entry at a place.
fn insert_at<K: Drop, V: Drop>(
    entries: &mut Vec<(K, V)>,
    at: usize,
    key: K,
    value: V,
) -> Result<(), OutOfMemory>
    requires { at ≤ length entries.old.items }
    ensures put { OnOk result (entries.new.items ≡ insert entries.old.items at (key, value)) }
    ensures same { OnErr result (entries.new.items ≡ entries.old.items) }
{
    if entries.len() == entries.capacity() {
        // Most maps and sets stay very small, and there are many of them. So room is doubled from the first entry on.
        entries.reserve_exact(entries.len().max(1))?;
    }
    match entries.insert(at, (key, value)) {
        Ok(_) => Ok(()),
        Err(_) => Err(OutOfMemory),
    }
}

/// Puts `value` at `key` into a tree.
fn insert_many<K: Ord + Drop, V: Drop>(
    tree: &mut BTreeMap<K, V>,
    key: K,
    value: V,
) -> Result<(), OutOfMemory>
    ensures entries { OnOk result (tree.new.entries ≡ insert_entry K.cmp tree.old.entries key value) }
    ensures ordered { IsStrictlySortedBy K.cmp (keys_of tree.new.entries) }
{
    match tree.insert(key, value) {
        Ok(_) => Ok(()),
        Err(_) => Err(OutOfMemory),
    }
}

/// A tree of sorted entries, which are moved into it from the last to the first.
fn tree_of<K: Ord + Drop, V: Drop>(
    alloc: Global,
    entries: &mut Vec<(K, V)>,
) -> Result<BTreeMap<K, V>, OutOfMemory>
    requires { IsStrictlySortedBy K.cmp (keys_of entries.old.items) }
    ensures entries { IfOk result (λ tree. tree.entries ≡ entries.old.items) }
    ensures ordered { IsStrictlySortedBy K.cmp (keys_of entries.new.items) }
{
    let mut tree = BTreeMap::new(alloc);
    while let Some((key, value)) = entries.pop() {
        insert_many(&mut tree, key, value)?;
    }
    Ok(tree)
}
