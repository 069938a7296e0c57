// Lists.
ghost use Rattle.std.specs.Borrow.{sem};
ghost use Rattle.std.specs.Prelude.{◌≡◌, [], ◌∷◌, ◌++◌, ◌<◌, length, slice_get, slice_set, take, IfOk, OnOk, OnErr};
ghost use Rattle.std.specs.Option.{option_copied};

use crate::memory::OutOfMemory;
use std::alloc::Global;
use std::marker::Model;

/// A growing list. Contracts see it as the list of its items.
#[derive(Debug, Drop)]
pub struct List<T> {
    items: Vec<T>,
}

impl<T> Model for List<T> {
    ghost use Rattle.std.specs.Prelude.{List};
    ghost use Rattle.std.specs.Coded.{coded_list};

    ghost Value = { List T };

    ghost coded = { coded_list T.code };

    ghost view = { λ l. l.items.items };
}

impl<T> List<T> {
    ghost use Rattle.gq_base.specs.Lends.{lends_item, lends_items};

    /// An empty list, which takes no memory.
    pub fn new(alloc: Global) -> List<T>
        ensures { result ≡ [] }
    {
        List {
            items: Vec::new(alloc),
        }
    }

    /// The items of `items`, in order, without a copy.
    pub fn from_vec(items: Vec<T>) -> List<T>
        ensures { result ≡ items.items }
    {
        List { items }
    }

    /// The items, in order, to loop over.
    pub fn as_slice(&self) -> &[T]
        ensures { result.now ≡ self.now }
    {
        self.items.as_slice()
    }

    /// How many items there are.
    pub fn len(&self) -> usize
        ensures { result ≡ length self.now }
    {
        self.items.len()
    }

    /// The item at index `at`, as cheap as indexing a slice.
    pub fn at(&self, at: usize) -> &T
        requires { at < length self.now }
        ensures { slice_get self.now at ≡ Some result.now }
    {
        &self.items[at]
    }

    /// The item at `at`, if there is one.
    pub fn get(&self, at: usize) -> Option<&T>
        ensures { slice_get self.now at ≡ option_copied result }
    {
        self.items.as_slice().get(at)
    }

    /// The item at `at`, to be changed in place.
    pub fn at_mut(&mut self, at: usize) -> &mut T
        requires { at < length self.old }
        ensures* writes_back { sem 𝓛 (lends_item T.row self.entry at result) }
        ensures value { slice_get self.old at ≡ Some result.now }
    {
        &mut self.items[at]
    }

    /// The items, in order, to be changed in place.
    pub fn as_mut_slice(&mut self) -> &mut [T]
        ensures* writes_back { sem 𝓛 (lends_items T.row self.entry result) }
        ensures value { result.now ≡ self.old }
    {
        self.items.as_mut_slice()
    }
}

impl<T: Drop> List<T> {
    /// Appends `item`. After `OutOfMemory` the list is unchanged and the item is dropped.
    pub fn push(&mut self, item: T) -> Result<(), OutOfMemory>
        ensures ok { OnOk result (self.new ≡ self.old ++ item ∷ []) }
        ensures err { OnErr result (self.new ≡ self.old) }
    {
        self.items.push(item)?;
        Ok(())
    }

    /// Replaces the item at `at` by `item`.
    pub fn set(&mut self, at: usize, item: T)
        requires { at < length self.old }
        ensures { self.new ≡ slice_set self.old at item }
    {
        self.items[at] = item;
    }

    /// Keeps the first `len` items, or all if there are fewer.
    pub fn truncate(&mut self, len: usize)
        ensures { self.new ≡ take len self.old }
    {
        self.items.truncate(len);
    }
}

impl<T: Copy> List<T> {
    /// A copy of `items`.
    pub fn from_slice(alloc: Global, items: &[T]) -> Result<List<T>, OutOfMemory>
        ensures { IfOk result (λ l. l ≡ items.now) }
    {
        Ok(List {
            items: Vec::from_slice(alloc, items)?,
        })
    }
}
