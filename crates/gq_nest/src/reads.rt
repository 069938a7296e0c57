// Reading contents.
ghost use Rattle.std.specs.Prelude.{map, IfOk, MatchOption};
ghost use Rattle.gq_value.specs.Views.{val};
ghost use Rattle.gq_accum_laws.specs.Fits.{fits as all_fit};
ghost use Rattle.gq_accum_laws.specs.Reads.{value_in};
ghost use Rattle.gq_nest.specs.Tells.{Tells, LacksKey, HasKey, LacksPart, HasPart, IsFitting, CanBeSet, IsSet, size_of, has_value, elements_of, keys_of};

use crate::content::Content;
use crate::fitting::fits;
use crate::rows::{group_rows, key_rows, keys_in_order, sorted_row};
use gq_base::{List, OutOfMemory};
use gq_value::{Row, Value, duplicate_row};
use std::alloc::Global;

/// Key rows in order.
pub type Keys = List<Row>;

impl Content {
    /// Assigns a value to a content of one number or truth. Doesn't allocate.
    pub fn set(&mut self, x: &Value)
        requires { CanBeSet self.old (val x.now) }
        ensures { IsSet self.old (val x.now) self.new }
    {
        match self {
            Content::Scalar(scalar) => scalar.set(x),
            Content::Set(_) => unreachable!(),
            Content::Bag(_) => unreachable!(),
            Content::List(_) => unreachable!(),
            Content::Heap(_) => unreachable!(),
            Content::Map(_, _) => unreachable!(),
            Content::Group(_, _) => unreachable!(),
            Content::Spoiled => unreachable!(),
        }
    }

    /// Whether each sum in it is within its type, and each average has a sum within INT and a count below 2^63.
    ///
    /// Visits all keys. Doesn't allocate.
    pub fn fits(&self) -> bool
        ensures { Tells self.now result all_fit }
    {
        fits(self)
    }

    /// The value of a scalar content that fits. An average without inputs is 0 over 1. Doesn't allocate.
    pub fn value(&self) -> Value
        requires { IsFitting self.now }
        ensures { Tells self.now (val result) value_in }
    {
        match self {
            Content::Scalar(scalar) => match scalar.seal() {
                Ok(value) => value,
                Err(_) => unreachable!(),
            },
            Content::Set(_) => unreachable!(),
            Content::Bag(_) => unreachable!(),
            Content::List(_) => unreachable!(),
            Content::Heap(_) => unreachable!(),
            Content::Map(_, _) => unreachable!(),
            Content::Group(_, _) => unreachable!(),
            Content::Spoiled => unreachable!(),
        }
    }

    /// The number of elements or keys; 0 for a number, truth or average. Doesn't allocate.
    pub fn size(&self) -> u64
        ensures { Tells self.now result size_of }
    {
        match self {
            Content::Scalar(_) => 0,
            Content::Set(keys) => keys.len() as u64,
            Content::Bag(items) => items.len() as u64,
            Content::List(items) => items.len() as u64,
            Content::Heap(heap) => (heap.tuples.len() as u64).min(u64::from(heap.capacity)),
            Content::Map(_, entries) => entries.len() as u64,
            Content::Group(_, groups) => groups.len() as u64,
            Content::Spoiled => 0,
        }
    }

    /// Whether a set, bag or list has the value. Bags and lists are searched linearly. Doesn't allocate.
    pub fn contains(&self, x: &Value) -> bool
        ensures { Tells self.now result (has_value (val x.now)) }
    {
        match self {
            Content::Scalar(_) => false,
            Content::Set(keys) => keys.contains(x),
            Content::Bag(items) => items.as_slice().contains(x),
            Content::List(items) => items.as_slice().contains(x),
            Content::Heap(_) => false,
            Content::Map(_, _) => false,
            Content::Group(_, _) => false,
            Content::Spoiled => false,
        }
    }

    /// The content at a key of a map, or None if the map doesn't have the key. Doesn't allocate.
    pub fn get(&self, key: &Row) -> Option<&Content>
        ensures { MatchOption result (LacksKey self.now (map val key.now)) (λ part. HasKey self.now (map val key.now) part.now) }
    {
        match self {
            Content::Map(_, entries) => match key.as_slice() {
                [] => None,
                [key] => entries.get(key),
                [_, _, ..] => None,
            },
            Content::Scalar(_) => None,
            Content::Set(_) => None,
            Content::Bag(_) => None,
            Content::List(_) => None,
            Content::Heap(_) => None,
            Content::Group(_, _) => None,
            Content::Spoiled => None,
        }
    }

    /// The part `i` of a group at a key row, counted from 0 in order of declaration, or None if the group doesn't have
    /// the key row. Doesn't allocate.
    pub fn part(&self, key: &Row, i: u32) -> Option<&Content>
        ensures { MatchOption result (LacksPart self.now (map val key.now) i) (λ part. HasPart self.now (map val key.now) i part.now) }
    {
        self.part_at(key, i as usize)
    }

    /// The same, by a place in memory.
    pub fn part_at(&self, key: &Row, i: usize) -> Option<&Content>
        ensures { MatchOption result (LacksPart self.now (map val key.now) i) (λ part. HasPart self.now (map val key.now) i part.now) }
    {
        match self {
            Content::Group(_, groups) => match groups.get(key.as_slice()) {
                Some(parts) => parts.as_slice().get(i),
                None => None,
            },
            Content::Scalar(_) => None,
            Content::Set(_) => None,
            Content::Bag(_) => None,
            Content::List(_) => None,
            Content::Heap(_) => None,
            Content::Map(_, _) => None,
            Content::Spoiled => None,
        }
    }

    /// Copies of all elements of a set, bag, list or heap, in the order of its kind.
    pub fn elements(&self, alloc: Global) -> Result<Row, OutOfMemory>
        ensures { IfOk result (λ row. Tells self.now (map val row) elements_of) }
    {
        match self {
            Content::Scalar(_) => Ok(List::new(alloc)),
            Content::Set(keys) => keys_in_order(alloc, keys),
            Content::Bag(items) => sorted_row(alloc, items.as_slice()),
            Content::List(items) => duplicate_row(alloc, items.as_slice()),
            Content::Heap(heap) => heap.first(alloc),
            Content::Map(_, _) => Ok(List::new(alloc)),
            Content::Group(_, _) => Ok(List::new(alloc)),
            Content::Spoiled => Ok(List::new(alloc)),
        }
    }

    /// Copies of all key rows of a map or group, ascending. A key of a map is a row of one value.
    pub fn keys(&self, alloc: Global) -> Result<Keys, OutOfMemory>
        ensures { IfOk result (λ rows. Tells self.now (map (map val) rows) keys_of) }
    {
        match self {
            Content::Map(_, entries) => key_rows(alloc, entries),
            Content::Group(_, groups) => group_rows(alloc, groups),
            Content::Scalar(_) => Ok(List::new(alloc)),
            Content::Set(_) => Ok(List::new(alloc)),
            Content::Bag(_) => Ok(List::new(alloc)),
            Content::List(_) => Ok(List::new(alloc)),
            Content::Heap(_) => Ok(List::new(alloc)),
            Content::Spoiled => Ok(List::new(alloc)),
        }
    }
}
