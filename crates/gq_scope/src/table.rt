// Names with what they refer to, with a fast lookup.
ghost use Rattle.std.specs.Prelude.{◌≡◌, ◌≤◌, ◌<◌, ◌-◌, ◌++◌, [], ◌∷◌, if◌then◌else◌, length, take};
ghost use Rattle.std.specs.Prelude.{vec_len, vec_capacity, map, reverse, Some, None, MatchResult, slice_get, filter_map, position};
ghost use Rattle.std.specs.Option.{option_copied, option_map};
ghost use Rattle.gq_rules_typing.specs.Words.{under};
ghost use Rattle.std.specs.Str.{bytes_eq};
ghost use Rattle.gq_scope.specs.Kept.{tuple_places, tuple_in, tuple_types};
ghost use Rattle.gq_scope.specs.Kept as spec;

use crate::entry::{Entry, TupleFields};
use crate::names::NameTable;
use gq_base::OutOfMemory;
use gq_value::Txt;
use std::alloc::Global;
use std::marker::Model;

/// Names with what they refer to, in the order in which they were added.
#[derive(Drop)]
pub(crate) struct EntryTable {
    names: NameTable<Entry>,

    /// The places of tuple types.
    tuples: Vec<u32>,
}

impl Model for EntryTable {
    ghost use Rattle.std.specs.Prelude.{List, ℕ};
    ghost use Rattle.std.specs.Coded.{codes};
    ghost use Rattle.gq_value.specs.contracts.kind.Kind as kind;
    ghost use Rattle.gq_value.specs.contracts.kind.BaseType as base;
    ghost use Rattle.gq_scope.specs.declared.entry.Entry.{Entry};

    ghost Value = { List (List ℕ × Entry) };

    ghost coded = { Prim.hlevel (codes, kind.the_row.coded, base.the_row.coded) };

    ghost use Rattle.gq_scope.specs.Kept.{IsNumbered};

    ghost view = { λ t. t.names };

    ghost invariant = { λ t. IsNumbered t.names t.tuples.items };
}

impl EntryTable {
    pub(crate) fn new(alloc: Global) -> EntryTable
        ensures { result ≡ [] }
    {
        EntryTable {
            names: NameTable::new(alloc),
            tuples: Vec::new(alloc),
        }
    }

    pub(crate) fn len(&self) -> u32
        ensures { result ≡ length self.now }
    {
        self.names.len()
    }

    /// Finds what the last entry of a name refers to.
    pub(crate) fn find(&self, name: &str) -> Option<&Entry>
        ensures { option_copied result ≡ under bytes_eq name.now (reverse self.now) }
    {
        self.names.find(name)
    }

    /// The number of the first tuple type of a name.
    pub(crate) fn tuple_named(&self, name: &str) -> Option<u32>
        ensures { result ≡ position (λ t. bytes_eq t.0 name.now) (tuple_types self.now) }
    {
        tuple_named(self.names.rows(), &self.tuples, name)
    }

    /// The fields of the tuple type with a number.
    pub(crate) fn tuple_at(&self, number: u32) -> Option<&TupleFields>
        ensures { option_copied result ≡ option_map (λ t. t.1) (slice_get (tuple_types self.now) number) }
    {
        tuple_at(self.names.rows(), &self.tuples, number)
    }

    /// Appends a name. Unchanged after `OutOfMemory`, which is also returned past the last place of 32 bits.
    pub(crate) fn push(&mut self, name: &str, what: Entry) -> Result<(), OutOfMemory>
        ensures { MatchResult result (λ _. self.new ≡ self.old ++ (name.now, what) ∷ []) (λ _. self.new ≡ self.old) }
    {
        let number = self.names.len();
        let tuple = is_tuple(&what);
        self.tuples.reserve(1)?;
        self.names.push(name, what)?;
        note(&mut self.tuples, tuple, number);
        Ok(())
    }

    /// Keeps only the first `len` names.
    pub(crate) fn cut(&mut self, len: u32)
        requires { len ≤ length self.old }
        ensures { self.new ≡ take len self.old }
    {
        let gone = tuple_count(&self.names.rows()[len as usize..]);
        let kept = self.tuples.len() - gone;
        self.tuples.truncate(kept);
        self.names.cut(len);
    }
}

fn tuple_named(names: &[(Txt, Entry)], tuples: &[u32], name: &str) -> Option<u32>
    requires numbered { tuples.now ≡ tuple_places 0 names.now }
    requires few { length names.now < 4294967296 }
    ensures { result ≡ position (λ t. bytes_eq t.0 name.now) (tuple_types names.now) }
{
    for (number, place) in tuples.iter().enumerate() {
        if names[*place as usize].0.as_str() == name {
            return Some(number as u32);
        }
    }
    None
}

fn tuple_at<'a>(names: &'a [(Txt, Entry)], tuples: &[u32], number: u32) -> Option<&'a TupleFields>
    requires { tuples.now ≡ tuple_places 0 names.now }
    ensures { option_copied result ≡ option_map (λ t. t.1) (slice_get (tuple_types names.now) number) }
{
    if number as usize >= tuples.len() {
        return None;
    }
    fields_of(&names[tuples[number as usize] as usize].1)
}

/// The fields of an entry that is a tuple type.
fn fields_of(what: &Entry) -> Option<&TupleFields>
    ensures { option_copied result ≡ tuple_in what.now }
{
    match what {
        Entry::TupleType(fields) => Some(fields),
        Entry::Variable(_) => None,
        Entry::SetVariable(_) => None,
        Entry::Alias(_) => None,
        Entry::EdgeAlias(_) => None,
        Entry::Accumulator(_, _) => None,
    }
}

/// The number of tuple types.
fn tuple_count(names: &[(Txt, Entry)]) -> usize
    ensures { result ≡ length (tuple_types names.now) }
{
    let mut count = 0;
    for entry in names {
        if is_tuple(&entry.1) {
            count += 1;
        }
    }
    count
}

fn is_tuple(what: &Entry) -> bool
    ensures { result ≡ spec.is_tuple what.now }
{
    fields_of(what).is_some()
}

/// Appends the place, if it is that of a tuple type. There must be room for it.
fn note(tuples: &mut Vec<u32>, is_tuple: bool, place: u32)
    requires { vec_len tuples.old < vec_capacity tuples.old }
    ensures { tuples.new.items ≡ tuples.old.items ++ (if is_tuple then place ∷ [] else []) }
{
    if !is_tuple {
        return;
    }
    match tuples.push(place) {
        Ok(()) => {}
        Err(_) => unreachable!(),
    }
}
