// Names with a fast lookup.
ghost use Rattle.std.specs.Prelude.{◌≡◌, ◌≤◌, ◌++◌, [], ◌∷◌, ◌<◌, length, take, vec_len, vec_capacity, Some, None, MatchResult, IsTrue, ◌↔◌};
ghost use Rattle.gq_graph.specs.Catalog.{name_place};
ghost use Rattle.gq_schema.specs.Kept.{HavePlaces, name_at};

use gq_base::{OutOfMemory, within};
use gq_value::Txt;
use std::alloc::Global;
use std::collections::BTreeMap;
use std::marker::Model;

/// Distinct names in order. Contracts see them as a list.
#[derive(Drop)]
pub(crate) struct NameTable {
    names: Vec<Txt>,

    /// The place of each name. May still hold a name that was cut.
    places: BTreeMap<String, u32>,
}

impl Model for NameTable {
    ghost use Rattle.std.specs.Prelude.{List, ℕ};
    ghost use Rattle.gq_schema.specs.Kept.{HavePlaces};

    ghost Value = { List (List ℕ) };

    ghost view = { λ t. t.names.items };

    ghost invariant = { λ t. HavePlaces t.names.items t.places };
}

impl NameTable {
    pub(crate) fn new(alloc: Global) -> NameTable
        ensures { result ≡ [] }
    {
        NameTable {
            names: Vec::new(alloc),
            places: BTreeMap::new(alloc),
        }
    }

    pub(crate) fn len(&self) -> usize
        ensures { result ≡ length self.now }
    {
        self.names.len()
    }

    /// Finds the place of a name.
    pub(crate) fn find(&self, name: &str) -> Option<u32>
        ensures { result ≡ name_place self.now name.now }
    {
        match self.places.get(name) {
            Some(place) if stands_at(&self.names, *place, name) => Some(*place),
            _ => None,
        }
    }

    /// Appends a name. Unchanged after `OutOfMemory`, which is also returned past the last place of 32 bits.
    pub(crate) fn push(&mut self, name: &str) -> Result<(), OutOfMemory>
        requires { name_place self.old name.now ≡ None }
        ensures { MatchResult result (λ _. self.new ≡ self.old ++ name.now ∷ []) (λ _. self.new ≡ self.old) }
    {
        within(self.names.len(), u32::MAX as usize - 1)?;
        let alloc = *self.names.allocator();
        let copy = Txt::of(alloc, name)?;
        let key = String::from_str(alloc, name)?;
        self.names.reserve(1)?;
        match self.places.insert(key, self.names.len() as u32) {
            Ok(_) => {}
            Err(_) => return Err(OutOfMemory),
        }
        put(&mut self.names, copy);
        Ok(())
    }

    /// Keeps only the first `len` names.
    pub(crate) fn cut(&mut self, len: usize)
        requires { len ≤ length self.old }
        ensures { self.new ≡ take len self.old }
    {
        self.names.truncate(len);
    }
}

fn stands_at(names: &[Txt], place: u32, name: &str) -> bool
    ensures { IsTrue result ↔ (place < length names.now) × (name_at names.now place ≡ name.now) }
{
    (place as usize) < names.len() && names[place as usize].as_str() == name
}

/// Appends a name if there is room for it.
fn put(names: &mut Vec<Txt>, name: Txt)
    requires { vec_len names.old < vec_capacity names.old }
    ensures { names.new.items ≡ names.old.items ++ name ∷ [] }
{
    match names.push(name) {
        Ok(()) => {}
        Err(_) => unreachable!(),
    }
}
