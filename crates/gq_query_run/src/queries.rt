// The queries of a session, with a fast lookup by name.
ghost use Rattle.std.specs.Prelude.{◌≡◌, ◌↔◌, ◌<◌, ◌++◌, [], ◌∷◌, IsTrue, MatchResult, None, Some, length, position, slice_get};
ghost use Rattle.gq_schema.specs.Kept.{name_at};
ghost use Rattle.gq_query_run.specs.Placed.{names_of};
ghost use Rattle.gq_query_run.specs.Queries as spec;

use crate::stored::Stored;
use gq_base::{List, OutOfMemory};
use gq_tree::QueryTree;
use std::alloc::Global;
use std::collections::BTreeMap;
use std::marker::Model;

/// The queries of a session, with distinct names, in the order in which they were first created. Contracts see them as
/// a list.
#[derive(Drop)]
pub struct Queries<'s> {
    stored: List<Stored<'s>>,

    /// The place of each name. May also hold the name of a query that there was no memory for.
    places: BTreeMap<String, usize>,
}

impl<'s> Model for Queries<'s> {
    ghost use Rattle.std.specs.Prelude.{List};
    ghost use Rattle.std.specs.Coded.{codes};
    ghost use Rattle.gq_tree.specs.contracts.query.QueryTree as query;
    ghost use Rattle.gq_query_run.specs.Kept.{Kept};
    ghost use Rattle.gq_query_run.specs.Placed.{ArePlaced};

    ghost Value = { List Kept };

    ghost coded = { Prim.hlevel (codes, query.the_row.coded) };

    ghost view = { λ q. q.stored };

    ghost invariant = { λ q. ArePlaced q.stored q.places };
}

impl<'s> Queries<'s> {
    /// No queries, which take no memory.
    pub fn new(alloc: Global) -> Queries<'s>
        ensures { result ≡ [] }
    {
        Queries {
            stored: List::new(alloc),
            places: BTreeMap::new(alloc),
        }
    }

    /// Returns the query at a place.
    pub(crate) fn at(&self, place: usize) -> &Stored<'s>
        requires { place < length self.now }
        ensures { slice_get self.now place ≡ Some result.now }
    {
        self.stored.at(place)
    }

    /// Whether there is a query with the name.
    #[tactic(auto, using(crate::proofs::PlaceLemmas::place_laws))]
    pub(crate) fn has(&self, name: &str) -> bool
        ensures { result ≡ spec.has_query self.now name.now }
    {
        self.place_of(name).is_some()
    }

    /// Returns the place of the query with a name.
    pub(crate) fn place_of(&self, name: &str) -> Option<usize>
        ensures { result ≡ position (spec.is_named name.now) self.now }
    {
        match self.places.get(name) {
            Some(place) if stands_at(self.stored.as_slice(), *place, name) => Some(*place),
            _ => None,
        }
    }

    /// Adds a query that isn't installed: in place of the one with the same name, or after all others. Unchanged after
    /// `OutOfMemory`.
    #[tactic(auto, using(crate::proofs::PlaceLemmas::place_laws))]
    pub(crate) fn put(
        &mut self,
        alloc: Global,
        name: &'s str,
        tree: &'s QueryTree,
        graph: Option<u32>,
    ) -> Result<(), OutOfMemory>
        ensures { MatchResult result (λ _. self.new ≡ spec.with_query self.old (spec.created name.now tree.now graph)) (λ _. self.new ≡ self.old) }
    {
        match self.place_of(name) {
            Some(place) => {
                self.stored.set(place, Stored::created(name, tree, graph));
                Ok(())
            }
            None => self.append(alloc, name, tree, graph),
        }
    }

    /// Appends a query with a new name. Unchanged after `OutOfMemory`.
    fn append(
        &mut self,
        alloc: Global,
        name: &'s str,
        tree: &'s QueryTree,
        graph: Option<u32>,
    ) -> Result<(), OutOfMemory>
        requires { position (spec.is_named name.now) self.old ≡ None }
        ensures { MatchResult result (λ _. self.new ≡ self.old ++ spec.created name.now tree.now graph ∷ []) (λ _. self.new ≡ self.old) }
    {
        let key = String::from_str(alloc, name)?;
        match self.places.insert(key, self.stored.len()) {
            Ok(_) => {}
            Err(_) => return Err(OutOfMemory),
        }
        self.stored.push(Stored::created(name, tree, graph))
    }

    /// Installs the query with a name, if there is one.
    #[tactic(auto, using(crate::proofs::PlaceLemmas::place_laws))]
    pub(crate) fn install(&mut self, name: &str)
        ensures { self.new ≡ spec.with_installed (name.now ∷ []) self.old }
    {
        if let Some(place) = self.place_of(name) {
            let installed = self.stored.at(place).as_installed();
            self.stored.set(place, installed);
        }
    }

    /// Installs all queries.
    #[tactic(auto, using(crate::proofs::PlaceLemmas::place_laws))]
    pub(crate) fn install_all(&mut self)
        ensures { self.new ≡ spec.all_installed self.old }
    {
        install_list(&mut self.stored);
    }
}

/// Whether the query at an index has that name.
#[tactic(auto, using(crate::proofs::PlaceLemmas::place_laws))]
fn stands_at(queries: &[Stored<'_>], place: usize, name: &str) -> bool
    ensures { IsTrue result ↔ (place < length (names_of queries.now)) × (name_at (names_of queries.now) place ≡ name.now) }
{
    match queries.get(place) {
        Some(query) => query.name == name,
        None => false,
    }
}

fn install_list(queries: &mut List<Stored<'_>>)
    ensures { queries.new ≡ spec.all_installed queries.old }
{
    install_each(queries.as_mut_slice());
}

fn install_each(queries: &mut [Stored<'_>])
    ensures { queries.new ≡ spec.all_installed queries.old }
{
    for query in queries {
        query.installed = true;
    }
}
