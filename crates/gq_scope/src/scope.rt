// Scopes.
ghost use Rattle.std.specs.Prelude.{◌≡◌, ◌≤◌, ◌<◌, ◌++◌, [], ◌∷◌, length, take};
ghost use Rattle.std.specs.Prelude.{slice_get, position, Some, None, false, true, MatchResult, is_some};
ghost use Rattle.std.specs.Option.{option_copied, option_map, ForSome};
ghost use Rattle.gq_rules_typing.specs.Scopes as typing;
ghost use Rattle.std.specs.Str.{bytes_eq};
ghost use Rattle.gq_rules_typing.specs.Words.{if_own};
ghost use Rattle.gq_scope.specs.Held.{entry_of, fields_of, place_of, sorts_in, setting_in, scope_in};

use crate::entry::{Entry, Place, TupleFields};
use crate::table::EntryTable;
use gq_base::OutOfMemory;
use gq_schema::Catalog;
use std::alloc::Global;
use std::marker::Model;

/// The visible names of a query for a graph of a catalog, and the place of the next expression.
#[derive(Drop)]
pub struct Scope<'a> {
    catalog: &'a Catalog,
    graph: Option<u32>,
    table: EntryTable,
    place: Place<'a>,
    with_paths: bool,
}

impl<'a> Model for Scope<'a> {
    ghost use Rattle.std.specs.Prelude.{Bool, ◌<◌, length};
    ghost use Rattle.std.specs.Option.{ForSome};
    ghost use Rattle.std.specs.Coded.{codes};
    ghost use Rattle.gq_value.specs.contracts.kind.Kind as kind;
    ghost use Rattle.gq_value.specs.contracts.kind.BaseType as base;
    ghost use Rattle.gq_value.specs.contracts.value.Value as value;
    ghost use Rattle.gq_scope.specs.Held.{Held, place_of};

    ghost Value = { Held };

    ghost coded = { Prim.hlevel (codes, kind.the_row.coded, base.the_row.coded, value.the_row.coded) };

    ghost view = { λ s. record {
      schema = s.catalog.now;
      graph = s.graph;
      names = s.table;
      place = place_of s.place;
      with_paths = s.with_paths;
    } };

    ghost invariant = { λ s. ForSome s.graph (λ g. g < length s.catalog.now.graphs) };
}

impl<'a> Scope<'a> {
    /// Returns a scope without names, at the place of a statement, without paths. A query without a graph sees no
    /// types.
    pub fn new(alloc: Global, catalog: &'a Catalog, graph: Option<u32>) -> Scope<'a>
        requires { ForSome graph (λ g. g < length catalog.now.graphs) }
        ensures { result ≡ record { schema = catalog.now; graph = graph; names = []; place = typing.InStatement; with_paths = false } }
    {
        Scope {
            catalog,
            graph,
            table: EntryTable::new(alloc),
            place: Place::Statement,
            with_paths: false,
        }
    }

    /// Adds a name that isn't visible yet; an accumulator's with its `@` or `@@`. Unchanged after OutOfMemory.
    pub fn add(&mut self, name: &str, what: Entry) -> Result<(), OutOfMemory>
        requires { is_some (typing.entry (scope_in self.old) name.now) ≡ false }
        ensures { MatchResult result
            (λ _. self.new ≡ record self.old { names = self.old.names ++ (name.now, what) ∷ [] })
            (λ _. self.new ≡ self.old) }
    {
        self.table.push(name, what)
    }

    /// Whether a name is visible.
    pub fn has(&self, name: &str) -> bool
        ensures { result ≡ is_some (typing.entry (scope_in self.now) name.now) }
    {
        self.find(name).is_some()
    }

    /// Finds what a name refers to: the last entry that was added under it.
    pub fn find(&self, name: &str) -> Option<&Entry>
        ensures { option_map entry_of (option_copied result) ≡ typing.entry (scope_in self.now) name.now }
    {
        self.table.find(name)
    }

    /// The number of visible names.
    pub fn len(&self) -> u32
        ensures { result ≡ length self.now.names }
    {
        self.table.len()
    }

    /// Removes all names but the first `len`.
    pub fn cut(&mut self, len: u32)
        requires { len ≤ length self.old.names }
        ensures { self.new ≡ record self.old { names = take len self.old.names } }
    {
        self.table.cut(len);
    }

    /// Sets the place of the next expression.
    pub fn put_at(&mut self, place: Place<'a>)
        ensures { self.new ≡ record self.old { place = place_of place.entry } }
    {
        self.place = place;
    }

    /// The place of the next expression.
    pub fn place(&self) -> Place<'a>
        ensures { place_of result ≡ self.now.place }
    {
        self.place
    }

    /// Sets whether patterns may be paths.
    pub fn allow_paths(&mut self, allowed: bool)
        ensures { self.new ≡ record self.old { with_paths = allowed } }
    {
        self.with_paths = allowed;
    }

    /// Whether patterns may be paths.
    pub fn with_paths(&self) -> bool
        ensures { result ≡ self.now.with_paths }
    {
        self.with_paths
    }

    /// The catalog.
    pub fn catalog(&self) -> &'a Catalog
        ensures { result.now ≡ self.now.schema }
    {
        self.catalog
    }

    /// The fields of the tuple type with a number.
    pub fn tuple_at(&self, number: u32) -> Option<&TupleFields>
        ensures { option_map (λ f. fields_of f) (option_copied result)
            ≡ option_map (λ t. t.1) (slice_get (setting_in self.now).tuples number) }
    {
        self.table.tuple_at(number)
    }

    /// The number of the first tuple type of a name.
    pub fn tuple_named(&self, name: &str) -> Option<u32>
        ensures { result ≡ position (λ t. bytes_eq t.0 name.now) (setting_in self.now).tuples }
    {
        self.table.tuple_named(name)
    }

    /// The vertex types of the graph.
    pub fn own_vertices(&self) -> &'a [u32]
        ensures { result.now ≡ (sorts_in self.now).own_vertices }
    {
        match self.graph {
            None => &[],
            Some(graph) => self.catalog.graph_at(graph).vertices.as_slice(),
        }
    }

    /// The edge types of the graph.
    pub fn own_edges(&self) -> &'a [u32]
        ensures { result.now ≡ (sorts_in self.now).own_edges }
    {
        match self.graph {
            None => &[],
            Some(graph) => self.catalog.graph_at(graph).edges.as_slice(),
        }
    }

    /// The number of the graph's vertex type of a name.
    pub fn vertex_type(&self, name: &str) -> Option<u32>
        ensures { result ≡ (setting_in self.now).words.vertex_type name.now }
    {
        own(self.own_vertices(), self.catalog.vertex_type(name))
    }

    /// The number of the graph's edge type of a name.
    pub fn edge_type(&self, name: &str) -> Option<u32>
        ensures { result ≡ (setting_in self.now).words.edge_type name.now }
    {
        own(self.own_edges(), self.catalog.edge_type(name))
    }
}

/// A number, if it is among these.
fn own(all: &[u32], number: Option<u32>) -> Option<u32>
    ensures { result ≡ if_own all.now number }
{
    match number {
        None => None,
        Some(number) => {
            if all.contains(&number) {
                Some(number)
            } else {
                None
            }
        }
    }
}
