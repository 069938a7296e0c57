// The table of edges.
ghost use Rattle.std.specs.Prelude.{ℕ, ◌≡◌, ◌<◌, ◌≤◌, ◌↔◌, ◌++◌, [], ◌∷◌, length, map, slice_set, take, is_some, true, false, vec_len, vec_capacity, Some, None, Err, IfOk, MatchResult};
ghost use Rattle.std.specs.Option.{unwrap_or};
ghost use Rattle.gq_base.specs.Keys.{number_of};
ghost use Rattle.gq_graph.specs.Edges.{Agrees, edge_with, naming_with, edge_number, edge_put, upsert_edge, edge_at, noted, naming_of, most_edges};
ghost use Rattle.gq_edge.specs.Keyed.{edge_key, edge_tag, HasEnds};
ghost use Rattle.gq_edge.specs.Named.{AreNamed};
ghost use Rattle.gq_edge.specs.Sorted.{AreSorted, row_name};

use crate::find::{find, place};
use crate::key::{edge_key, plain_key};
use crate::names::{Names, sorted};
use crate::rows::{EdgeEnds, EdgeRows, lent};
use gq_base::{Key, KeyIndex, OutOfMemory};
use gq_graph::{Naming, StoreFault};
use gq_value::{Row, Value};
use std::alloc::Global;
use std::marker::Model;

/// The maximum number of edges in a store.
pub const MOST_EDGES: usize = 16_777_216;

/// The edges of a store. Contracts see their rows, and the naming of each type that has rows.
#[derive(Drop)]
pub struct Edges {
    rows: EdgeRows,
    namings: Vec<Naming>,
    index: KeyIndex,
    /// Present once a bucket was so crowded that the names must have been chosen for it.
    names: Option<Names>,
}

impl Model for Edges {
    ghost use Rattle.std.specs.Coded.{codes};
    ghost use Rattle.gq_value.specs.contracts.value.Value as value;
    ghost use Rattle.gq_graph.specs.Edges.{EdgeTable};
    ghost use Rattle.std.specs.Prelude.{map};
    ghost use Rattle.gq_edge.specs.Named.{AreNamed};
    ghost use Rattle.gq_edge.specs.Sorted.{AreSorted, row_name};

    ghost Value = { EdgeTable };

    ghost coded = { Prim.hlevel (codes, value.the_row.coded) };

    ghost view = { λ e. record { rows = e.rows; namings = e.namings.items } };

    ghost invariant = { λ e. record {
      named : AreNamed e.rows e.namings.items e.index;
      sorted : AreSorted (map (row_name e.namings.items) e.rows) e.names;
    } };
}

impl Edges {
    /// Returns an empty table.
    pub fn new(alloc: Global) -> Edges
        ensures { result ≡ record { rows = []; namings = [] } }
    {
        Edges {
            rows: EdgeRows::new(alloc),
            namings: Vec::new(alloc),
            index: KeyIndex::new(alloc),
            names: None,
        }
    }

    /// The number of edges.
    pub fn len(&self) -> u32
        ensures count { result ≡ length self.now.rows }
        ensures few { length self.now.rows ≤ most_edges }
    {
        self.rows.len() as u32
    }

    /// The types and ends of all edges, by their numbers. Contracts see edges without attributes.
    pub fn ends(&self) -> &[EdgeEnds]
        ensures long { length result.now ≡ length self.now.rows }
        ensures kinds { (r : ℕ) → r < length self.now.rows → (edge_at result.now r).kind ≡ (edge_at self.now.rows r).kind }
        ensures froms { (r : ℕ) → r < length self.now.rows → (edge_at result.now r).from ≡ (edge_at self.now.rows r).from }
        ensures tos { (r : ℕ) → r < length self.now.rows → (edge_at result.now r).to ≡ (edge_at self.now.rows r).to }
        ensures few { length self.now.rows ≤ most_edges }
    {
        self.rows.ends()
    }

    /// The attributes of an edge, by its number.
    pub fn attributes(&self, edge: u32) -> &[Value]
        requires { edge < length self.now.rows }
        ensures { result.now ≡ (edge_at self.now.rows edge).attributes }
    {
        self.rows.attributes(edge)
    }

    /// Replaces the attributes of the edge of that name, or appends a new edge. The first `key` attributes are part of
    /// the name, and the ends are unordered if the edge isn't directed. Moves the values out of the row, whose content
    /// is unspecified afterwards. A refusal leaves the table unchanged.
    pub fn upsert(
        &mut self,
        kind: u32,
        directed: bool,
        from: u32,
        to: u32,
        key: u32,
        attributes: &mut Row,
    ) -> Result<u32, StoreFault>
        requires within { key ≤ length attributes.old }
        requires agrees { Agrees self.old.namings (naming_with kind directed key) }
        ensures done { let naming = naming_with kind directed key in let edge = edge_with kind from to attributes.old in
            MatchResult result
            (λ n. (n ≡ unwrap_or (edge_number self.old.rows naming edge) (length self.old.rows))
            × (self.new ≡ upsert_edge self.old naming edge))
            (λ _. self.new ≡ self.old) }
        ensures full { let naming = naming_with kind directed key in let edge = edge_with kind from to attributes.old in
            (result ≡ Err StoreFault.Full)
            ↔ ((edge_number self.old.rows naming edge ≡ None) × (most_edges ≤ length self.old.rows)) }
    {
        let naming = Naming {
            kind,
            directed,
            key,
        };
        let alloc = self.rows.allocator();
        let edge = lent(kind, from, to, attributes);
        let key = edge_key(naming, edge);
        if self.rows.len() >= MOST_EDGES {
            return match find(
                &self.rows,
                &self.index,
                &self.names,
                alloc,
                naming,
                key,
                edge,
            ) {
                Some(number) => {
                    if !replace(&mut self.rows, number, attributes) {
                        return Err(StoreFault::OutOfMemory);
                    }
                    Ok(number)
                }
                None => Err(StoreFault::Full),
            };
        }
        match put(
            &mut self.rows,
            &mut self.namings,
            &mut self.index,
            &mut self.names,
            naming,
            key,
            from,
            to,
            attributes,
        ) {
            Ok(number) => Ok(number),
            Err(OutOfMemory) => Err(StoreFault::OutOfMemory),
        }
    }

    /// The entry at which the search for an edge without discriminators begins, for prefetching with `touch`. It says
    /// nothing about the edges; with discriminators the search begins elsewhere.
    pub fn first(&self, kind: u32, directed: bool, from: u32, to: u32) -> u32 {
        self.index.first(plain_key(kind, directed, from, to))
    }

    /// Reads the entry at which a search begins and returns part of it, so that the compiler keeps the read.
    pub fn touch(&self, place: u32) -> u32 {
        self.index.touch(place)
    }

    /// Copies the table into newly allocated memory.
    pub fn duplicate(&self) -> Result<Edges, OutOfMemory>
        ensures { IfOk result (λ copy. copy ≡ self.now) }
    {
        let alloc = self.rows.allocator();
        let names = match self.names {
            Some(_) => Some(sorted(alloc, &self.rows, &self.namings, &self.index)?),
            None => None,
        };
        Ok(Edges {
            rows: self.rows.duplicate()?,
            namings: Vec::from_slice(alloc, &self.namings)?,
            index: self.index.duplicate()?,
            names,
        })
    }
}

/// Replaces the attributes of the edge of that name, or appends a new edge.
fn put(
    rows: &mut EdgeRows,
    namings: &mut Vec<Naming>,
    index: &mut KeyIndex,
    names: &mut Option<Names>,
    naming: Naming,
    key: Key,
    from: u32,
    to: u32,
    attributes: &mut Row,
) -> Result<u32, OutOfMemory>
    requires named { AreNamed rows.old namings.old.items index.old }
    requires sorted { AreSorted (map (row_name namings.old.items) rows.old) names.old }
    requires agrees { Agrees namings.old.items naming }
    requires within { naming.key ≤ length attributes.old }
    requires keyed { number_of key ≡ edge_key naming (edge_with naming.kind from to attributes.old) }
    requires tagged { key.tag ≡ edge_tag naming (edge_with naming.kind from to attributes.old) }
    requires ends { HasEnds (edge_with naming.kind from to attributes.old) }
    requires room { length rows.old < most_edges }
    ensures named { AreNamed rows.new namings.new.items index.new }
    ensures sorted { AreSorted (map (row_name namings.new.items) rows.new) names.new }
    ensures done { let edge = edge_with naming.kind from to attributes.old in
        MatchResult result
        (λ n. (n ≡ unwrap_or (edge_number rows.old naming edge) (length rows.old)) × (rows.new ≡ edge_put rows.old edge (edge_number rows.old naming edge)) × (namings.new.items ≡ noted namings.old.items naming))
        (λ _. (rows.new ≡ rows.old) × (namings.new.items ≡ namings.old.items)) }
{
    namings.reserve(1)?;
    let number = place(
        names,
        rows.allocator(),
        rows,
        namings,
        index,
        naming,
        key,
        lent(naming.kind, from, to, attributes),
    )?;
    if (number as usize) < rows.len() {
        rows.set(number, attributes)?;
        return Ok(number);
    }
    push(rows, index, names, key, naming.kind, from, to, attributes)?;
    note(namings, naming);
    Ok(number)
}

/// Appends a new row and its key. If memory runs out, drops the tree, which has the name already.
fn push(
    rows: &mut EdgeRows,
    index: &mut KeyIndex,
    names: &mut Option<Names>,
    key: Key,
    kind: u32,
    from: u32,
    to: u32,
    attributes: &mut Row,
) -> Result<(), OutOfMemory>
    requires few { length index.old < 2147483648 }
    ensures { MatchResult result
        (λ _. (rows.new ≡ rows.old ++ edge_with kind from to attributes.old ∷ []) × (index.new ≡ index.old ++ number_of key ∷ []) × (names.new ≡ names.old))
        (λ _. (rows.new ≡ rows.old) × (index.new ≡ index.old) × (names.new ≡ None)) }
{
    match push_both(rows, index, key, kind, from, to, attributes) {
        Ok(()) => Ok(()),
        Err(OutOfMemory) => {
            *names = None;
            Err(OutOfMemory)
        }
    }
}

/// Appends a new row and its key. Unchanged after `OutOfMemory`.
fn push_both(
    rows: &mut EdgeRows,
    index: &mut KeyIndex,
    key: Key,
    kind: u32,
    from: u32,
    to: u32,
    attributes: &mut Row,
) -> Result<(), OutOfMemory>
    requires few { length index.old < 2147483648 }
    ensures { MatchResult result
        (λ _. (rows.new ≡ rows.old ++ edge_with kind from to attributes.old ∷ []) × (index.new ≡ index.old ++ number_of key ∷ []))
        (λ _. (rows.new ≡ rows.old) × (index.new ≡ index.old)) }
{
    let len = index.len();
    index.push(key)?;
    match rows.push(kind, from, to, attributes) {
        Ok(()) => Ok(()),
        Err(OutOfMemory) => {
            index.cut(len);
            Err(OutOfMemory)
        }
    }
}

/// Replaces an edge's attributes; `false` if there is no memory for them.
fn replace(rows: &mut EdgeRows, number: u32, attributes: &mut Row) -> bool
    requires { number < length rows.old }
    ensures done { result ≡ true → rows.new ≡ slice_set rows.old number (record (edge_at rows.old number) { attributes = attributes.old }) }
    ensures stays { result ≡ false → rows.new ≡ rows.old }
{
    rows.set(number, attributes).is_ok()
}

/// Notes how the edges of a type are named, if there is room for it.
fn note(namings: &mut Vec<Naming>, naming: Naming)
    requires { vec_len namings.old < vec_capacity namings.old }
    ensures { namings.new.items ≡ noted namings.old.items naming }
{
    if !is_noted(namings, naming.kind) {
        match namings.push(naming) {
            Ok(()) => {}
            Err(_) => unreachable!(),
        }
    }
}

fn is_noted(namings: &[Naming], kind: u32) -> bool
    ensures { result ≡ is_some (naming_of namings.now kind) }
{
    for naming in namings {
        if naming.kind == kind {
            return true;
        }
    }
    false
}
