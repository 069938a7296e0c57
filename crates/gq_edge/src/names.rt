// A tree of edges by name.
ghost use Rattle.std.specs.Prelude.{◌≡◌, ◌<◌, ◌≤◌, ◌++◌, ◌∷◌, [], length, map, take, IfOk, OnOk, OnErr, None, Some, true};
ghost use Rattle.std.specs.BTreeMap.{get, Updates, IsUnchanged};
ghost use Rattle.std.specs.Option.{is_some, unwrap_or};
ghost use Rattle.gq_value.specs.Views.{val};
ghost use Rattle.gq_graph.specs.Edges.{edge_number, most_edges, Agrees};
ghost use Rattle.gq_edge.specs.Keyed.{first_end, second_end};
ghost use Rattle.gq_edge.specs.Flat.{edge_of};
ghost use Rattle.gq_edge.specs.Named as named;
ghost use Rattle.gq_edge.specs.Sorted as spec;

use crate::hash::row_hash;
use crate::rows::{EdgeRef, EdgeRows};
use gq_base::{Key, KeyIndex, OutOfMemory};
use gq_graph::Naming;
use gq_value::Value;
use std::alloc::Global;
use std::collections::BTreeMap;

/// The numbers of edges, by name.
pub(crate) type Names = BTreeMap<Name, u32>;

/// A name as a row of values, behind a hash of the row: most names differ in the hash, so few rows are compared.
pub(crate) type Name = (u64, Vec<Value>);

/// The name of an edge: its ends in order, its type, its discriminators.
pub(crate) fn name_of(alloc: Global, naming: Naming, edge: EdgeRef<'_>) -> Result<Name, OutOfMemory>
    ensures row { IfOk result (λ name. map val name.1.items ≡ spec.name_row naming (edge_of edge.entry)) }
    ensures hashed { IfOk result spec.IsHashed }
{
    let values = discriminators(naming, edge);
    let mut name = Vec::with_capacity(alloc, values.len().saturating_add(3))?;
    let (first, second) = ends(naming.directed, edge.from, edge.to);
    add(&mut name, Value::Vertex(first))?;
    add(&mut name, Value::Vertex(second))?;
    add(&mut name, Value::UInt(edge.kind as u64))?;
    add_all(alloc, &mut name, values)?;
    let hash = row_hash(&name);
    Ok((hash, name))
}

/// Both ends; the smaller is first if the edge is undirected.
fn ends(directed: bool, from: u32, to: u32) -> (u32, u32)
    ensures { (result.0 ≡ first_end directed from to) × (result.1 ≡ second_end directed from to) }
{
    if directed || from <= to {
        (from, to)
    } else {
        (to, from)
    }
}

fn discriminators<'a>(naming: Naming, edge: EdgeRef<'a>) -> &'a [Value]
    ensures { result.now ≡ take naming.key edge.entry.attributes.now }
{
    let values = edge.attributes;
    &values[..(naming.key as usize).min(values.len())]
}

fn add_all(alloc: Global, name: &mut Vec<Value>, values: &[Value]) -> Result<(), OutOfMemory>
    ensures { OnOk result (map val name.new.items ≡ map val name.old.items ++ map val values.now) }
{
    for value in values {
        add(name, value.duplicate(alloc)?)?;
    }
    Ok(())
}

#[tactic(auto, using(crate::proofs::SortedLemmas::map_push))]
fn add(name: &mut Vec<Value>, value: Value) -> Result<(), OutOfMemory>
    ensures { OnOk result (map val name.new.items ≡ map val name.old.items ++ val value ∷ []) }
{
    name.push(value)?;
    Ok(())
}

/// Inserts the name of a new edge, which will follow `rows`, into the tree, if there is one. Builds the tree if the
/// bucket of the edge's key is crowded. After `OutOfMemory` all rows are found as before.
pub(crate) fn insert(
    names: &mut Option<Names>,
    alloc: Global,
    rows: &EdgeRows,
    namings: &[Naming],
    keys: &KeyIndex,
    naming: Naming,
    key: Key,
    edge: EdgeRef<'_>,
) -> Result<(), OutOfMemory>
    requires named { named.AreNamed rows.now namings.now keys.now }
    requires agrees { Agrees namings.now naming }
    requires kind { edge.kind ≡ naming.kind }
    requires within { naming.key ≤ length edge.attributes.now }
    requires new { edge_number rows.now naming (edge_of edge) ≡ None }
    requires sorted { spec.AreSorted (map (spec.row_name namings.now) rows.now) names.old }
    requires room { length rows.now < most_edges }
    ensures put { OnOk result (spec.AreSorted (map (spec.row_name namings.now) rows.now ++ spec.name_row naming (edge_of edge.entry) ∷ []) names.new) }
    ensures stays { OnErr result (spec.AreSorted (map (spec.row_name namings.now) rows.now) names.new) }
{
    make_if_crowded(names, alloc, rows, namings, keys, key)?;
    match names {
        Some(tree) => put(tree, name_of(alloc, naming, edge)?, rows.len() as u32),
        None => Ok(()),
    }
}

/// Builds the tree of the names of all rows if the bucket of a key is crowded.
fn make_if_crowded(
    names: &mut Option<Names>,
    alloc: Global,
    rows: &EdgeRows,
    namings: &[Naming],
    keys: &KeyIndex,
    key: Key,
) -> Result<(), OutOfMemory>
    requires named { named.AreNamed rows.now namings.now keys.now }
    requires sorted { spec.AreSorted (map (spec.row_name namings.now) rows.now) names.old }
    ensures { spec.AreSorted (map (spec.row_name namings.now) rows.now) names.new }
{
    if names.is_none() && keys.is_crowded(key) {
        *names = Some(sorted(alloc, rows, namings, keys)?);
    }
    Ok(())
}

/// Builds the tree of the names of all rows.
pub(crate) fn sorted(
    alloc: Global,
    rows: &EdgeRows,
    namings: &[Naming],
    keys: &KeyIndex,
) -> Result<Names, OutOfMemory>
    requires { named.AreNamed rows.now namings.now keys.now }
    ensures { IfOk result (λ tree. spec.AreSorted (map (spec.row_name namings.now) rows.now) (Some tree)) }
{
    let mut names = BTreeMap::new(alloc);
    for number in 0..rows.len() as u32 {
        let row = rows.row(number);
        put(
            &mut names,
            name_of(alloc, naming_at(namings, row.kind), row)?,
            number,
        )?;
    }
    Ok(names)
}

/// The naming of a type that has rows.
fn naming_at(namings: &[Naming], kind: u32) -> Naming
    ensures { result ≡ named.naming_at namings.now kind }
{
    for naming in namings {
        if naming.kind == kind {
            return *naming;
        }
    }
    Naming {
        kind: 0,
        directed: false,
        key: 0,
    }
}

/// The number of a name in the tree, which gets it with that number if it is new. After `OutOfMemory` all names keep
/// their numbers.
pub(crate) fn claim(names: &mut Names, name: Name, number: u32) -> Result<u32, OutOfMemory>
    ensures number { IfOk result (λ n. n ≡ unwrap_or (get spec.name_cmp names.old name) number) }
    ensures known { OnOk result (is_some (get spec.name_cmp names.old name) ≡ true → names.new ≡ names.old) }
    ensures put { OnOk result (get spec.name_cmp names.old name ≡ None → Updates spec.name_cmp names.old names.new name (Some number)) }
    ensures stays { OnErr result (IsUnchanged names.old names.new) }
{
    if let Some(found) = names.get(&name) {
        return Ok(*found);
    }
    put(names, name, number)?;
    Ok(number)
}

/// Maps a name to that number. After `OutOfMemory` all names keep their numbers.
fn put(names: &mut Names, name: Name, number: u32) -> Result<(), OutOfMemory>
    ensures put { OnOk result (Updates spec.name_cmp names.old names.new name (Some number)) }
    ensures stays { OnErr result (IsUnchanged names.old names.new) }
{
    match names.insert(name, number) {
        Ok(_) => Ok(()),
        Err(_) => Err(OutOfMemory),
    }
}
