// Lookup of edges by name.
ghost use Rattle.std.specs.Prelude.{◌≡◌, ◌<◌, ◌≤◌, length, map, take, IfOk, OnOk, OnErr};
ghost use Rattle.std.specs.Option.{unwrap_or};
ghost use Rattle.gq_graph.specs.Edges as edges;
ghost use Rattle.gq_base.specs.Keys.{number_of};
ghost use Rattle.gq_edge.specs.Keyed.{edge_key, edge_tag, HasEnds};
ghost use Rattle.gq_edge.specs.Named.{AreNamed, IsFindable};
ghost use Rattle.gq_edge.specs.Flat.{edge_of};
ghost use Rattle.gq_edge.specs.Sorted.{AreSorted, IsPlaced, IsSorted, name_row, row_name};

use crate::key::HASHED;
use crate::names::{Names, claim, insert, name_of};
use crate::rows::{EdgeRef, EdgeRows};
use gq_base::{Key, KeyIndex, OutOfMemory};
use gq_graph::Naming;
use std::alloc::Global;

/// Finds the number of the row with an edge's name: in the tree of names if there is one and memory for the name, and
/// otherwise by the keys of the rows. So it needs no memory, as a full table must tell whether a name is new.
pub(crate) fn find(
    rows: &EdgeRows,
    index: &KeyIndex,
    names: &Option<Names>,
    alloc: Global,
    naming: Naming,
    key: Key,
    edge: EdgeRef<'_>,
) -> Option<u32>
    requires keyed { number_of key ≡ edge_key naming (edge_of edge) }
    requires tagged { key.tag ≡ edge_tag naming (edge_of edge) }
    requires ends { HasEnds (edge_of edge) }
    requires within { naming.key ≤ length edge.attributes.now }
    requires findable { IsFindable naming (edge_of edge) rows.now index.now }
    requires sorted { IsSorted naming (edge_of edge) rows.now names.now }
    ensures { result ≡ edges.edge_number rows.now naming (edge_of edge.entry) }
{
    if let Some(tree) = names {
        if let Ok(name) = name_of(alloc, naming, edge) {
            return tree.get(&name).copied();
        }
    }
    find_by_key(rows, index, naming, key, edge)
}

/// The number of the row of an edge, or the number of rows if its name is new. Then the tree of names, if there is one,
/// already has the name, which is made only once. After `OutOfMemory` all rows are found as before.
pub(crate) fn place(
    names: &mut Option<Names>,
    alloc: Global,
    rows: &EdgeRows,
    namings: &[Naming],
    index: &KeyIndex,
    naming: Naming,
    key: Key,
    edge: EdgeRef<'_>,
) -> Result<u32, OutOfMemory>
    requires named { AreNamed rows.now namings.now index.now }
    requires sorted { AreSorted (map (row_name namings.now) rows.now) names.old }
    requires agrees { edges.Agrees namings.now naming }
    requires kind { edge.kind ≡ naming.kind }
    requires within { naming.key ≤ length edge.attributes.now }
    requires keyed { number_of key ≡ edge_key naming (edge_of edge) }
    requires tagged { key.tag ≡ edge_tag naming (edge_of edge) }
    requires ends { HasEnds (edge_of edge) }
    requires room { length rows.now < edges.most_edges }
    ensures number { IfOk result (λ n. n ≡ unwrap_or (edges.edge_number rows.now naming (edge_of edge.entry)) (length rows.now)) }
    ensures placed { OnOk result (IsPlaced (map (row_name namings.now) rows.now) (name_row naming (edge_of edge.entry)) (edges.edge_number rows.now naming (edge_of edge.entry)) names.new) }
    ensures stays { OnErr result (AreSorted (map (row_name namings.now) rows.now) names.new) }
{
    if let Some(tree) = names {
        let number = claim(tree, name_of(alloc, naming, edge)?, rows.len() as u32)?;
        return Ok(number);
    }
    match find_by_key(rows, index, naming, key, edge) {
        Some(number) => Ok(number),
        None => {
            insert(names, alloc, rows, namings, index, naming, key, edge)?;
            Ok(rows.len() as u32)
        }
    }
}

/// The same by the keys of the rows. If the key is the whole name, no row is read.
fn find_by_key(
    rows: &EdgeRows,
    index: &KeyIndex,
    naming: Naming,
    key: Key,
    edge: EdgeRef<'_>,
) -> Option<u32>
    requires keyed { number_of key ≡ edge_key naming (edge_of edge) }
    requires tagged { key.tag ≡ edge_tag naming (edge_of edge) }
    requires ends { HasEnds (edge_of edge) }
    requires within { naming.key ≤ length edge.attributes.now }
    requires findable { IsFindable naming (edge_of edge) rows.now index.now }
    ensures { result ≡ edges.edge_number rows.now naming (edge_of edge.entry) }
{
    let mut next = index.last(key);
    if key.tag < HASHED {
        return next;
    }
    while let Some(number) = next {
        if is_edge(naming, edge, rows.row(number)) {
            return Some(number);
        }
        next = index.before(number);
    }
    None
}

fn is_edge(naming: Naming, edge: EdgeRef<'_>, row: EdgeRef<'_>) -> bool
    ensures { result ≡ edges.is_edge naming (edge_of edge.entry) (edge_of row.entry) }
{
    row.kind == edge.kind
        && same_ends(naming.directed, edge, row)
        && same_key(naming.key as usize, edge, row)
}

fn same_ends(directed: bool, a: EdgeRef<'_>, b: EdgeRef<'_>) -> bool
    ensures { result ≡ edges.same_ends directed (edge_of a.entry) (edge_of b.entry) }
{
    b.from == a.from && b.to == a.to || !directed && b.from == a.to && b.to == a.from
}

fn same_key(key: usize, a: EdgeRef<'_>, b: EdgeRef<'_>) -> bool
    ensures { result ≡ edges.same_values (take key a.entry.attributes.now) (take key b.entry.attributes.now) }
{
    let (a, b) = (a.attributes, b.attributes);
    a[..key.min(a.len())] == b[..key.min(b.len())]
}
