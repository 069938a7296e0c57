// How a table finds rows by name.
ghost use Rattle.std.specs.Prelude.{◌≡◌, ◌<◌, ◌≤◌, ◌++◌, ◌∷◌, [], length, take, None, IfOk, OnOk, OnErr};
ghost use Rattle.gq_graph.specs.Vertices.{vertex_number, VerticesApart, most_vertices};
ghost use Rattle.gq_vertex.specs.Named.{Finds, IsSorted, AreNamed};

use crate::heads::VertexHead;
use crate::key::vertex_key;
use crate::names::{Names, put, take_out};
use gq_base::{Key, KeyTable, OutOfMemory};
use std::alloc::Global;
use std::collections::BTreeMap;

/// The index from names to rows: a hash index of keys, until one bucket is so crowded that the ids must have been
/// chosen for it; from then on a tree, whose lookups are logarithmic.
#[derive(Drop)]
pub(crate) enum Index {
    Hashed(KeyTable),
    Sorted(Names),
}

/// The entry at which the search for a key begins; 0 for a tree, of which nothing is prefetched.
pub(crate) fn first(index: &Index, key: Key) -> u32 {
    match index {
        Index::Hashed(keys) => keys.first(key),
        Index::Sorted(_) => 0,
    }
}

/// Reads the entry at which a search begins and returns part of it, so that the compiler keeps the read.
pub(crate) fn touch(index: &Index, place: u32) -> u32 {
    match index {
        Index::Hashed(keys) => keys.touch(place),
        Index::Sorted(_) => 0,
    }
}

/// Inserts the name of a new row, which will follow `rows`. After `OutOfMemory` all rows are found as before.
pub(crate) fn insert(
    index: &mut Index,
    alloc: Global,
    rows: &[VertexHead],
    row: &VertexHead,
) -> Result<(), OutOfMemory>
    requires named { AreNamed rows.now index.old }
    requires new { vertex_number rows.now row.now.kind row.now.id ≡ None }
    requires room { length rows.now < most_vertices }
    ensures put { OnOk result (Finds (rows.now ++ row.now ∷ []) index.new) }
    ensures stays { OnErr result (Finds rows.now index.new) }
{
    let key = vertex_key(row.kind(), row.id());
    change_if_crowded(index, alloc, rows, key)?;
    match index {
        Index::Hashed(keys) => keys.push(key),
        Index::Sorted(names) => put(alloc, names, row.kind(), row.id(), rows.len() as u32),
    }
}

/// Switches to a tree of all names if the bucket of a key is crowded.
fn change_if_crowded(
    index: &mut Index,
    alloc: Global,
    rows: &[VertexHead],
    key: Key,
) -> Result<(), OutOfMemory>
    requires { AreNamed rows.now index.old }
    ensures { Finds rows.now index.new }
{
    if is_crowded(index, key) {
        *index = Index::Sorted(sorted(alloc, rows)?);
    }
    Ok(())
}

fn is_crowded(index: &Index, key: Key) -> bool {
    match index {
        Index::Hashed(keys) => keys.is_crowded(key),
        Index::Sorted(_) => false,
    }
}

/// Builds the tree of the names of all rows.
fn sorted(alloc: Global, rows: &[VertexHead]) -> Result<Names, OutOfMemory>
    requires apart { VerticesApart rows.now }
    requires few { length rows.now ≤ most_vertices }
    ensures { IfOk result (IsSorted rows.now) }
{
    let mut names = BTreeMap::new(alloc);
    for (number, row) in rows.iter().enumerate() {
        put(alloc, &mut names, row.kind(), row.id(), number as u32)?;
    }
    Ok(names)
}

/// Removes the rows from number `len` on.
pub(crate) fn cut(index: &mut Index, rows: &[VertexHead], len: usize)
    requires named { AreNamed rows.now index.old }
    requires within { len ≤ length rows.now }
    ensures { Finds (take len rows.now) index.new }
{
    match index {
        Index::Hashed(keys) => keys.cut(len),
        Index::Sorted(names) => cut_names(names, rows, len),
    }
}

fn cut_names(names: &mut Names, rows: &[VertexHead], len: usize)
    requires apart { VerticesApart rows.now }
    requires sorted { IsSorted rows.now names.old }
    requires within { len ≤ length rows.now }
    ensures { IsSorted (take len rows.now) names.new }
{
    let mut left = rows.len();
    while left > len {
        left -= 1;
        let row = &rows[left];
        take_out(names, row.kind(), row.id());
    }
}

/// Copies the index of the same rows into newly allocated memory.
pub(crate) fn duplicate(
    index: &Index,
    alloc: Global,
    rows: &[VertexHead],
) -> Result<Index, OutOfMemory>
    requires { AreNamed rows.now index.now }
    ensures { IfOk result (Finds rows.now) }
{
    match index {
        Index::Hashed(keys) => Ok(Index::Hashed(keys.duplicate()?)),
        Index::Sorted(_) => Ok(Index::Sorted(sorted(alloc, rows)?)),
    }
}
