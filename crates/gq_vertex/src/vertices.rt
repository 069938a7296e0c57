// The table of vertices.
ghost use Rattle.std.specs.Prelude.{◌≡◌, ◌<◌, ◌≤◌, ◌↔◌, true, false, ◌++◌, [], ◌∷◌, length, slice_set, take, vec_len, vec_capacity, slice_get, Some, None, Err, IfOk, OnOk, OnErr, MatchResult};
ghost use Rattle.std.specs.Option.{unwrap_or};
ghost use Rattle.gq_graph.specs.Vertices.{vertex_number, upsert_vertex, vertex_at, most_vertices};
ghost use Rattle.gq_vertex.specs.Joined.{head_of};
ghost use Rattle.gq_vertex.specs.Named.{AreNamed, Finds};

use crate::find::find;
use crate::heads::VertexHead;
use crate::index::{Index, cut, duplicate, first, insert, touch};
use crate::key::vertex_key;
use gq_base::{KeyTable, OutOfMemory};
use gq_graph::{Rows, StoreFault};
use gq_value::{Row, Txt, Value};
use std::alloc::Global;
use std::marker::Model;

/// The maximum number of vertices in a store.
pub const MOST_VERTICES: usize = 4_194_304;

/// The vertices of a store. Contracts see them as the list of their rows.
#[derive(Drop)]
pub struct Vertices {
    heads: Vec<VertexHead>,
    attributes: Rows,
    index: Index,
}

impl Model for Vertices {
    ghost use Rattle.std.specs.Prelude.{◌≡◌, List, length};
    ghost use Rattle.std.specs.Coded.{codes};
    ghost use Rattle.gq_graph.specs.declared.rows.VertexRow.{VertexRow};
    ghost use Rattle.gq_value.specs.contracts.value.Value as value;
    ghost use Rattle.gq_vertex.specs.Joined.{joined};
    ghost use Rattle.gq_vertex.specs.Named.{AreNamed};

    ghost Value = { List VertexRow };

    ghost coded = { Prim.hlevel (codes, value.the_row.coded) };

    ghost view = { λ v. joined v.heads.items v.attributes };

    ghost invariant = { λ v. record {
      named : AreNamed v.heads.items v.index;
      long : length v.heads.items ≡ length v.attributes;
    } };
}

impl Vertices {
    /// Returns an empty table.
    pub fn new(alloc: Global) -> Vertices
        ensures { result ≡ [] }
    {
        Vertices {
            heads: Vec::new(alloc),
            attributes: Rows::new(alloc),
            index: Index::Hashed(KeyTable::new(alloc)),
        }
    }

    /// The number of vertices.
    pub fn len(&self) -> u32
        ensures count { result ≡ length self.now }
        ensures few { length self.now ≤ most_vertices }
    {
        self.heads.len() as u32
    }

    /// Finds the number of the vertex of a type and an id. Allocates nothing. Its time doesn't grow with the table, or
    /// grows as the logarithm of its size if ids were chosen to share a bucket.
    pub fn find(&self, kind: u32, id: &str) -> Option<u32>
        ensures { result ≡ vertex_number self.now kind id.now }
    {
        find(&self.heads, &self.index, kind, id)
    }

    /// The entry at which the search for a vertex begins, for prefetching with `touch`. It says nothing about the
    /// vertices.
    pub fn first(&self, kind: u32, id: &str) -> u32 {
        first(&self.index, vertex_key(kind, id))
    }

    /// Reads the entry at which a search begins and returns part of it, so that the compiler keeps the read.
    pub fn touch(&self, place: u32) -> u32 {
        touch(&self.index, place)
    }

    /// The number of attributes in the row of a vertex.
    pub fn width(&self, vertex: u32) -> usize
        requires { vertex < length self.now }
        ensures { result ≡ length (vertex_at self.now vertex).attributes }
    {
        self.attributes.at(vertex).len()
    }

    /// The type of a vertex.
    pub fn kind(&self, vertex: u32) -> u32
        requires { vertex < length self.now }
        ensures { result ≡ (vertex_at self.now vertex).kind }
    {
        self.heads[vertex as usize].kind()
    }

    /// The primary id of a vertex, as a text.
    pub fn id(&self, vertex: u32) -> &str
        requires { vertex < length self.now }
        ensures { result.now ≡ (vertex_at self.now vertex).id }
    {
        self.heads[vertex as usize].id()
    }

    /// An attribute of a vertex, by its place among those of the type.
    pub fn attr(&self, vertex: u32, place: u32) -> &Value
        requires there { vertex < length self.now }
        requires within { place < length (vertex_at self.now vertex).attributes }
        ensures { slice_get (vertex_at self.now vertex).attributes place ≡ Some result.now }
    {
        self.value(vertex, place as usize)
    }

    /// An attribute of a vertex, as `attr` gives it, by a place of any size.
    pub fn value(&self, vertex: u32, place: usize) -> &Value
        requires there { vertex < length self.now }
        requires within { place < length (vertex_at self.now vertex).attributes }
        ensures { slice_get (vertex_at self.now vertex).attributes place ≡ Some result.now }
    {
        item(self.attributes.at(vertex), place)
    }

    /// Replaces the attributes of the vertex of that name, or appends a new vertex. Moves the values out of the row,
    /// whose content is unspecified afterwards. A refusal leaves the table unchanged.
    pub fn upsert(&mut self, kind: u32, id: &str, attributes: &mut Row) -> Result<u32, StoreFault>
        ensures done { MatchResult result
            (λ n. (n ≡ unwrap_or (vertex_number self.old kind id.now) (length self.old))
            × (self.new ≡ upsert_vertex self.old (record { kind = kind; id = id.now; attributes = attributes.old })))
            (λ _. self.new ≡ self.old) }
        ensures full { (result ≡ Err StoreFault.Full)
            ↔ ((vertex_number self.old kind id.now ≡ None) × (most_vertices ≤ length self.old)) }
    {
        match self.find(kind, id) {
            Some(number) => {
                if !replace(&mut self.attributes, number, attributes) {
                    return Err(StoreFault::OutOfMemory);
                }
                Ok(number)
            }
            None => {
                if self.len() as usize >= MOST_VERTICES {
                    return Err(StoreFault::Full);
                }
                match add(
                    &mut self.heads,
                    &mut self.attributes,
                    &mut self.index,
                    kind,
                    id,
                    attributes,
                ) {
                    Ok(number) => Ok(number),
                    Err(OutOfMemory) => Err(StoreFault::OutOfMemory),
                }
            }
        }
    }

    /// Removes the vertices from number `len` on. Allocates nothing; the time is proportional to the number of removed
    /// vertices.
    pub fn cut(&mut self, len: u32)
        requires { len ≤ length self.old }
        ensures { self.new ≡ take len self.old }
    {
        cut(&mut self.index, &self.heads, len as usize);
        self.heads.truncate(len as usize);
        self.attributes.truncate(len as usize);
    }

    /// Copies the table into newly allocated memory.
    pub fn duplicate(&self) -> Result<Vertices, OutOfMemory>
        ensures { IfOk result (λ copy. copy ≡ self.now) }
    {
        let alloc = *self.heads.allocator();
        Ok(Vertices {
            heads: copied(alloc, &self.heads)?,
            attributes: self.attributes.duplicate(alloc)?,
            index: duplicate(&self.index, alloc, &self.heads)?,
        })
    }
}

fn copied(alloc: Global, rows: &[VertexHead]) -> Result<Vec<VertexHead>, OutOfMemory>
    ensures { IfOk result (λ copy. copy.items ≡ rows.now) }
{
    let mut copy = Vec::with_capacity(alloc, rows.len())?;
    for row in rows {
        copy.push(row.duplicate(alloc)?)?;
    }
    Ok(copy)
}

/// The value at a place.
fn item(values: &[Value], place: usize) -> &Value
    requires { place < length values.now }
    ensures { slice_get values.now place ≡ Some result.now }
{
    &values[place]
}

/// Appends a row with a new name.
fn add(
    rows: &mut Vec<VertexHead>,
    all: &mut Rows,
    index: &mut Index,
    kind: u32,
    id: &str,
    attributes: &mut Row,
) -> Result<u32, OutOfMemory>
    requires named { AreNamed rows.old.items index.old }
    requires new { vertex_number rows.old.items kind id.now ≡ None }
    requires room { vec_len rows.old < most_vertices }
    requires long { vec_len rows.old ≡ length all.old }
    ensures named { AreNamed rows.new.items index.new }
    ensures done { MatchResult result
        (λ n. (n ≡ length rows.old.items) × (rows.new.items ≡ rows.old.items ++ head_of kind id.now ∷ []) × (all.new ≡ all.old ++ attributes.old ∷ []))
        (λ _. (rows.new.items ≡ rows.old.items) × (all.new ≡ all.old)) }
{
    let number = rows.len() as u32;
    rows.reserve(1)?;
    let head = VertexHead::new(kind, Txt::of(*rows.allocator(), id)?);
    insert_with(all, index, *rows.allocator(), rows, &head, attributes)?;
    put(rows, head);
    Ok(number)
}

/// Appends the attributes of a new row and inserts its name into the index. After `OutOfMemory` all rows are found as
/// before.
fn insert_with(
    all: &mut Rows,
    index: &mut Index,
    alloc: Global,
    rows: &[VertexHead],
    head: &VertexHead,
    attributes: &mut Row,
) -> Result<(), OutOfMemory>
    requires named { AreNamed rows.now index.old }
    requires new { vertex_number rows.now head.now.kind head.now.id ≡ None }
    requires room { length rows.now < most_vertices }
    requires long { length rows.now ≡ length all.old }
    ensures put { OnOk result (Finds (rows.now ++ head.now ∷ []) index.new) }
    ensures stays { OnErr result (Finds rows.now index.new) }
    ensures all { MatchResult result (λ _. all.new ≡ all.old ++ attributes.old ∷ []) (λ _. all.new ≡ all.old) }
{
    all.push(attributes)?;
    match insert(index, alloc, rows, head) {
        Ok(()) => Ok(()),
        Err(OutOfMemory) => {
            all.truncate(rows.len());
            Err(OutOfMemory)
        }
    }
}

/// Replaces a vertex's attributes; `false` if there is no memory for them.
fn replace(all: &mut Rows, number: u32, attributes: &mut Row) -> bool
    requires { number < length all.old }
    ensures done { result ≡ true → all.new ≡ slice_set all.old number attributes.old }
    ensures stays { result ≡ false → all.new ≡ all.old }
{
    all.set(number, attributes).is_ok()
}

/// Appends a row if there is room for it.
fn put(rows: &mut Vec<VertexHead>, row: VertexHead)
    requires { vec_len rows.old < vec_capacity rows.old }
    ensures { rows.new.items ≡ rows.old.items ++ row ∷ [] }
{
    match rows.push(row) {
        Ok(()) => {}
        Err(_) => unreachable!(),
    }
}
