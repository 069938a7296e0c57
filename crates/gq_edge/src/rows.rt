// Rows of edges: their types and ends in one list, and their attributes in another.
ghost use Rattle.std.specs.Prelude.{◌≡◌, ◌<◌, ◌++◌, [], ◌∷◌, ℕ, length, slice_set, vec_len, vec_capacity, IfOk, OnOk, OnErr};
ghost use Rattle.gq_graph.specs.Edges.{edge_at, edge_with};
ghost use Rattle.gq_edge.specs.Flat.{edge_of};

use gq_base::OutOfMemory;
use gq_graph::Rows;
use gq_value::{Row, Value};
use std::alloc::Global;
use std::marker::Model;

/// The type of an edge and its two ends, by vertex number. Contracts see an edge without attributes.
#[derive(Clone, Copy)]
pub struct EdgeEnds {
    kind: u32,
    from: u32,
    to: u32,
}

impl Model for EdgeEnds {
    ghost use Rattle.std.specs.Prelude.{[]};
    ghost use Rattle.std.specs.Coded.{codes};
    ghost use Rattle.gq_value.specs.contracts.value.Value as value;
    ghost use Rattle.gq_graph.specs.declared.rows.EdgeRow.{EdgeRow};

    ghost Value = { EdgeRow };

    ghost coded = { Prim.hlevel (codes, value.the_row.coded) };

    ghost view = { λ e. record { kind = e.kind; from = e.from; to = e.to; attributes = [] } };

    ghost inverse = { λ row. record { kind = row.kind; from = row.from; to = row.to } };
}

impl EdgeEnds {
    /// The type.
    pub fn kind(&self) -> u32
        ensures { result ≡ self.now.kind }
    {
        self.kind
    }

    /// The FROM vertex.
    pub fn from(&self) -> u32
        ensures { result ≡ self.now.from }
    {
        self.from
    }

    /// The TO vertex.
    pub fn to(&self) -> u32
        ensures { result ≡ self.now.to }
    {
        self.to
    }
}

/// An edge with borrowed attributes.
#[derive(Clone, Copy)]
pub(crate) struct EdgeRef<'a> {
    pub kind: u32,
    pub from: u32,
    pub to: u32,
    pub attributes: &'a [Value],
}

/// Returns an edge that borrows its attributes.
pub(crate) fn lent(kind: u32, from: u32, to: u32, attributes: &Row) -> EdgeRef<'_>
    ensures { edge_of result ≡ edge_with kind from to attributes.now }
{
    EdgeRef {
        kind,
        from,
        to,
        attributes: attributes.as_slice(),
    }
}

/// The rows of a table of edges. Contracts see them as a list.
#[derive(Drop)]
pub(crate) struct EdgeRows {
    ends: Vec<EdgeEnds>,
    attributes: Rows,
}

impl Model for EdgeRows {
    ghost use Rattle.std.specs.Prelude.{◌≡◌, List, length};
    ghost use Rattle.std.specs.Coded.{codes};
    ghost use Rattle.gq_value.specs.contracts.value.Value as value;
    ghost use Rattle.gq_graph.specs.declared.rows.EdgeRow.{EdgeRow};
    ghost use Rattle.gq_edge.specs.Joined.{joined};

    ghost Value = { List EdgeRow };

    ghost coded = { Prim.hlevel (codes, value.the_row.coded) };

    ghost view = { λ e. joined e.ends.items e.attributes };

    ghost invariant = { λ e. length e.ends.items ≡ length e.attributes };
}

impl EdgeRows {
    /// Returns a table without rows.
    pub fn new(alloc: Global) -> EdgeRows
        ensures { result ≡ [] }
    {
        EdgeRows {
            ends: Vec::new(alloc),
            attributes: Rows::new(alloc),
        }
    }

    /// The number of rows.
    pub fn len(&self) -> usize
        ensures { result ≡ length self.now }
    {
        self.ends.len()
    }

    /// The allocator of the rows.
    pub fn allocator(&self) -> Global {
        *self.ends.allocator()
    }

    /// The types and ends of all rows.
    pub fn ends(&self) -> &[EdgeEnds]
        ensures long { length result.now ≡ length self.now }
        ensures kinds { (r : ℕ) → r < length self.now → (edge_at result.now r).kind ≡ (edge_at self.now r).kind }
        ensures froms { (r : ℕ) → r < length self.now → (edge_at result.now r).from ≡ (edge_at self.now r).from }
        ensures tos { (r : ℕ) → r < length self.now → (edge_at result.now r).to ≡ (edge_at self.now r).to }
    {
        self.ends.as_slice()
    }

    /// The attributes of a row.
    pub fn attributes(&self, number: u32) -> &[Value]
        requires { number < length self.now }
        ensures { result.now ≡ (edge_at self.now number).attributes }
    {
        self.attributes.at(number)
    }

    /// A row.
    pub fn row(&self, number: u32) -> EdgeRef<'_>
        requires { number < length self.now }
        ensures { edge_of result ≡ edge_at self.now number }
    {
        let ends = &self.ends[number as usize];
        EdgeRef {
            kind: ends.kind(),
            from: ends.from(),
            to: ends.to(),
            attributes: self.attributes.at(number),
        }
    }

    /// Appends a row and moves its values. Unchanged after `OutOfMemory`.
    pub fn push(
        &mut self,
        kind: u32,
        from: u32,
        to: u32,
        attributes: &mut Row,
    ) -> Result<(), OutOfMemory>
        ensures ok { OnOk result (self.new ≡ self.old ++ edge_with kind from to attributes.old ∷ []) }
        ensures err { OnErr result (self.new ≡ self.old) }
    {
        self.ends.reserve(1)?;
        self.attributes.push(attributes)?;
        put(&mut self.ends, EdgeEnds { kind, from, to });
        Ok(())
    }

    /// Replaces the attributes of a row and moves the new values. Unchanged after `OutOfMemory`.
    pub fn set(&mut self, number: u32, attributes: &mut Row) -> Result<(), OutOfMemory>
        requires { number < length self.old }
        ensures ok { OnOk result (self.new ≡ slice_set self.old number (record (edge_at self.old number) { attributes = attributes.old })) }
        ensures err { OnErr result (self.new ≡ self.old) }
    {
        self.attributes.set(number, attributes)
    }

    /// Copies the rows into newly allocated memory.
    pub fn duplicate(&self) -> Result<EdgeRows, OutOfMemory>
        ensures { IfOk result (λ copy. copy ≡ self.now) }
    {
        let alloc = *self.ends.allocator();
        Ok(EdgeRows {
            ends: Vec::from_slice(alloc, &self.ends)?,
            attributes: self.attributes.duplicate(alloc)?,
        })
    }
}

/// Appends ends if there is room for them.
fn put(all: &mut Vec<EdgeEnds>, ends: EdgeEnds)
    requires { vec_len all.old < vec_capacity all.old }
    ensures { all.new.items ≡ all.old.items ++ ends ∷ [] }
{
    match all.push(ends) {
        Ok(()) => {}
        Err(_) => unreachable!(),
    }
}
