// Lists of vertices.
ghost use Rattle.std.specs.Prelude.{◌≡◌, ◌<◌, ◌++◌, [], ◌∷◌, false, length, slice_get, Some, IfOk, OnOk, OnErr};
ghost use Rattle.gq_graph.specs.Candidates.{among};

use gq_base::{List, OutOfMemory};
use std::alloc::Global;
use std::marker::Model;

/// Distinct vertex numbers. Contracts see them as a list.
#[derive(Debug, Drop)]
pub struct VertexList {
    vertices: List<u32>,
}

impl Model for VertexList {
    ghost use Rattle.std.specs.Prelude.{List, ℕ, nat_eq};
    ghost use Rattle.std.specs.List.{IsDistinct};

    ghost Value = { List ℕ };

    ghost view = { λ l. l.vertices };

    ghost invariant = { λ l. IsDistinct nat_eq l.vertices };
}

impl VertexList {
    /// Returns an empty list; allocates nothing.
    pub fn new(alloc: Global) -> VertexList
        ensures { result ≡ [] }
    {
        VertexList {
            vertices: List::new(alloc),
        }
    }

    /// Appends a vertex that isn't listed yet. Unchanged after `OutOfMemory`.
    pub fn push(&mut self, vertex: u32) -> Result<(), OutOfMemory>
        requires new { among self.old vertex ≡ false }
        ensures ok { OnOk result (self.new ≡ self.old ++ vertex ∷ []) }
        ensures err { OnErr result (self.new ≡ self.old) }
    {
        self.vertices.push(vertex)
    }

    /// Copies the list into newly allocated memory.
    pub fn duplicate(&self, alloc: Global) -> Result<VertexList, OutOfMemory>
        ensures { IfOk result (λ copy. copy ≡ self.now) }
    {
        Ok(VertexList {
            vertices: List::from_slice(alloc, self.vertices.as_slice())?,
        })
    }

    /// Whether a vertex is listed. The time is linear.
    pub fn contains(&self, vertex: u32) -> bool
        ensures { result ≡ among self.now vertex }
    {
        self.vertices.as_slice().contains(&vertex)
    }

    /// The vertex at a place.
    pub fn at(&self, place: usize) -> &u32
        requires { place < length self.now }
        ensures { slice_get self.now place ≡ Some result.now }
    {
        self.vertices.at(place)
    }

    /// The number of vertices.
    pub fn len(&self) -> usize
        ensures { result ≡ length self.now }
    {
        self.vertices.len()
    }

    /// The vertices in order, as a slice.
    pub fn as_slice(&self) -> &[u32]
        ensures { result.now ≡ self.now }
    {
        self.vertices.as_slice()
    }
}
