// Sets with their types.
ghost use Rattle.std.specs.Prelude.{◌≡◌, IfOk};
ghost use Rattle.gq_exec_vars.specs.Written.{typed, set_is};

use gq_base::{List, OutOfMemory};
use gq_index::VertexList;
use std::alloc::Global;

/// A set, with the types that its vertices may have, by their numbers.
#[derive(Drop)]
pub struct TypedSet {
    pub types: List<u32>,
    pub vertices: VertexList,
}

/// An operand of a set operator: types and vertices borrowed from a variable, or a set that was made.
#[derive(Drop)]
pub enum SetOperand<'a> {
    Lent(&'a [u32], &'a VertexList),
    Made(TypedSet),
}

impl<'a> SetOperand<'a> {
    /// The types.
    pub fn types(&self) -> &[u32]
        ensures { result.now ≡ (set_is self.now).0 }
    {
        match self {
            SetOperand::Lent(types, _) => types,
            SetOperand::Made(set) => set.types.as_slice(),
        }
    }

    /// The vertices.
    pub fn vertices(&self) -> &[u32]
        ensures { result.now ≡ (set_is self.now).1 }
    {
        match self {
            SetOperand::Lent(_, vertices) => vertices.as_slice(),
            SetOperand::Made(set) => set.vertices.as_slice(),
        }
    }

    /// The set, owned.
    pub fn own(self, alloc: Global) -> Result<TypedSet, OutOfMemory>
        ensures { IfOk result (λ set. typed set ≡ set_is self.entry) }
    {
        match self {
            SetOperand::Lent(types, list) => Ok(TypedSet {
                types: List::from_slice(alloc, types)?,
                vertices: list.duplicate(alloc)?,
            }),
            SetOperand::Made(set) => Ok(set),
        }
    }
}
