// Vertices without their attributes.
ghost use Rattle.std.specs.Prelude.{◌≡◌, IfOk};
ghost use Rattle.gq_vertex.specs.Joined.{head_of};

use gq_base::OutOfMemory;
use gq_value::Txt;
use std::alloc::Global;
use std::marker::Model;

/// A vertex: its type and its primary id. Contracts see a vertex without attributes.
#[derive(Drop)]
pub(crate) struct VertexHead {
    kind: u32,
    id: Txt,
}

impl Model for VertexHead {
    ghost use Rattle.std.specs.Prelude.{[]};
    ghost use Rattle.std.specs.Coded.{codes};
    ghost use Rattle.gq_value.specs.contracts.value.Value as value;
    ghost use Rattle.gq_graph.specs.declared.rows.VertexRow.{VertexRow};

    ghost Value = { VertexRow };

    ghost coded = { Prim.hlevel (codes, value.the_row.coded) };

    ghost view = { λ v. record { kind = v.kind; id = v.id; attributes = [] } };
}

impl VertexHead {
    /// Returns a vertex of a type and an id.
    pub fn new(kind: u32, id: Txt) -> VertexHead
        ensures { result ≡ head_of kind id }
    {
        VertexHead { kind, id }
    }

    /// Copies the vertex into newly allocated memory.
    pub fn duplicate(&self, alloc: Global) -> Result<VertexHead, OutOfMemory>
        ensures { IfOk result (λ copy. copy ≡ self.now) }
    {
        Ok(VertexHead {
            kind: self.kind,
            id: Txt::of(alloc, self.id.as_str())?,
        })
    }

    /// The type.
    pub fn kind(&self) -> u32
        ensures { result ≡ self.now.kind }
    {
        self.kind
    }

    /// The primary id.
    pub fn id(&self) -> &str
        ensures { result.now ≡ self.now.id }
    {
        self.id.as_str()
    }
}
