// The vertices that a block begins from.
ghost use Rattle.std.specs.Prelude.{◌≡◌, IfOk};
ghost use Rattle.gq_exec_source.specs.Starts.{vertices_under, all_under};

use crate::types::is_own;
use gq_base::OutOfMemory;
use gq_index::VertexList;
use gq_vertex::Vertices;
use std::alloc::Global;

/// All vertices of a type, by number, if the type is one of these.
#[tactic(auto, using(crate::proofs::StartLemmas::type_laws))]
pub(crate) fn vertices_of(
    alloc: Global,
    vertices: &Vertices,
    own: &[u32],
    kind: u32,
) -> Result<VertexList, OutOfMemory>
    ensures { IfOk result (λ list. list ≡ vertices_under vertices.now own.now kind) }
{
    if !is_own(own, kind) {
        return Ok(VertexList::new(alloc));
    }
    all_of(alloc, vertices, kind)
}

/// All vertices of a type, by number.
#[tactic(auto, using(crate::proofs::StartLemmas::all_laws))]
fn all_of(alloc: Global, vertices: &Vertices, kind: u32) -> Result<VertexList, OutOfMemory>
    ensures { IfOk result (λ list. list ≡ all_under vertices.now kind) }
{
    let mut list = VertexList::new(alloc);
    for vertex in 0..vertices.len() {
        if vertices.kind(vertex) == kind {
            list.push(vertex)?;
        }
    }
    Ok(list)
}
