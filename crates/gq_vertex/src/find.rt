// Lookup of vertices by name.
ghost use Rattle.std.specs.Prelude.{◌≡◌};
ghost use Rattle.gq_graph.specs.Vertices.{is_vertex, vertex_number};
ghost use Rattle.gq_vertex.specs.Named as spec;
ghost use Rattle.gq_vertex.specs.declared.index.Index.TheVariants.{Hashed};

use crate::heads::VertexHead;
use crate::index::Index;
use crate::key::{is_exact, vertex_key};
use crate::names::number_of;
use gq_base::KeyTable;

/// Finds the number of the vertex of a type and an id.
pub(crate) fn find(rows: &[VertexHead], index: &Index, kind: u32, id: &str) -> Option<u32>
    requires { spec.AreNamed rows.now index.now }
    ensures { result ≡ vertex_number rows.now kind id.now }
{
    match index {
        Index::Hashed(keys) => find_by_key(rows, keys, kind, id),
        Index::Sorted(names) => number_of(names, kind, id),
    }
}

/// The same by the keys of the rows. If the key is the whole name, no row is read.
fn find_by_key(rows: &[VertexHead], keys: &KeyTable, kind: u32, id: &str) -> Option<u32>
    requires { spec.AreNamed rows.now (Hashed keys.now) }
    ensures { result ≡ vertex_number rows.now kind id.now }
{
    let key = vertex_key(kind, id);
    let mut next = keys.last(key);
    if is_exact(key) {
        return next;
    }
    while let Some(number) = next {
        if is_vertex(&rows[number as usize], kind, id) {
            return Some(number);
        }
        next = keys.before(number);
    }
    None
}

fn is_vertex(row: &VertexHead, kind: u32, id: &str) -> bool
    ensures { result ≡ is_vertex kind id.now row.now }
{
    row.kind() == kind && id == row.id()
}
