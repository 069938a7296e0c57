// Rows inserted into a store.
ghost use Rattle.std.specs.Prelude.{◌≡◌, ◌≤◌, [], ◌∷◌, length, None};
ghost use Rattle.gq_graph.specs.Edges.{Agrees};
ghost use Rattle.gq_index.specs.Steps as step;
ghost use Rattle.gq_index.specs.Ends.{edge_steps, row_of};
ghost use Rattle.gq_load.specs.Inserts.{IsNamedAs, Inserts, PutsAll, end_row};

use gq_base::OutOfMemory;
use gq_graph::{Naming, StoreFault};
use gq_index::{Store, put_edge, put_vertex};
use gq_load_check::{Endpoint, Insert};
use gq_value::{Value, duplicate_row};
use std::alloc::Global;

/// Puts a row into the store; an edge after those of its ends that don't exist yet. A refusal leaves the store
/// unchanged.
///
/// Existing edges of the row's type must be named in the same way, as they are if both have a type of the same catalog.
pub fn insert(alloc: Global, row: &Insert, store: &mut Store) -> Result<(), StoreFault>
    requires { IsNamedAs store.old row.now }
    ensures { Inserts store.old row.now store.new result }
{
    match row {
        Insert::Vertex {
            kind,
            id,
            attributes,
        } => insert_vertex(alloc, store, *kind, id.as_str(), attributes.as_slice()),
        Insert::Edge {
            kind,
            directed,
            key,
            from,
            to,
            attributes,
        } => {
            let naming = Naming {
                kind: *kind,
                directed: *directed,
                key: *key,
            };
            insert_edge(alloc, store, naming, from, to, attributes.as_slice())
        }
    }
}

fn insert_vertex(
    alloc: Global,
    store: &mut Store,
    kind: u32,
    id: &str,
    attributes: &[Value],
) -> Result<(), StoreFault>
    ensures { PutsAll store.old (step.Vertex (record { kind = kind; id = id.now; attributes = attributes.now }) ∷ []) store.new result }
{
    let mut attributes = match duplicate_row(alloc, attributes) {
        Ok(attributes) => attributes,
        Err(OutOfMemory) => return Err(StoreFault::OutOfMemory),
    };
    match put_vertex(store, kind, id, &mut attributes) {
        Ok(()) => Ok(()),
        Err(fault) => Err(fault),
    }
}

fn insert_edge(
    alloc: Global,
    store: &mut Store,
    naming: Naming,
    from: &Endpoint,
    to: &Endpoint,
    attributes: &[Value],
) -> Result<(), StoreFault>
    requires within { naming.key ≤ length attributes.now }
    requires agrees { Agrees store.old.edges.namings naming }
    ensures { PutsAll store.old (edge_steps naming (end_row from.now) (end_row to.now) attributes.now) store.new result }
{
    let count = store.vertices.len();
    let mut attributes = match duplicate_row(alloc, attributes) {
        Ok(attributes) => attributes,
        Err(OutOfMemory) => return Err(StoreFault::OutOfMemory),
    };
    match put_edge(alloc, store, naming, lent(from), lent(to), &mut attributes) {
        Ok(()) => Ok(()),
        Err(fault) => {
            store.vertices.cut(count);
            Err(fault)
        }
    }
}

/// Borrows an end as the store takes it.
fn lent(end: &Endpoint) -> gq_index::EndpointRef<'_>
    ensures row { row_of result ≡ end_row end.now }
    ensures unknown { result.at ≡ None }
{
    gq_index::EndpointRef {
        kind: end.kind,
        id: end.id.as_str(),
        at: None,
        missing: end.missing.as_slice(),
    }
}
