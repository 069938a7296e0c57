// Putting rows into a store.
ghost use Rattle.std.specs.Prelude.{◌≡◌, ◌≤◌, ℕ, List, [], ◌∷◌, length, take, Some, IfOk, OnErr};
ghost use Rattle.gq_graph.specs.Vertices.{vertex_number};
ghost use Rattle.gq_graph.specs.Edges.{Agrees};
ghost use Rattle.gq_index.specs.Steps as spec;
ghost use Rattle.gq_index.specs.Steps.{Puts};
ghost use Rattle.gq_graph.specs.declared.types.EdgeType.{EdgeType};
ghost use Rattle.gq_index.specs.Namings.{naming_in, AreNamedBy};
ghost use Rattle.gq_index.specs.Ends.{row_of, edge_steps, IsAt};

use crate::store::Store;
use gq_base::OutOfMemory;
use gq_graph::{Naming, StoreFault};
use gq_value::{Row, Value, duplicate_row};
use std::alloc::Global;

/// An end of an edge: a vertex by its type and id, and the attributes that it gets if it doesn't exist yet.
#[derive(Clone, Copy)]
pub struct EndpointRef<'a> {
    pub kind: u32,
    pub id: &'a str,
    /// The number of the vertex, if it is known to exist. With None it is looked up.
    pub at: Option<u32>,
    pub missing: &'a [Value],
}

/// Puts a vertex into the store. Moves the values out of the row, whose content is unspecified afterwards. Unchanged
/// after a refusal.
pub fn put_vertex(
    store: &mut Store,
    kind: u32,
    id: &str,
    attributes: &mut Row,
) -> Result<(), StoreFault>
    ensures puts { Puts store.old (spec.Vertex (record { kind = kind; id = id.now; attributes = attributes.old }) ∷ []) store.new result }
    ensures edges { store.new.edges ≡ store.old.edges }
    ensures refused { OnErr result (store.new ≡ store.old) }
{
    match store.vertices.upsert(kind, id, attributes) {
        Ok(_) => Ok(()),
        Err(fault) => Err(fault),
    }
}

/// Puts an edge into the store, and before it those of its ends that don't exist: first the FROM vertex, then the TO
/// vertex. After a refusal the ends that were put stay. Moves the values out of the row, whose content is unspecified
/// afterwards.
pub fn put_edge(
    alloc: Global,
    store: &mut Store,
    naming: Naming,
    from: EndpointRef<'_>,
    to: EndpointRef<'_>,
    attributes: &mut Row,
) -> Result<(), StoreFault>
    requires within { naming.key ≤ length attributes.old }
    requires agrees { Agrees store.old.edges.namings naming }
    requires from { IsAt store.old.vertices from }
    requires to { IsAt store.old.vertices to }
    ensures puts { Puts store.old (edge_steps naming (row_of from.entry) (row_of to.entry) attributes.old) store.new result }
    // The namings of edge types stay in agreement with the catalog.
    ensures named { (type_at : ℕ → EdgeType) → naming ≡ naming_in type_at naming.kind →
        AreNamedBy type_at store.old.edges.namings → AreNamedBy type_at store.new.edges.namings }
    ensures edges { OnErr result (store.new.edges ≡ store.old.edges) }
    ensures vertices { OnErr result (take (length store.old.vertices) store.new.vertices ≡ store.old.vertices) }
{
    let first = match put_end(alloc, store, from) {
        Ok(number) => number,
        Err(fault) => return Err(fault),
    };
    let second = match put_end(alloc, store, to) {
        Ok(number) => number,
        Err(fault) => return Err(fault),
    };
    let Naming {
        kind,
        directed,
        key,
    } = naming;
    match store
        .edges
        .upsert(kind, directed, first, second, key, attributes)
    {
        Ok(_) => Ok(()),
        Err(fault) => Err(fault),
    }
}

/// Puts an end of an edge into the store if it doesn't exist, and returns its number.
fn put_end(alloc: Global, store: &mut Store, end: EndpointRef<'_>) -> Result<u32, StoreFault>
    requires { IsAt store.old.vertices end }
    ensures puts { Puts store.old (spec.End (row_of end.entry) ∷ []) store.new result }
    ensures number { IfOk result (λ n. vertex_number store.new.vertices end.entry.kind end.entry.id.now ≡ Some n) }
    ensures others { IfOk result (λ _. (kind : ℕ) (id : List ℕ) (n : ℕ) → vertex_number store.old.vertices kind id ≡ Some n →
        vertex_number store.new.vertices kind id ≡ Some n) }
    ensures edges { store.new.edges ≡ store.old.edges }
    ensures vertices { take (length store.old.vertices) store.new.vertices ≡ store.old.vertices }
{
    match number_of(store, end) {
        Some(number) => Ok(number),
        None => {
            let mut attributes = match duplicate_row(alloc, end.missing) {
                Ok(attributes) => attributes,
                Err(OutOfMemory) => return Err(StoreFault::OutOfMemory),
            };
            match store.vertices.upsert(end.kind, end.id, &mut attributes) {
                Ok(number) => Ok(number),
                Err(fault) => Err(fault),
            }
        }
    }
}

/// The number of an end's vertex, if it exists.
fn number_of(store: &Store, end: EndpointRef<'_>) -> Option<u32>
    requires { IsAt store.now.vertices end }
    ensures { result ≡ vertex_number store.now.vertices end.entry.kind end.entry.id.now }
{
    match end.at {
        Some(number) => Some(number),
        None => store.vertices.find(end.kind, end.id),
    }
}
