ghost use Rattle.std.specs.Prelude.{◌≡◌, ℕ, false, length, IfOk};
ghost use Rattle.gq_graph.specs.Edges.{Agrees, naming_with};

use gq_base::{List, OutOfMemory};
use gq_edge::Edges;
use gq_graph::{Naming, StoreFault};
use gq_index::{EndpointRef, Store, put_edge, put_vertex};
use gq_value::{Row, Value};
use gq_vertex::Vertices;
use std::alloc::Global;
use std::test::Fail;

fn one(alloc: Global, n: i64) -> Result<Row, OutOfMemory>
    ensures { IfOk result (λ row. length row ≡ 1) }
{
    let values = Vec::from_array(alloc, [Value::Int(n)])?;
    Ok(List::from_vec(values))
}

fn number(values: &[Value]) -> Option<i64> {
    match values {
        [Value::Int(n)] => Some(*n),
        _ => None,
    }
}

/// Three persons, numbered from 0 on.
fn persons(alloc: Global, store: &mut Store) -> Result<(), Fail>
    ensures { store.new.edges ≡ store.old.edges }
{
    put_vertex(store, 0, "a", &mut one(alloc, 1)?)?;
    put_vertex(store, 0, "b", &mut one(alloc, 2)?)?;
    put_vertex(store, 0, "c", &mut one(alloc, 3)?)?;
    Ok(())
}

/// An edge of an undirected type; ends that don't exist yet get age 0.
fn near(alloc: Global, store: &mut Store, from: &str, to: &str, w: i64) -> Result<(), StoreFault>
    requires { (kind : ℕ) → Agrees store.old.edges.namings (naming_with kind false 0) }
    ensures { (kind : ℕ) → Agrees store.new.edges.namings (naming_with kind false 0) }
{
    let missing = [Value::Int(0)];
    let naming = Naming {
        kind: 0,
        directed: false,
        key: 0,
    };
    let from = EndpointRef {
        kind: 0,
        id: from,
        at: None,
        missing: missing.as_slice(),
    };
    let to = EndpointRef {
        kind: 0,
        id: to,
        at: None,
        missing: missing.as_slice(),
    };
    let mut attributes = match one(alloc, w) {
        Ok(attributes) => attributes,
        Err(OutOfMemory) => return Err(StoreFault::OutOfMemory),
    };
    match put_edge(alloc, store, naming, from, to, &mut attributes) {
        Ok(()) => Ok(()),
        Err(fault) => Err(fault),
    }
}

/// The numbers of five vertices and the weights of all edges after these edges.
fn loaded(alloc: Global, edges: &[(&str, &str, i64)]) -> Result<(Vec<i64>, Vec<i64>), Fail> {
    let mut store = Store {
        vertices: Vertices::new(alloc),
        edges: Edges::new(alloc),
    };
    persons(alloc, &mut store)?;
    for (from, to, w) in edges {
        near(alloc, &mut store, from, to, *w)?;
    }
    let mut places = Vec::new(alloc);
    for id in ["a", "b", "c", "d", "e"] {
        places.push(place(&store, id))?;
    }
    Ok((places, weights(alloc, &store.edges)?))
}

/// The weights of all edges.
fn weights(alloc: Global, edges: &Edges) -> Result<Vec<i64>, OutOfMemory> {
    let mut weights = Vec::new(alloc);
    for edge in 0..edges.len() {
        weights.push(number(edges.attributes(edge)).unwrap_or(-1))?;
    }
    Ok(weights)
}

/// The number of a vertex, or -1 if it doesn't exist.
fn place(store: &Store, id: &str) -> i64 {
    match store.vertices.find(0, id) {
        Some(vertex) => i64::from(vertex),
        None => -1,
    }
}

#[test]
fn an_undirected_edge_named_from_either_end_is_one_row(rt: HostRuntime) -> Result<(), Fail> {
    let (places, weights) = loaded(rt.alloc(), &[("c", "c", 1), ("c", "b", 2), ("b", "c", 5)])?;
    assert_eq!(rt; weights.as_slice(), [1, 5].as_slice());
    assert_eq!(rt; places.as_slice(), [0, 1, 2, -1, -1].as_slice());
    Ok(())
}

#[test]
fn missing_ends_are_put_from_first(rt: HostRuntime) -> Result<(), Fail> {
    let (places, weights) = loaded(rt.alloc(), &[("a", "d", 1), ("e", "d", 2)])?;
    assert_eq!(rt; weights.as_slice(), [1, 2].as_slice());
    assert_eq!(rt; places.as_slice(), [0, 1, 2, 3, 4].as_slice());
    Ok(())
}
