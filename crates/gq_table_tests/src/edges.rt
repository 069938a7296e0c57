ghost use Rattle.std.specs.Prelude.{◌≡◌, true, Some, IfOk};
ghost use Rattle.gq_graph.specs.Edges.{naming_of, naming_with};

use gq_base::{List, OutOfMemory};
use gq_edge::Edges;
use gq_value::{Row, Value};
use std::alloc::Global;
use std::test::Fail;

fn one(alloc: Global, a: i64) -> Result<Row, OutOfMemory> {
    let values = Vec::from_array(alloc, [Value::Int(a)])?;
    Ok(List::from_vec(values))
}

fn weight(edges: &Edges, number: u32) -> Option<i64> {
    if number >= edges.len() {
        return None;
    }
    match edges.attributes(number) {
        [.., Value::Int(weight)] => Some(*weight),
        _ => None,
    }
}

#[test]
fn an_undirected_edge_has_one_row_from_both_ends(rt: HostRuntime) -> Result<(), Fail> {
    let alloc = rt.alloc();
    let mut edges = Edges::new(alloc);
    assert_eq!(rt; edges.upsert(0, false, 2, 2, 0, &mut one(alloc, 1)?)?, 0);
    assert_eq!(rt; edges.upsert(0, false, 2, 1, 0, &mut one(alloc, 2)?)?, 1);
    assert_eq!(rt; edges.upsert(0, false, 1, 2, 0, &mut one(alloc, 5)?)?, 1);
    assert_eq!(rt; edges.len(), 2);
    assert_eq!(rt; weight(&edges, 0), Some(1));
    assert_eq!(rt; weight(&edges, 1), Some(5));
    Ok(())
}

#[test]
fn a_directed_edge_and_the_one_back_are_two(rt: HostRuntime) -> Result<(), Fail> {
    let alloc = rt.alloc();
    let mut edges = Edges::new(alloc);
    assert_eq!(rt; edges.upsert(3, true, 1, 2, 0, &mut one(alloc, 7)?)?, 0);
    assert_eq!(rt; edges.upsert(3, true, 2, 1, 0, &mut one(alloc, 8)?)?, 1);
    let copy = edges.duplicate()?;
    assert_eq!(rt; edges.upsert(3, true, 1, 2, 0, &mut one(alloc, 9)?)?, 0);
    assert_eq!(rt; weight(&edges, 0), Some(9));
    assert_eq!(rt; weight(&copy, 0), Some(7));
    Ok(())
}

// Adds an edge of a type that has rows; if an allocation fails, the table must be unchanged and accept it on a retry.
fn adds_or_stays(edges: &mut Edges, alloc: Global, to: u32) -> Result<bool, Fail>
    requires { naming_of edges.old.namings 3 ≡ Some (naming_with 3 true 0) }
    ensures { IfOk result (λ _. edges.new.namings ≡ edges.old.namings) }
{
    let (before, mut first, mut second) = (edges.len(), one(alloc, 1)?, one(alloc, 1)?);
    let added = edges.upsert(3, true, 1, to, 0, &mut first);
    if added.is_ok() {
        return Ok(edges.len() == before + 1);
    }
    let kept = edges.len() == before;
    let number = edges.upsert(3, true, 1, to, 0, &mut second)?;
    Ok(kept && number == before)
}

#[test]
fn a_refused_growth_leaves_the_table_as_it_was(rt: HostRuntime) -> Result<(), Fail> {
    let alloc = rt.alloc();
    let mut edges = Edges::new(alloc);
    edges.upsert(3, true, 1, 1, 0, &mut one(alloc, 1)?)?;
    assert!(rt; adds_or_stays(&mut edges, alloc, 2)?);
    assert!(rt; adds_or_stays(&mut edges, alloc, 3)?);
    assert!(rt; adds_or_stays(&mut edges, alloc, 4)?);
    assert!(rt; adds_or_stays(&mut edges, alloc, 5)?);
    assert_eq!(rt; edges.len(), 5);
    Ok(())
}
