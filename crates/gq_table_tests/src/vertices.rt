use gq_base::{List, OutOfMemory};
use gq_value::{Row, Value};
use gq_vertex::Vertices;
use std::alloc::Global;
use std::test::Fail;

fn row(alloc: Global, n: i64) -> Result<Row, OutOfMemory> {
    let mut row = List::new(alloc);
    row.push(Value::Int(n))?;
    Ok(row)
}

#[test]
fn vertices_are_numbered_in_order_of_first_naming_over_all_types(
    rt: HostRuntime,
) -> Result<(), Fail> {
    let alloc = rt.alloc();
    let mut vertices = Vertices::new(alloc);
    for (number, kind, id) in [
        (0, 0, "a"),
        (1, 1, "a"),
        (2, 0, "b"),
        (0, 0, "a"),
        (1, 1, "a"),
        (3, 7, ""),
    ] {
        assert_eq!(rt; vertices.upsert(kind, id, &mut row(alloc, 0)?)?, number);
    }
    assert_eq!(rt; vertices.len(), 4);
    assert_eq!(rt; vertices.find(1, "a"), Some(1));
    assert_eq!(rt; vertices.find(1, "b"), None);
    Ok(())
}

#[test]
fn a_known_vertex_keeps_its_number(rt: HostRuntime) -> Result<(), Fail> {
    let alloc = rt.alloc();
    let mut vertices = Vertices::new(alloc);
    for (id, age) in [("a", 41), ("b", 17), ("d", 0), ("a", 42)] {
        vertices.upsert(0, id, &mut row(alloc, age)?)?;
    }
    assert_eq!(rt; vertices.len(), 3);
    assert_eq!(rt; vertices.find(0, "a"), Some(0));
    assert_eq!(rt; vertices.find(0, "d"), Some(2));
    Ok(())
}

#[test]
fn a_cut_frees_the_names_of_the_last_vertices(rt: HostRuntime) -> Result<(), Fail> {
    let alloc = rt.alloc();
    let mut vertices = Vertices::new(alloc);
    for n in 0..40u32 {
        let id = format!(in alloc; "v{n}")?;
        vertices.upsert(0, id.as_str(), &mut row(alloc, 0)?)?;
    }
    let copy = vertices.duplicate()?;
    if vertices.len() >= 10 {
        vertices.cut(10);
    }
    assert_eq!(rt; vertices.find(0, "v9"), Some(9));
    assert_eq!(rt; vertices.find(0, "v10"), None);
    assert_eq!(rt; vertices.upsert(0, "v30", &mut row(alloc, 5)?)?, 10);
    assert_eq!(rt; copy.find(0, "v30"), Some(30));
    Ok(())
}

// Adds a vertex; if an allocation fails, the table must be unchanged and accept the vertex on a retry.
fn adds_or_stays(vertices: &mut Vertices, alloc: Global, id: &str) -> Result<bool, Fail> {
    let (before, mut first, mut second) = (vertices.len(), row(alloc, 1)?, row(alloc, 1)?);
    let added = vertices.upsert(0, id, &mut first);
    if added.is_ok() {
        return Ok(vertices.len() == before + 1 && vertices.find(0, id) == Some(before));
    }
    let kept = vertices.len() == before && vertices.find(0, id).is_none();
    let number = vertices.upsert(0, id, &mut second)?;
    Ok(kept && number == before)
}

#[test]
fn a_refused_growth_leaves_the_table_as_it_was(rt: HostRuntime) -> Result<(), Fail> {
    let alloc = rt.alloc();
    let mut vertices = Vertices::new(alloc);
    for id in ["a", "b", "c", "d", "e"] {
        assert!(rt; adds_or_stays(&mut vertices, alloc, id)?);
    }
    assert_eq!(rt; vertices.find(0, "c"), Some(2));
    Ok(())
}
