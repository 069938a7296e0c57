ghost use Rattle.std.specs.Prelude.{◌≡◌, All, true};
ghost use Rattle.gq_graph.specs.Defaults.{is_plain};

use gq_base::{List, OutOfMemory};
use gq_graph::{Attributes, IdKind, IdShape, Names};
use gq_schema::{Catalog, SchemaFault};
use gq_value::Txt;
use std::alloc::Global;
use std::test::Fail;

// Each helper borrows the catalog, and each test owns one and does little: proofs of tests grow with what a return
// drops.

fn none(alloc: Global) -> Attributes
    ensures { All (λ a. is_plain a ≡ true) result }
{
    List::new(alloc)
}

fn names(alloc: Global, list: &[&str]) -> Result<Names, OutOfMemory> {
    let mut names = List::new(alloc);
    for name in list {
        names.push(Txt::of(alloc, name)?)?;
    }
    Ok(names)
}

// A vertex type with a shown id, and without attributes.
fn vertex(catalog: &mut Catalog, alloc: Global, name: &str) -> Result<u32, SchemaFault> {
    let id = IdShape {
        name: Txt::of(alloc, "id")?,
        kind: IdKind::Text,
        shown: true,
    };
    let none = none(alloc);
    catalog.add_vertex_type(name, &id, &none)
}

// A directed edge type without attributes.
fn edge(
    catalog: &mut Catalog,
    alloc: Global,
    name: &str,
    to: &str,
    reverse: Option<&str>,
) -> Result<u32, SchemaFault> {
    let none = none(alloc);
    catalog.add_edge_type(name, true, "person", to, reverse, &none, &none)
}

// Persons who know each other and live in towns.
fn fill(catalog: &mut Catalog, alloc: Global) -> Result<(), SchemaFault> {
    vertex(catalog, alloc, "person")?;
    vertex(catalog, alloc, "town")?;
    edge(catalog, alloc, "knows", "person", Some("known_by"))?;
    edge(catalog, alloc, "lives", "town", None)?;
    Ok(())
}

// Whether there is no room among the types for an edge type.
fn has_no_room(catalog: &mut Catalog, alloc: Global, reverse: Option<&str>) -> bool {
    matches!(
        edge(catalog, alloc, "x", "v0", reverse),
        Err(SchemaFault::TooMany)
    )
}

#[test]
fn a_reverse_type_stands_directly_behind_its_forward_type(rt: HostRuntime) -> Result<(), Fail> {
    let mut catalog = Catalog::new(rt.alloc());
    fill(&mut catalog, rt.alloc())?;
    assert!(rt; catalog.edge_type("knows") == Some(0) && catalog.edge_type("known_by") == Some(1));
    assert!(rt; catalog.edge_type("lives") == Some(2) && catalog.type_count() == 5);
    Ok(())
}

#[test]
fn a_graph_takes_both_types_of_a_pair_once(rt: HostRuntime) -> Result<(), Fail> {
    let alloc = rt.alloc();
    let mut catalog = Catalog::new(alloc);
    fill(&mut catalog, alloc)?;
    let members = names(alloc, &["person", "known_by", "person", "knows"])?;
    let number = catalog.add_graph("g", Some(&members))?;
    let graph = catalog.graph_at(number);
    assert!(rt; graph.vertices.as_slice() == [0].as_slice());
    assert!(rt; graph.edges.as_slice() == [0, 1].as_slice());
    Ok(())
}

// Whether a graph of these types lacks an end of one of them.
fn lacks_an_end(
    catalog: &mut Catalog,
    alloc: Global,
    members: &[&str],
) -> Result<bool, OutOfMemory> {
    let members = names(alloc, members)?;
    Ok(matches!(
        catalog.add_graph("g", Some(&members)),
        Err(SchemaFault::NoSuchType(_))
    ))
}

#[test]
fn a_graph_is_refused_for_a_missing_end(rt: HostRuntime) -> Result<(), Fail> {
    let alloc = rt.alloc();
    let mut catalog = Catalog::new(alloc);
    fill(&mut catalog, alloc)?;
    assert!(rt; lacks_an_end(&mut catalog, alloc, &["person", "lives"])?);
    Ok(())
}

fn fill_with(catalog: &mut Catalog, alloc: Global, count: u32) -> Result<(), Fail> {
    for n in 0..count {
        let name = format!(in alloc; "v{n}")?;
        vertex(catalog, alloc, name.as_str())?;
    }
    Ok(())
}

#[test]
fn there_are_256_types_at_most(rt: HostRuntime) -> Result<(), Fail> {
    let alloc = rt.alloc();
    let mut catalog = Catalog::new(alloc);
    vertex(&mut catalog, alloc, "person")?;
    fill_with(&mut catalog, alloc, 254)?;
    assert!(rt; has_no_room(&mut catalog, alloc, Some("r")));
    assert_eq!(rt; edge(&mut catalog, alloc, "e", "v0", None)?, 0);
    assert!(rt; has_no_room(&mut catalog, alloc, None));
    Ok(())
}

fn is_vertex_added(catalog: &mut Catalog, alloc: Global, name: &str) -> bool {
    vertex(catalog, alloc, name).is_ok()
}

// Adds a vertex type; if an allocation fails, the catalog must be unchanged and accept the type on a retry.
fn adds_or_stays(catalog: &mut Catalog, alloc: Global, name: &str) -> bool {
    let before = catalog.type_count();
    if is_vertex_added(catalog, alloc, name) {
        return catalog.type_count() == before + 1;
    }
    let kept = catalog.type_count() == before && catalog.vertex_type(name).is_none();
    let again = is_vertex_added(catalog, alloc, name);
    kept && again && catalog.type_count() == before + 1
}

fn is_pair_added(catalog: &mut Catalog, alloc: Global) -> bool {
    edge(catalog, alloc, "knows", "person", Some("known_by")).is_ok()
}

// The same for an edge type with its reverse type.
fn adds_pair_or_stays(catalog: &mut Catalog, alloc: Global) -> bool {
    if is_pair_added(catalog, alloc) {
        return catalog.edge_type("known_by") == Some(1);
    }
    let kept = catalog.edge_type("knows").is_none() && catalog.edge_type("known_by").is_none();
    kept && is_pair_added(catalog, alloc)
}

#[test]
fn a_refused_growth_leaves_the_catalog_as_it_was(rt: HostRuntime) -> Result<(), Fail> {
    let alloc = rt.alloc();
    let mut catalog = Catalog::new(alloc);
    assert!(rt; adds_or_stays(&mut catalog, alloc, "person"));
    assert!(rt; adds_or_stays(&mut catalog, alloc, "town"));
    assert!(rt; adds_pair_or_stays(&mut catalog, alloc));
    assert_eq!(rt; catalog.type_count(), 4);
    Ok(())
}
