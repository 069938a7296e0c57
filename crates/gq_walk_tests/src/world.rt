// Persons who know each other, for the tests of walks and of paths.
ghost use Rattle.std.specs.Prelude.{◌≡◌, All, true};
ghost use Rattle.gq_graph.specs.Defaults.{is_plain};
ghost use Rattle.gq_graph.specs.Edges.{Agrees, naming_with};

use gq_base::List;
use gq_edge::Edges;
use gq_graph::{Attributes, IdKind, IdShape, StoreFault};
use gq_index::{Store, VertexList};
use gq_schema::Catalog;
use gq_value::{Row, Txt};
use gq_vertex::Vertices;
use std::alloc::Global;
use std::test::Fail;

// Persons 0, 1 and so on, and edges of type 0 between them; type 1 is the reverse type if they are directed.
#[derive(Clone, Copy)]
pub(crate) struct Joined<'a> {
    pub(crate) directed: bool,
    pub(crate) persons: u32,
    pub(crate) pairs: &'a [(u32, u32)],
}

fn none(alloc: Global) -> Attributes
    ensures { All (λ a. is_plain a ≡ true) result }
{
    List::new(alloc)
}

fn declare(catalog: &mut Catalog, alloc: Global, directed: bool) -> Result<(), Fail> {
    let id = IdShape {
        name: Txt::of(alloc, "id")?,
        kind: IdKind::UInt,
        shown: false,
    };
    let none = none(alloc);
    let person = "person";
    let reverse = if directed { Some("known_by") } else { None };
    catalog.add_vertex_type(person, &id, &none)?;
    catalog.add_edge_type("knows", directed, person, person, reverse, &none, &none)?;
    Ok(())
}

pub(crate) fn catalog_of(alloc: Global, directed: bool) -> Result<Catalog, Fail> {
    let mut catalog = Catalog::new(alloc);
    declare(&mut catalog, alloc, directed)?;
    Ok(catalog)
}

fn fill(vertices: &mut Vertices, alloc: Global, persons: u32) -> Result<(), Fail> {
    for number in 0..persons {
        let name = number.to_string(alloc)?;
        vertices.upsert(0, name.as_str(), &mut List::new(alloc))?;
    }
    Ok(())
}

fn put(
    edges: &mut Edges,
    attributes: Row,
    directed: bool,
    from: u32,
    to: u32,
) -> Result<(), StoreFault>
    requires { Agrees edges.old.namings (naming_with 0 directed 0) }
    ensures { Agrees edges.new.namings (naming_with 0 directed 0) }
{
    let mut attributes = attributes;
    match edges.upsert(0, directed, from, to, 0, &mut attributes) {
        Ok(_) => Ok(()),
        Err(fault) => Err(fault),
    }
}

fn join(edges: &mut Edges, alloc: Global, joined: Joined<'_>) -> Result<(), Fail>
    requires { Agrees edges.old.namings (naming_with 0 joined.directed 0) }
{
    for (from, to) in joined.pairs {
        put(edges, List::new(alloc), joined.directed, *from, *to)?;
    }
    Ok(())
}

pub(crate) fn store_of(alloc: Global, joined: Joined<'_>) -> Result<Store, Fail> {
    let mut store = Store {
        vertices: Vertices::new(alloc),
        edges: Edges::new(alloc),
    };
    fill(&mut store.vertices, alloc, joined.persons)?;
    join(&mut store.edges, alloc, joined)?;
    Ok(store)
}

pub(crate) fn set_of(alloc: Global, numbers: &[u32]) -> Result<VertexList, Fail> {
    let mut set = VertexList::new(alloc);
    for number in numbers {
        if !set.contains(*number) {
            set.push(*number)?;
        }
    }
    Ok(set)
}
