// The types that rows are loaded into.
ghost use Rattle.std.specs.Prelude.{◌≡◌, ◌<◌, ◌≤◌, length};
ghost use Rattle.gq_load_check.specs.Lines as view;
ghost use Rattle.gq_load_check.specs.Targets as spec;

use crate::job::Target;
use gq_graph::{Attribute, EdgeType, GraphType, Numbers, VertexType};
use gq_schema::Catalog;
use gq_tree::Table;

/// Returns a vertex type by number.
pub fn vertex_type_at(catalog: &Catalog, number: u32) -> &VertexType
    requires { number < length catalog.now.vertex_types }
    ensures { result.now ≡ spec.vertex_type_at catalog.now number }
{
    catalog.vertex_at(number)
}

/// Returns an edge type by number.
pub fn edge_type_at(catalog: &Catalog, number: u32) -> &EdgeType
    requires { number < length catalog.now.edge_types }
    ensures { result.now ≡ spec.edge_type_at catalog.now number }
{
    catalog.edge_at(number)
}

pub(crate) fn graph_at(catalog: &Catalog, number: u32) -> &GraphType
    requires { number < length catalog.now.graphs }
    ensures { result.now ≡ spec.graph_at catalog.now number }
{
    catalog.graph_at(number)
}

fn has(numbers: &Numbers, number: u32) -> bool
    ensures { result ≡ view.has numbers.now number }
{
    numbers.as_slice().contains(&number)
}

fn vertex_target(graph: &GraphType, number: u32) -> Option<Target>
    ensures { result ≡ view.vertex_target graph.now (Some number) }
{
    if has(&graph.vertices, number) {
        Some(Target::Vertex(number))
    } else {
        None
    }
}

fn edge_target(catalog: &Catalog, graph: &GraphType, number: u32) -> Option<Target>
    requires { number < length catalog.now.edge_types }
    ensures { result ≡ view.edge_target catalog.now graph.now (Some number) }
{
    if has(&graph.edges, number) && edge_type_at(catalog, number).forward.is_none() {
        Some(Target::Edge(number))
    } else {
        None
    }
}

/// Returns the type of the graph that a destination names.
pub(crate) fn target_of(
    catalog: &Catalog,
    graph: &GraphType,
    table: Table,
    name: &str,
) -> Option<Target>
    ensures { result ≡ view.target_of catalog.now graph.now table name.now }
{
    match table {
        Table::Vertex => match catalog.vertex_type(name) {
            Some(number) => vertex_target(graph, number),
            None => None,
        },
        Table::Edge => match catalog.edge_type(name) {
            Some(number) => edge_target(catalog, graph, number),
            None => None,
        },
    }
}

/// Returns the attributes of a type.
pub fn attributes_of(catalog: &Catalog, target: Target) -> &[Attribute]
    requires { spec.HasTarget catalog.now target }
    ensures { result.now ≡ spec.attributes_of catalog.now target }
{
    match target {
        Target::Vertex(number) => vertex_type_at(catalog, number).attributes.as_slice(),
        Target::Edge(number) => edge_type_at(catalog, number).attributes.as_slice(),
    }
}

/// Returns the number of ids of a row: one for a vertex, two for an edge.
pub fn id_count(target: Target) -> usize
    ensures value { result ≡ spec.id_count target }
    ensures few { result ≤ 2 }
{
    match target {
        Target::Vertex(_) => 1,
        Target::Edge(_) => 2,
    }
}

/// Returns the number of discriminators that identify a row besides its ids.
pub fn key_count(catalog: &Catalog, target: Target) -> usize
    requires { spec.HasTarget catalog.now target }
    ensures value { result ≡ spec.key_count catalog.now target }
    ensures few { result < 4294967296 }
{
    match target {
        Target::Vertex(_) => 0,
        Target::Edge(number) => edge_type_at(catalog, number).discriminators as usize,
    }
}

/// Returns the number of values of a row of the type.
pub fn value_count(catalog: &Catalog, target: Target) -> usize
    requires { spec.HasTarget catalog.now target }
    ensures { result ≡ spec.value_count catalog.now target }
{
    id_count(target) + attributes_of(catalog, target).len()
}

/// Returns the number of leading values that are ids or discriminators.
pub(crate) fn name_count(catalog: &Catalog, target: Target) -> usize
    requires { spec.HasTarget catalog.now target }
    ensures { result ≡ spec.name_count catalog.now target }
{
    id_count(target) + key_count(catalog, target)
}
