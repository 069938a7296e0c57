// Fields of vertices.
ghost use Rattle.std.specs.Prelude.{◌≡◌, ◌<◌, ◌≤◌, IfOk, Some, length};
ghost use Rattle.gq_graph.specs.Vertices.{vertex_at};
ghost use Rattle.gq_index.specs.Rows.{HaveAttributes, IsId};
ghost use Rattle.gq_rules_typing.specs.Sorts.{names_of, vertex_sort};
ghost use Rattle.gq_rules_typing.specs.Words.{OfVertexType};
ghost use Rattle.gq_rules_meaning.specs.States as states;
ghost use Rattle.gq_plan_ir.specs.ExprView.{field_of};
ghost use Rattle.gq_plan_ir.specs.References.{place_in};
ghost use Rattle.gq_eval_operand.specs.Meant.{meant, Tells};
ghost use Rattle.gq_eval_operand.specs.Sound.{Sound};
ghost use Rattle.gq_eval_attributes.specs.Attributes.{attribute_at, vertex_value};
ghost use Rattle.gq_eval_attributes.specs.Worlds.{InWorld};

use crate::ids::id_value;
use crate::names::vertex_place;
use gq_eval_operand::{Halt, Operand, Seen, Sort};
use gq_graph::VertexType;
use gq_index::Graph;
use gq_plan_ir::{Field, FieldPlaces};
use gq_vertex::Vertices;

/// `v.f`: an attribute of a vertex, or the name of its type. Takes no memory.
#[tactic(auto, using(crate::proofs::VertexLemmas::field_laws))]
pub fn vertex_field<'a>(graph: Graph<'a>, field: &Field, vertex: u32) -> Result<Seen<'a>, Halt>
    requires { HaveAttributes graph.catalog.now graph.store.now.vertices }
    ensures told { InWorld graph.entry (λ world. states.vertex_field world (field_of field.now) vertex) result }
    ensures sound { IfOk result Sound }
{
    let vertices = &graph.store.vertices;
    if vertex >= vertices.len() {
        return Err(Halt::Stuck);
    }
    let kind = vertices.kind(vertex);
    match graph.catalog.vertex_by_number(kind) {
        None => Err(Halt::Stuck),
        Some(of) => match field {
            Field::Type => Ok(Seen::Value(Sort::Text, Operand::Text(of.name.as_str()))),
            Field::Named(places) => match place_of_field(places, of, kind) {
                None => Err(Halt::Stuck),
                Some(place) => value_at(vertices, of, vertex, place),
            },
        },
    }
}

/// The place of a field among those of a vertex type: from the plan, or by its name.
fn place_of_field(places: &FieldPlaces, of: &VertexType, kind: u32) -> Option<usize>
    ensures { result ≡ place_in places.now (OfVertexType kind) (names_of (vertex_sort of.now).fields) }
{
    match places.vertices.get(kind as usize) {
        None => vertex_place(of, places.name.as_str()),
        Some(None) => None,
        Some(Some(place)) => Some(*place as usize),
    }
}

/// The field at a place of a vertex of a type: a shown id comes before the attributes.
#[tactic(auto, using(crate::proofs::VertexLemmas::value_laws))]
fn value_at<'a>(
    vertices: &'a Vertices,
    of: &'a VertexType,
    vertex: u32,
    place: usize,
) -> Result<Seen<'a>, Halt>
    requires there { vertex < length vertices.now }
    requires within { length of.now.attributes ≤ length (vertex_at vertices.now vertex).attributes }
    requires id { IsId of.now.id.kind (vertex_at vertices.now vertex).id }
    ensures told { Tells meant (vertex_value of.entry.now (vertex_at vertices.entry.now vertex) (Some place)) result }
    ensures sound { IfOk result Sound }
{
    if !of.id.shown {
        return attribute(vertices, of, vertex, place);
    }
    if place == 0 {
        return Ok(id_value(&of.id, vertices.id(vertex)));
    }
    attribute(vertices, of, vertex, place - 1)
}

/// The attribute at a place of a vertex of a type.
#[tactic(auto, using(crate::proofs::VertexLemmas::attribute_laws))]
fn attribute<'a>(
    vertices: &'a Vertices,
    of: &'a VertexType,
    vertex: u32,
    place: usize,
) -> Result<Seen<'a>, Halt>
    requires there { vertex < length vertices.now }
    requires within { length of.now.attributes ≤ length (vertex_at vertices.now vertex).attributes }
    ensures told { Tells meant (attribute_at of.entry.now.attributes (vertex_at vertices.entry.now vertex).attributes (Some place)) result }
    ensures sound { IfOk result Sound }
{
    match of.attributes.get(place) {
        None => Err(Halt::Stuck),
        Some(attribute) => Ok(Seen::Value(
            Sort::of(&attribute.kind),
            Operand::Lent(vertices.value(vertex, place)),
        )),
    }
}
