// INTs of vertices.
ghost use Rattle.std.specs.Prelude.{◌≡◌, ◌<◌, ◌≤◌, IfSome, Some, length};
ghost use Rattle.gq_value.specs.Val.{Int};
ghost use Rattle.gq_graph.specs.Vertices.{vertex_at};
ghost use Rattle.gq_graph.specs.declared.rows.VertexRow.{VertexRow};
ghost use Rattle.gq_index.specs.Rows.{HaveAttributes};
ghost use Rattle.gq_rules_meaning.specs.Answers.{Gives};
ghost use Rattle.gq_rules_meaning.specs.States as states;
ghost use Rattle.gq_plan_ir.specs.ExprView.{field_of};
ghost use Rattle.gq_eval_attributes.specs.Attributes.{attribute_at, vertex_value};
ghost use Rattle.gq_eval_attributes.specs.Reads.{value_meant, IsReadInt};

use crate::int_items::place_in;
use gq_graph::VertexType;
use gq_index::Graph;
use gq_plan_ir::Field;
use gq_value::Value;
use gq_vertex::Vertices;

/// The INT value of a vertex's attribute. None if it isn't an INT, if the plan's table doesn't give its place, and for
/// an id. Takes no memory.
#[tactic(auto, using(crate::proofs::VertexReads::vertex_laws))]
pub fn vertex_int(graph: Graph<'_>, field: &Field, vertex: u32) -> Option<i64>
    requires { HaveAttributes graph.catalog.now graph.store.now.vertices }
    ensures { IsReadInt graph.entry (λ world. states.vertex_field world (field_of field.now) vertex) result }
{
    let vertices = &graph.store.vertices;
    if vertex >= vertices.len() {
        return None;
    }
    let kind = vertices.kind(vertex);
    match field {
        Field::Type => None,
        Field::Named(places) => match place_in(&places.vertices, kind) {
            None => None,
            Some(place) => match graph.catalog.vertex_by_number(kind) {
                None => None,
                Some(of) => match among_attributes(of, place) {
                    None => None,
                    Some(at) => attribute_int(vertices, of, vertex, at),
                },
            },
        },
    }
}

/// Converts a place among the fields of a type to one among its attributes: a shown id comes before the attributes.
#[tactic(auto, using(crate::proofs::VertexReads::place_laws))]
fn among_attributes(of: &VertexType, place: u32) -> Option<u32>
    ensures { IfSome result (λ at. (row : VertexRow) → vertex_value of.now row (Some place) ≡ attribute_at of.now.attributes row.attributes (Some at)) }
{
    if of.id.shown {
        place.checked_sub(1)
    } else {
        Some(place)
    }
}

/// The INT value of the attribute at a place of a vertex of a type.
#[tactic(auto, using(crate::proofs::VertexReads::attribute_laws))]
fn attribute_int(vertices: &Vertices, of: &VertexType, vertex: u32, place: u32) -> Option<i64>
    requires there { vertex < length vertices.now }
    requires within { length of.now.attributes ≤ length (vertex_at vertices.now vertex).attributes }
    ensures { IfSome result (λ x. value_meant (attribute_at of.now.attributes (vertex_at vertices.now vertex).attributes (Some place)) ≡ Gives (Int x)) }
{
    match of.attributes.get(place as usize) {
        None => None,
        Some(_) => match vertices.attr(vertex, place) {
            Value::Int(x) => Some(*x),
            _ => None,
        },
    }
}
