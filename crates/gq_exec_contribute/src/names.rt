// Reads names and fields.
ghost use Rattle.std.specs.Prelude.{◌≡◌, IfSome, Some, slice_get, true};
ghost use Rattle.std.specs.Option.{option_flatten};
ghost use Rattle.gq_value.specs.Val.{Int, Truth};
ghost use Rattle.gq_value.specs.Views.{val};
ghost use Rattle.gq_graph.specs.declared.types.IdKind.TheVariants as id_kind;
ghost use Rattle.gq_tree.specs.Tree as tree;
ghost use Rattle.gq_rules_calendar.specs.Gregorian.{gregorian};
ghost use Rattle.gq_rules_meaning.specs.Answers.{Gives};
ghost use Rattle.gq_rules_meaning.specs.States as states;
ghost use Rattle.gq_plan_ir.specs.ExprView.{field_of};
ghost use Rattle.gq_eval_attributes.specs.Reads.{IsReadInt};
ghost use Rattle.gq_index.specs.Rows.{HaveAttributes};
ghost use Rattle.gq_exec_contribute.specs.Prepared.{IsEdge, IsHeld, IsHeldInt, IsHeldTruth, IsVertex, NoAlias, is_at, part_value, sees_in};

use crate::inputs::int_seen;
use crate::leaves::Leaves;
use gq_eval_attributes::{edge_int, integer_in, vertex_field, vertex_int};
use gq_eval_context::BlockContext;
use gq_frame::{Accums, Thing};
use gq_graph::{Candidate, IdKind, IdShape};
use gq_index::Graph;
use gq_plan_ir::{Field, FieldPlaces};
use gq_value::Value;

/// Whether an alias has this place.
pub(crate) fn is_at(alias: Option<u32>, place: u32) -> bool
    ensures { result ≡ is_at alias place }
{
    match alias {
        Some(other) => other == place,
        None => false,
    }
}

/// The vertex that a name is bound to. Of aliases with the same place the target's comes first, then the edge's.
#[tactic(auto, using(crate::proofs::NameLemmas::vertex_laws))]
pub(crate) fn vertex_at(leaves: &Leaves<'_>, c: &Candidate, place: u32) -> Option<u32>
    ensures { IfSome result (IsVertex leaves.now c.now place) }
{
    if is_at(leaves.ends.target.alias, place) {
        return c.target;
    }
    if is_at(leaves.edge, place) {
        return None;
    }
    if is_at(leaves.ends.source.alias, place) {
        return Some(c.source);
    }
    None
}

/// Whether a name is the alias of the edge.
fn is_edge(leaves: &Leaves<'_>, place: u32) -> bool
    ensures { result ≡ true → IsEdge leaves.now place }
{
    if is_at(leaves.ends.target.alias, place) {
        return false;
    }
    is_at(leaves.edge, place)
}

/// Reads an INT field of the vertex or edge that a name is bound to.
pub(crate) fn field_int(
    field: &Field,
    over: &BlockContext<'_>,
    leaves: &Leaves<'_>,
    accums: &Accums,
    c: &Candidate,
    place: u32,
) -> Option<i64>
    ensures { IfSome result (λ x. part_value (sees_in gregorian over.now leaves.now accums.now c.now) place (tree.Field (field_of field.now)) ≡ Gives (Int x)) }
{
    match vertex_at(leaves, c, place) {
        Some(vertex) => vertex_field_int(over.graph, field, vertex),
        None => edge_field(field, over, leaves, accums, c, place),
    }
}

/// Reads an INT field of a vertex: an attribute, or its id.
fn vertex_field_int(graph: Graph<'_>, field: &Field, vertex: u32) -> Option<i64>
    requires { HaveAttributes graph.catalog.now graph.store.now.vertices }
    ensures { IsReadInt graph.entry (λ world. states.vertex_field world (field_of field.now) vertex) result }
{
    match vertex_int(graph, field, vertex) {
        Some(x) => Some(x),
        None => match id_int(graph, field, vertex) {
            Some(x) => Some(x),
            None => other_int(graph, field, vertex),
        },
    }
}

/// Reads the INT id of a vertex, if the plan says that the field is the first one of its type.
#[tactic(auto, using(crate::proofs::IdLemmas::id_laws))]
fn id_int(graph: Graph<'_>, field: &Field, vertex: u32) -> Option<i64>
    ensures { IsReadInt graph.entry (λ world. states.vertex_field world (field_of field.now) vertex) result }
{
    let vertices = &graph.store.vertices;
    if vertex >= vertices.len() {
        return None;
    }
    let kind = vertices.kind(vertex);
    match field {
        Field::Type => None,
        Field::Named(places) => match graph.catalog.vertex_by_number(kind) {
            None => None,
            Some(of) => {
                if is_first(places, kind) && is_shown_int(&of.id) {
                    integer_in(vertices.id(vertex).as_bytes())
                } else {
                    None
                }
            }
        },
    }
}

/// Whether the plan says that a field is the first one of a vertex type.
fn is_first(places: &FieldPlaces, kind: u32) -> bool
    ensures { result ≡ true → Some 0 ≡ option_flatten (slice_get places.now.vertices kind) }
{
    match places.vertices.get(kind as usize) {
        Some(Some(place)) => *place == 0,
        Some(None) | None => false,
    }
}

/// Whether ids are INTs, and attributes too.
fn is_shown_int(id: &IdShape) -> bool
    ensures { result ≡ true → (id.now.shown ≡ true) × (id.now.kind ≡ id_kind.Int) }
{
    match id.kind {
        IdKind::Int => id.shown,
        IdKind::Text | IdKind::UInt => false,
    }
}

/// Reads an INT field of a vertex in the general way.
#[tactic(auto, using(crate::proofs::NameLemmas::field_laws))]
fn other_int(graph: Graph<'_>, field: &Field, vertex: u32) -> Option<i64>
    requires { HaveAttributes graph.catalog.now graph.store.now.vertices }
    ensures { IsReadInt graph.entry (λ world. states.vertex_field world (field_of field.now) vertex) result }
{
    match vertex_field(graph, field, vertex) {
        Ok(seen) => int_seen(&seen),
        Err(_) => None,
    }
}

/// Reads an INT field of the candidate's edge.
fn edge_field(
    field: &Field,
    over: &BlockContext<'_>,
    leaves: &Leaves<'_>,
    accums: &Accums,
    c: &Candidate,
    place: u32,
) -> Option<i64>
    ensures { IfSome result (λ x. part_value (sees_in gregorian over.now leaves.now accums.now c.now) place (tree.Field (field_of field.now)) ≡ Gives (Int x)) }
{
    if !is_edge(leaves, place) {
        return None;
    }
    match c.edge {
        None => None,
        Some(edge) => match c.kind {
            None => None,
            Some(kind) => edge_int(over.graph, field, edge, kind),
        },
    }
}

/// Whether a name isn't an alias.
fn is_no_alias(leaves: &Leaves<'_>, place: u32) -> bool
    ensures { result ≡ true → NoAlias leaves.now place }
{
    if is_at(leaves.ends.target.alias, place) {
        return false;
    }
    if is_at(leaves.edge, place) {
        return false;
    }
    !is_at(leaves.ends.source.alias, place)
}

/// The value of the variable at a place that isn't an alias.
fn variable<'a>(over: &'a BlockContext<'_>, leaves: &Leaves<'_>, place: u32) -> Option<&'a Value>
    ensures { IfSome result (λ value. IsHeld over.entry.now leaves.now place value.now) }
{
    if !is_no_alias(leaves, place) {
        return None;
    }
    match over.frame.things.get(place as usize) {
        Some(Some(Thing::Value(_base, value))) => Some(value),
        _ => None,
    }
}

/// Reads an INT variable.
#[tactic(auto, using(crate::proofs::NameLemmas::variable_laws))]
pub(crate) fn variable_int(over: &BlockContext<'_>, leaves: &Leaves<'_>, place: u32) -> Option<i64>
    ensures { IfSome result (IsHeldInt over.now leaves.now place) }
{
    match variable(over, leaves, place) {
        None => None,
        Some(value) => int_of_value(value),
    }
}

#[tactic(auto, using(gq_value::specs::ViewLaws::view_laws))]
fn int_of_value(value: &Value) -> Option<i64>
    ensures { IfSome result (λ x. val value.now ≡ Int x) }
{
    match value {
        Value::Int(x) => Some(*x),
        _ => None,
    }
}

/// Reads a BOOL variable.
#[tactic(auto, using(crate::proofs::NameLemmas::variable_laws))]
pub(crate) fn variable_truth(
    over: &BlockContext<'_>,
    leaves: &Leaves<'_>,
    place: u32,
) -> Option<bool>
    ensures { IfSome result (IsHeldTruth over.now leaves.now place) }
{
    match variable(over, leaves, place) {
        None => None,
        Some(value) => truth_of_value(value),
    }
}

#[tactic(auto, using(gq_value::specs::ViewLaws::view_laws))]
fn truth_of_value(value: &Value) -> Option<bool>
    ensures { IfSome result (λ b. val value.now ≡ Truth b) }
{
    match value {
        Value::Bool(truth) => Some(*truth),
        _ => None,
    }
}
