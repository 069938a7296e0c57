// Fields of edges.
ghost use Rattle.std.specs.Prelude.{◌≡◌, IfOk, Some, slice_get};
ghost use Rattle.std.specs.Option.{option_copied, option_map};
ghost use Rattle.gq_rules_typing.specs.Sorts.{names_of, attribute_fields};
ghost use Rattle.gq_rules_typing.specs.Words.{OfEdgeType};
ghost use Rattle.gq_rules_meaning.specs.States as states;
ghost use Rattle.gq_plan_ir.specs.ExprView.{field_of};
ghost use Rattle.gq_plan_ir.specs.References.{place_in};
ghost use Rattle.gq_eval_operand.specs.Meant.{meant, Tells};
ghost use Rattle.gq_eval_operand.specs.Sound.{Sound};
ghost use Rattle.gq_eval_attributes.specs.Attributes.{attribute_at, attributes_of};
ghost use Rattle.gq_eval_attributes.specs.Worlds.{InWorld};

use crate::int_items::value_in;
use crate::names::attribute_place;
use gq_edge::Edges;
use gq_eval_operand::{Halt, Operand, Seen, Sort};
use gq_graph::EdgeType;
use gq_index::Graph;
use gq_plan_ir::{Field, FieldPlaces};
use gq_value::Value;

/// `e.f`: an attribute of an edge, or the name of the type under which it was walked. Takes no memory.
#[tactic(auto, using(crate::proofs::EdgeLemmas::field_laws))]
pub fn edge_field<'a>(
    graph: Graph<'a>,
    field: &Field,
    edge: u32,
    kind: u32,
) -> Result<Seen<'a>, Halt>
    ensures told { InWorld graph.entry (λ world. states.edge_field world (field_of field.now) edge kind) result }
    ensures sound { IfOk result Sound }
{
    match graph.catalog.edge_by_number(kind) {
        None => Err(Halt::Stuck),
        Some(of) => match field {
            Field::Type => Ok(Seen::Value(Sort::Text, Operand::Text(of.name.as_str()))),
            Field::Named(places) => match edge_row(&graph.store.edges, edge) {
                None => Err(Halt::Stuck),
                Some(row) => {
                    let place = place_of_field(places, of, kind);
                    attribute(of, row, place)
                }
            },
        },
    }
}

/// The attributes of an edge by its number, if there is one.
pub(crate) fn edge_row(edges: &Edges, edge: u32) -> Option<&[Value]>
    ensures { option_map attributes_of (slice_get edges.now.rows edge) ≡ option_copied result }
{
    if edge < edges.len() {
        return Some(edges.attributes(edge));
    }
    None
}

/// The place of a field among those of an edge type: from the plan, or by its name.
fn place_of_field(places: &FieldPlaces, of: &EdgeType, kind: u32) -> Option<usize>
    ensures { result ≡ place_in places.now (OfEdgeType kind) (names_of (attribute_fields of.now.attributes)) }
{
    match places.edges.get(kind as usize) {
        None => attribute_place(of.attributes.as_slice(), places.name.as_str()),
        Some(None) => None,
        Some(Some(place)) => Some(*place as usize),
    }
}

/// The attribute at a place of an edge of a type.
#[tactic(auto, using(crate::proofs::EdgeLemmas::value_laws))]
fn attribute<'a>(of: &'a EdgeType, row: &'a [Value], place: Option<usize>) -> Result<Seen<'a>, Halt>
    ensures told { Tells meant (attribute_at of.entry.now.attributes row.entry.now place) result }
    ensures sound { IfOk result Sound }
{
    match place {
        None => Err(Halt::Stuck),
        Some(place) => match of.attributes.get(place) {
            None => Err(Halt::Stuck),
            Some(attribute) => match value_in(row, place) {
                None => Err(Halt::Stuck),
                Some(value) => Ok(Seen::Value(Sort::of(&attribute.kind), Operand::Lent(value))),
            },
        },
    }
}
