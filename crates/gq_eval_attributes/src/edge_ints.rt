// INTs of edges.
ghost use Rattle.gq_rules_meaning.specs.States as states;
ghost use Rattle.gq_plan_ir.specs.ExprView.{field_of};
ghost use Rattle.gq_eval_attributes.specs.Reads.{IsReadInt};

use crate::edges::edge_row;
use crate::int_items::{int_at, place_in};
use gq_index::Graph;
use gq_plan_ir::Field;

/// The INT value of an edge's attribute, by the edge and the type under which it was walked. None if it isn't an INT,
/// or if the plan's table doesn't give its place. Takes no memory.
#[tactic(auto, using(crate::proofs::ReadLemmas::edge_laws))]
pub fn edge_int(graph: Graph<'_>, field: &Field, edge: u32, kind: u32) -> Option<i64>
    ensures { IsReadInt graph.entry (λ world. states.edge_field world (field_of field.now) edge kind) result }
{
    match field {
        Field::Type => None,
        Field::Named(places) => match place_in(&places.edges, kind) {
            None => None,
            Some(place) => match edge_row(&graph.store.edges, edge) {
                None => None,
                Some(row) => match graph.catalog.edge_by_number(kind) {
                    None => None,
                    Some(of) => int_at(&of.attributes, row, place),
                },
            },
        },
    }
}
