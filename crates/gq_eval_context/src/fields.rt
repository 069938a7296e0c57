// Fields of the value before a dot.
ghost use Rattle.std.specs.Prelude.{◌≡◌, IfOk, map, slice_get};
ghost use Rattle.std.specs.Option.{option_copied};
ghost use Rattle.gq_value.specs.Views.{val};
ghost use Rattle.gq_index.specs.Rows.{HaveAttributes};
ghost use Rattle.gq_rules_meaning.specs.Meanings.{Is};
ghost use Rattle.gq_rules_meaning.specs.States as states;
ghost use Rattle.gq_plan_ir.specs.ExprView.{field_of};
ghost use Rattle.gq_eval_operand.specs.Meant.{meant, valued, sort_is, Tells};
ghost use Rattle.gq_eval_operand.specs.Sound.{Sound};
ghost use Rattle.gq_eval_context.specs.FieldReads.{Reads, tuple_read};

use gq_eval_attributes::{
    TupleType, edge_field, made_field, opening_part, row_part, tuple_field, vertex_field,
};
use gq_eval_operand::{Halt, Operand, Seen, Sort};
use gq_index::Graph;
use gq_plan_ir::Field;
use gq_value::{Row, Value};
use std::alloc::Global;

/// The field of the value before a dot.
#[tactic(auto, using(crate::proofs::FieldLemmas::seen_laws))]
pub(crate) fn field_seen<'v>(
    alloc: Global,
    graph: Graph<'v>,
    tuples: &'v [TupleType],
    of: Seen<'v>,
    field: &Field,
) -> Result<Seen<'v>, Halt>
    requires sound { Sound of }
    requires attributes { HaveAttributes graph.catalog.now graph.store.now.vertices }
    ensures seen { Reads graph.entry tuples.entry.now (λ world. states.field_of world (meant of.entry) (field_of field.now)) result }
    ensures sound { IfOk result Sound }
{
    match of {
        Seen::Value(sort, operand) => of_value(alloc, graph, tuples, sort, operand, field),
        Seen::Member(_, _, vertex) => vertex_field(graph, field, vertex),
        Seen::Edge(edge, kind) => edge_field(graph, field, edge, kind),
        Seen::Row(shape, content, row) => row_part(shape, content, &row, field),
        Seen::OpeningRow(shape) => opening_part(shape, field),
        Seen::Average(_) | Seen::Set(_) => Err(Halt::Stuck),
        Seen::Whole(_, _) | Seen::Opening(_) => Err(Halt::Stuck),
    }
}

/// The field of a value: of a vertex or a tuple.
#[tactic(auto, using(gq_value::specs::ViewLaws::view_laws, crate::proofs::FieldLemmas::value_laws))]
fn of_value<'v>(
    alloc: Global,
    graph: Graph<'v>,
    tuples: &'v [TupleType],
    sort: Sort<'v>,
    operand: Operand<'v>,
    field: &Field,
) -> Result<Seen<'v>, Halt>
    requires { HaveAttributes graph.catalog.now graph.store.now.vertices }
    ensures seen { Reads graph.entry tuples.entry.now (λ world. states.field_of world (Is (sort_is sort.entry) (valued operand.entry)) (field_of field.now)) result }
    ensures sound { IfOk result Sound }
{
    match operand {
        Operand::Text(_) | Operand::Joined(_) => Err(Halt::Stuck),
        Operand::Lent(value) => match value {
            Value::Vertex(vertex) => vertex_field(graph, field, *vertex),
            Value::Tuple(row) => of_tuple(tuples, sort, row.as_slice(), field),
            Value::Int(_) | Value::UInt(_) | Value::Bool(_) => Err(Halt::Stuck),
            Value::Text(_) | Value::Fraction(_) => Err(Halt::Stuck),
        },
        Operand::Made(value) => match value {
            Value::Vertex(vertex) => vertex_field(graph, field, vertex),
            Value::Tuple(row) => of_made(alloc, tuples, sort, &row, field),
            Value::Int(_) | Value::UInt(_) | Value::Bool(_) => Err(Halt::Stuck),
            Value::Text(_) | Value::Fraction(_) => Err(Halt::Stuck),
        },
    }
}

/// The field of a borrowed tuple.
#[tactic(auto, using(crate::proofs::FieldLemmas::tuple_laws))]
fn of_tuple<'v>(
    tuples: &'v [TupleType],
    sort: Sort<'v>,
    row: &'v [Value],
    field: &Field,
) -> Result<Seen<'v>, Halt>
    ensures seen { Tells meant (tuple_read tuples.entry.now (sort_is sort.entry) (map val row.entry.now) (field_of field.now)) result }
    ensures sound { IfOk result Sound }
{
    match sort {
        Sort::Tuple(number, _) => match tuple_type(tuples, number) {
            Some(of) => tuple_field(of, number, row, field),
            None => Err(Halt::Stuck),
        },
        Sort::Int | Sort::UInt | Sort::Bool | Sort::Text | Sort::Time => Err(Halt::Stuck),
        Sort::AnyVertex | Sort::VertexOf(_) => Err(Halt::Stuck),
    }
}

/// The field of an owned tuple.
#[tactic(auto, using(crate::proofs::FieldLemmas::tuple_laws))]
fn of_made<'v>(
    alloc: Global,
    tuples: &'v [TupleType],
    sort: Sort<'v>,
    row: &Row,
    field: &Field,
) -> Result<Seen<'v>, Halt>
    ensures seen { Tells meant (tuple_read tuples.entry.now (sort_is sort.entry) (map val row.now) (field_of field.now)) result }
    ensures sound { IfOk result Sound }
{
    match sort {
        Sort::Tuple(number, _) => match tuple_type(tuples, number) {
            Some(of) => made_field(alloc, of, number, row, field),
            None => Err(Halt::Stuck),
        },
        Sort::Int | Sort::UInt | Sort::Bool | Sort::Text | Sort::Time => Err(Halt::Stuck),
        Sort::AnyVertex | Sort::VertexOf(_) => Err(Halt::Stuck),
    }
}

/// A tuple type by its number, if there is one.
pub(crate) fn tuple_type(tuples: &[TupleType], number: u32) -> Option<&TupleType>
    ensures { slice_get tuples.now number ≡ option_copied result }
{
    tuples.get(number as usize)
}
