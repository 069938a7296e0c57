// Fields of tuples.
ghost use Rattle.std.specs.Prelude.{◌≡◌, IfOk, map};
ghost use Rattle.gq_value.specs.Views.{val};
ghost use Rattle.gq_rules_typing.specs.Sorts.{bases_of, names_of};
ghost use Rattle.gq_rules_typing.specs.Words.{OfTupleType};
ghost use Rattle.gq_rules_meaning.specs.States as states;
ghost use Rattle.gq_plan_ir.specs.References as references;
ghost use Rattle.gq_plan_ir.specs.ExprView.{field_of};
ghost use Rattle.gq_eval_operand.specs.Meant.{meant, Tells};
ghost use Rattle.gq_eval_operand.specs.Sound.{Sound};
ghost use Rattle.gq_eval_attributes.specs.Tuples.{fields_in};

use crate::names::name_place;
use crate::tuple_type::TupleType;
use gq_base::OutOfMemory;
use gq_eval_operand::{Halt, Operand, Seen, Sort, own};
use gq_plan_ir::Field;
use gq_value::{Row, Value};
use std::alloc::Global;

/// `x.f` of a tuple of the type with a number. Takes no memory.
#[tactic(auto, using(crate::proofs::TupleLemmas::field_laws))]
pub fn tuple_field<'a>(
    of: &'a TupleType,
    number: u32,
    row: &'a [Value],
    field: &Field,
) -> Result<Seen<'a>, Halt>
    ensures told { Tells meant (states.value_at (bases_of (fields_in of.entry.now)) (map val row.entry.now) (references.field (OfTupleType number) (names_of (fields_in of.entry.now)) (field_of field.now))) result }
    ensures sound { IfOk result Sound }
{
    match place_of_field(of, number, field) {
        None => Err(Halt::Stuck),
        Some(place) => match of.types.get(place) {
            None => Err(Halt::Stuck),
            Some(base) => match row.get(place) {
                None => Err(Halt::Stuck),
                Some(value) => Ok(Seen::Value(Sort::of(base), Operand::Lent(value))),
            },
        },
    }
}

/// `x.f` of an owned tuple: the field is copied, which takes memory for a text.
#[tactic(auto, using(crate::proofs::TupleLemmas::field_laws))]
pub fn made_field<'a>(
    alloc: Global,
    of: &'a TupleType,
    number: u32,
    row: &Row,
    field: &Field,
) -> Result<Seen<'a>, Halt>
    ensures told { Tells meant (states.value_at (bases_of (fields_in of.entry.now)) (map val row.now) (references.field (OfTupleType number) (names_of (fields_in of.entry.now)) (field_of field.now))) result }
    ensures sound { IfOk result Sound }
{
    match place_of_field(of, number, field) {
        None => Err(Halt::Stuck),
        Some(place) => match of.types.get(place) {
            None => Err(Halt::Stuck),
            Some(base) => match row.get(place) {
                None => Err(Halt::Stuck),
                Some(value) => match own(alloc, Operand::Lent(value)) {
                    Ok(copy) => Ok(Seen::Value(Sort::of(base), Operand::Made(copy))),
                    Err(OutOfMemory) => Err(Halt::OutOfMemory),
                },
            },
        },
    }
}

/// The place of a field among those of a tuple type: from the plan, or by its name. `type` is a name like any other.
#[tactic(auto, using(crate::proofs::TupleLemmas::place_laws))]
fn place_of_field(of: &TupleType, number: u32, field: &Field) -> Option<usize>
    ensures { result ≡ references.field (OfTupleType number) (names_of (fields_in of.now)) (field_of field.now) }
{
    match field {
        Field::Type => name_place(of.names.as_slice(), "type"),
        Field::Named(places) => match places.tuples.get(number as usize) {
            None => name_place(of.names.as_slice(), places.name.as_str()),
            Some(None) => None,
            Some(Some(place)) => Some(*place as usize),
        },
    }
}
