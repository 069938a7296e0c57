// Values.
ghost use Rattle.std.specs.Prelude.{◌≡◌, ◌++◌, ◌∷◌, [], IfOk, MatchOption, None, OnOk, Some, map, slice_get};
ghost use Rattle.std.specs.Option.{option_copied};
ghost use Rattle.gq_json.specs.declared.out.Out.TheVariants as json;
ghost use Rattle.gq_value.specs.Views.{val, vals};
ghost use Rattle.gq_value.specs.Val.{Tuple};
ghost use Rattle.gq_value.specs.AccumViews.{base_of};
ghost use Rattle.gq_rules_calendar.specs.Gregorian.{gregorian};
ghost use Rattle.gq_eval_attributes.specs.Tuples.{fields_in};
ghost use Rattle.gq_eval_operand.specs.Meant.{sort_is};
ghost use Rattle.gq_eval_context.specs.Looks.{world_over};
ghost use Rattle.gq_output.specs.Printed.{int_shown, named_shown, value_shown};

use crate::keys::id_of;
use crate::times::shown_time;
use gq_base::{List, OutOfMemory};
use gq_eval_attributes::TupleType;
use gq_eval_context::BlockContext;
use gq_eval_operand::Sort;
use gq_json::{Members, Out, Outs};
use gq_value::{BaseType, Txt, Value};
use std::alloc::Global;

/// Prints a value of a type: a vertex as its id, a DATETIME as its text, a tuple as an object.
#[cycle(values)]
#[tactic(auto, using(gq_value::specs::ViewLaws::view_laws, crate::proofs::ValueLemmas::value_laws))]
pub fn out_value(
    alloc: Global,
    over: &BlockContext<'_>,
    sort: Sort<'_>,
    value: &Value,
) -> Result<Out, OutOfMemory>
    ensures { IfOk result (λ out. out ≡ value_shown (world_over gregorian over.now) (sort_is sort.entry) (val value.now)) }
{
    match value {
        Value::Int(x) => whole(alloc, sort, *x),
        Value::UInt(n) => Ok(Out::UInt(*n)),
        Value::Bool(truth) => Ok(Out::Bool(*truth)),
        Value::Text(text) => Ok(Out::Text(Txt::of(alloc, text.as_str())?)),
        Value::Vertex(vertex) => Ok(Out::Text(id_of(alloc, over, *vertex)?)),
        Value::Fraction(average) => Ok(Out::Fraction(*average)),
        Value::Tuple(row) => Ok(Out::Object(tuple(alloc, over, sort, row.as_slice())?)),
    }
}

/// Prints a signed whole number, or the DATETIME with this number of seconds.
fn whole(alloc: Global, sort: Sort<'_>, x: i64) -> Result<Out, OutOfMemory>
    ensures { IfOk result (λ out. out ≡ int_shown gregorian (sort_is sort.entry) x) }
{
    match sort {
        Sort::Time => shown_time(alloc, x),
        Sort::Int | Sort::UInt | Sort::Bool | Sort::Text => Ok(Out::Int(x)),
        Sort::AnyVertex | Sort::VertexOf(_) | Sort::Tuple(_, _) => Ok(Out::Int(x)),
    }
}

/// Prints the fields of a tuple, as members. A tuple type that isn't declared has none.
#[cycle(values)]
#[tactic(auto, using(crate::proofs::ValueLemmas::tuple_laws))]
fn tuple(
    alloc: Global,
    over: &BlockContext<'_>,
    sort: Sort<'_>,
    row: &[Value],
) -> Result<Members, OutOfMemory>
    ensures { IfOk result (λ members. json.Object members ≡ value_shown (world_over gregorian over.now) (sort_is sort.entry) (Tuple (vals row.now))) }
{
    match sort {
        Sort::Tuple(number, _) => match tuple_type(over, number) {
            Some(of) => fields(alloc, over, of, row),
            None => Ok(List::new(alloc)),
        },
        Sort::Int | Sort::UInt | Sort::Bool | Sort::Text | Sort::Time => Ok(List::new(alloc)),
        Sort::AnyVertex | Sort::VertexOf(_) => Ok(List::new(alloc)),
    }
}

/// Returns a tuple type by number, if there is one.
fn tuple_type<'a>(over: &'a BlockContext<'_>, number: u32) -> Option<&'a TupleType>
    ensures { slice_get over.now.tuples number ≡ option_copied result }
{
    over.tuples.get(number as usize)
}

/// Prints the fields of a tuple of a type, as members, up to the last one that has a value.
#[cycle(values)]
#[tactic(auto, using(crate::proofs::NamedLemmas::field_laws))]
fn fields(
    alloc: Global,
    over: &BlockContext<'_>,
    of: &TupleType,
    row: &[Value],
) -> Result<Members, OutOfMemory>
    ensures { IfOk result (λ members. members ≡ named_shown (world_over gregorian over.now) (fields_in of.now) (map val row.now)) }
{
    let mut members = List::new(alloc);
    for (place, value) in row.iter().enumerate() {
        match field_at(of, place) {
            None => return Ok(members),
            Some(field) => put_value(alloc, over, field.0, field.1, value, &mut members)?,
        }
    }
    Ok(members)
}

/// Returns the name and the type of the field at a place, if there is one.
#[tactic(auto, using(crate::proofs::NamedLemmas::place_laws))]
fn field_at(of: &TupleType, place: usize) -> Option<(&Txt, &BaseType)>
    ensures { MatchOption result (slice_get (fields_in of.now) place ≡ None) (λ field. slice_get (fields_in of.now) place ≡ Some (field.0.now, base_of field.1.now)) }
{
    match of.names.get(place) {
        None => None,
        Some(name) => match of.types.get(place) {
            None => None,
            Some(base) => Some((name, base)),
        },
    }
}

/// Appends a value of a type under its name to other members.
#[cycle(values)]
pub(crate) fn put_value(
    alloc: Global,
    over: &BlockContext<'_>,
    name: &Txt,
    base: &BaseType,
    value: &Value,
    members: &mut Members,
) -> Result<(), OutOfMemory>
    ensures { OnOk result (members.new ≡ members.old ++ (name.now, value_shown (world_over gregorian over.now) (base_of base.now) (val value.now)) ∷ []) }
{
    let value = out_value(alloc, over, Sort::of(base), value)?;
    put(alloc, name.as_str(), value, members)
}

/// Appends a printed value under its name to other members.
pub(crate) fn put(
    alloc: Global,
    name: &str,
    value: Out,
    members: &mut Members,
) -> Result<(), OutOfMemory>
    ensures { OnOk result (members.new ≡ members.old ++ (name.now, value) ∷ []) }
{
    let name = Txt::of(alloc, name)?;
    members.push((name, value))
}

/// Prints values of one type, in order.
#[tactic(auto, using(crate::proofs::NamedLemmas::row_laws))]
pub(crate) fn values(
    alloc: Global,
    over: &BlockContext<'_>,
    sort: Sort<'_>,
    row: &[Value],
) -> Result<Outs, OutOfMemory>
    ensures { IfOk result (λ outs. outs ≡ map (λ v. value_shown (world_over gregorian over.now) (sort_is sort.entry) (val v)) row.now) }
{
    let mut outs = List::new(alloc);
    for value in row {
        outs.push(out_value(alloc, over, sort, value)?)?;
    }
    Ok(outs)
}
