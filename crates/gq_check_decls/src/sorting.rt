// Heaps: their capacity, and the fields that order their tuples.
ghost use Rattle.std.specs.Prelude.{◌≡◌, map};
ghost use Rattle.gq_value.specs.AccumViews.{accum_of};
ghost use Rattle.gq_rules_typing.specs.Sorts.{names_of};
ghost use Rattle.gq_rules_typing.specs.FieldTypes.{tuple_fields};
ghost use Rattle.gq_rules_typing.specs.KindTypes as kinds;
ghost use Rattle.gq_scope.specs.Held.{setting_in};
ghost use Rattle.gq_check_from.specs.Faults.{Judges};
ghost use Rattle.gq_check_decls.specs.Written as spec;

use crate::elements::good;
use crate::written::{tuple_number, tuple_types};
use gq_base::List;
use gq_check_from::{CheckFault, bad_kind};
use gq_scope::{Scope, field_place};
use gq_value::{BaseType, HeapShape, Kind, Txt};
use std::alloc::Global;

/// A heap of tuples of a type, ordered by these fields, with a maximum number of tuples; true means descending.
#[tactic(auto, using(gq_value::proofs::AccumLemmas::accum_laws, crate::proofs::TupleLemmas::tuple_laws))]
pub(crate) fn heap(
    alloc: Global,
    scope: &Scope<'_>,
    name: &str,
    tuple: &str,
    capacity: u64,
    order: &[(Txt, bool)],
) -> Result<Kind, CheckFault>
    ensures { Judges accum_of (spec.heap (setting_in scope.now) name.now tuple.now capacity order.now) result }
{
    let number = tuple_number(alloc, scope, tuple)?;
    let kept = capacity_of(alloc, name, capacity)?;
    let by = tuple_order(alloc, scope, name, number, order)?;
    let shape = HeapShape {
        tuple: number,
        fields: tuple_types(alloc, scope, number)?,
        capacity: kept,
        order: by,
    };
    Ok(Kind::Heap(shape))
}

/// Checks that a capacity is from 1 to 1,000,000.
fn capacity_of(alloc: Global, name: &str, capacity: u64) -> Result<u32, CheckFault>
    ensures { Judges (λ n. n) (spec.capacity name.now capacity) result }
{
    good(alloc, name, capacity > 0 && capacity <= 1_000_000)?;
    Ok(capacity as u32)
}

/// The places of the fields of a tuple type that order a heap.
#[tactic(auto, using(crate::proofs::TupleLemmas::field_laws))]
fn tuple_order(
    alloc: Global,
    scope: &Scope<'_>,
    name: &str,
    number: u32,
    order: &[(Txt, bool)],
) -> Result<List<(u32, bool)>, CheckFault>
    ensures { Judges (λ by. by)
        (kinds.sort_fields name.now (names_of (tuple_fields (setting_in scope.now) number)) order.now) result }
{
    match scope.tuple_at(number) {
        None => sort_fields(alloc, name, &[], order),
        Some(fields) => sort_fields(alloc, name, fields.as_slice(), order),
    }
}

#[tactic(auto, using(gq_type::proofs::ArgumentLemmas::all_laws))]
fn sort_fields(
    alloc: Global,
    name: &str,
    fields: &[(Txt, BaseType)],
    order: &[(Txt, bool)],
) -> Result<List<(u32, bool)>, CheckFault>
    ensures { Judges (λ by. by) (kinds.sort_fields name.now (map (λ f. f.0) fields.now) order.now) result }
{
    let mut by = List::new(alloc);
    for key in order {
        let place = known_place(alloc, name, field_place(fields, key.0.as_str())?)?;
        by.push((place, key.1))?;
    }
    Ok(by)
}

/// Returns a place, or a bad kind if there is none.
fn known_place(alloc: Global, name: &str, place: Option<u32>) -> Result<u32, CheckFault>
    ensures { Judges (λ n. n) (spec.known_place name.now place) result }
{
    match place {
        None => Err(bad_kind(alloc, name)),
        Some(place) => Ok(place),
    }
}
