// Whether a collection has a value, and whether it has a key row.
ghost use Rattle.std.specs.Prelude.{◌≡◌, IfOk, true, Some, map};
ghost use Rattle.std.specs.Ordering.{is_eq};
ghost use Rattle.gq_value.specs.Order.{compare};
ghost use Rattle.gq_value.specs.AccumViews.{base_of, accum_of};
ghost use Rattle.gq_value.specs.Views.{val};
ghost use Rattle.gq_accum_laws.specs.Gather.{among};
ghost use Rattle.gq_accum_laws.specs.Holds.{row_cmp};
ghost use Rattle.gq_rules_typing.specs.Kinds.{contained_type};
ghost use Rattle.gq_eval_operand.specs.Sound.{IsSound, has_form};
ghost use Rattle.gq_eval_builtins.specs.Elements.{has_in, has_equal};

use gq_base::OutOfMemory;
use gq_nest::Content;
use gq_value::{BaseType, Kind, Row, Value, compare};
use std::alloc::Global;
use std::cmp::Ordering;

/// Whether a set, bag or list has a value that is equal to another one. It takes memory for tuples, and if the other
/// value isn't of the collection's type, which is never so in a well typed expression.
#[tactic(auto, using(crate::proofs::ContainLemmas::contain_laws))]
pub(crate) fn has(
    alloc: Global,
    kind: &Kind,
    content: &Content,
    base: &BaseType,
    value: &Value,
) -> Result<bool, OutOfMemory>
    requires sound { IsSound (accum_of kind.now) content.now }
    requires of { contained_type (accum_of kind.now) ≡ Some (base_of base.now) }
    ensures { IfOk result (λ found. has_in (accum_of kind.now) content.now (val value.now) ≡ Some found) }
{
    if is_plain(base, value) {
        return Ok(content.contains(value));
    }
    let elements = content.elements(alloc)?;
    Ok(has_equal(elements.as_slice(), value))
}

/// Whether a list has a value that is equal to another one.
fn has_equal(elements: &[Value], value: &Value) -> bool
    ensures { result ≡ has_equal (map val elements.now) (val value.now) }
{
    for element in elements {
        if is_equal(value, element) {
            return true;
        }
    }
    false
}

fn is_equal(value: &Value, other: &Value) -> bool
    ensures { result ≡ is_eq (compare (val value.now) (val other.now)) }
{
    compare(value, other) == Ordering::Equal
}

/// Whether a row is among key rows.
pub(crate) fn has_row(rows: &[Row], row: &Row) -> bool
    ensures { result ≡ among row_cmp (map val row.now) (map (map val) rows.now) }
{
    for other in rows {
        if is_row(row, other) {
            return true;
        }
    }
    false
}

#[tactic(auto, using(crate::proofs::KeyLemmas::cmp_mapped))]
fn is_row(row: &Row, other: &Row) -> bool
    ensures { result ≡ is_eq (row_cmp (map val row.now) (map val other.now)) }
{
    row.as_slice().cmp(other.as_slice()) == Ordering::Equal
}

/// Whether a value is of a type; tuples aren't checked.
#[tactic(auto, using(gq_value::specs::ViewLaws::view_laws, gq_eval_operand::proofs::ConvertLemmas::base_laws))]
fn is_plain(base: &BaseType, value: &Value) -> bool
    ensures { result ≡ true → has_form (base_of base.now) (val value.now) ≡ true }
{
    match value {
        Value::Int(_) => match base {
            BaseType::Int | BaseType::Time => true,
            BaseType::UInt | BaseType::Bool | BaseType::Text | BaseType::AnyVertex => false,
            BaseType::VertexOf(_) | BaseType::Tuple(_, _) => false,
        },
        Value::UInt(_) => match base {
            BaseType::UInt => true,
            BaseType::Int | BaseType::Time | BaseType::Bool | BaseType::Text => false,
            BaseType::AnyVertex | BaseType::VertexOf(_) | BaseType::Tuple(_, _) => false,
        },
        Value::Bool(_) => match base {
            BaseType::Bool => true,
            BaseType::Int | BaseType::UInt | BaseType::Time | BaseType::Text => false,
            BaseType::AnyVertex | BaseType::VertexOf(_) | BaseType::Tuple(_, _) => false,
        },
        Value::Text(_) => match base {
            BaseType::Text => true,
            BaseType::Int | BaseType::UInt | BaseType::Time | BaseType::Bool => false,
            BaseType::AnyVertex | BaseType::VertexOf(_) | BaseType::Tuple(_, _) => false,
        },
        Value::Vertex(_) => match base {
            BaseType::AnyVertex | BaseType::VertexOf(_) => true,
            BaseType::Int | BaseType::UInt | BaseType::Time | BaseType::Bool => false,
            BaseType::Text | BaseType::Tuple(_, _) => false,
        },
        Value::Tuple(_) | Value::Fraction(_) => false,
    }
}
