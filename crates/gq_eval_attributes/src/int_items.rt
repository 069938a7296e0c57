// INTs at places of rows.
ghost use Rattle.std.specs.Prelude.{◌≡◌, IfSome, Some, slice_get};
ghost use Rattle.std.specs.Option.{option_copied, option_flatten};
ghost use Rattle.gq_value.specs.Val.{Int};
ghost use Rattle.gq_rules_meaning.specs.Answers.{Gives};
ghost use Rattle.gq_eval_attributes.specs.Attributes.{attribute_at};
ghost use Rattle.gq_eval_attributes.specs.Reads.{value_meant};

use gq_base::List;
use gq_graph::Attribute;
use gq_value::Value;

/// The place that a table has for a type, if it has one.
pub(crate) fn place_in(table: &List<Option<u32>>, kind: u32) -> Option<u32>
    ensures { result ≡ option_flatten (slice_get table.now kind) }
{
    match table.get(kind as usize) {
        Some(Some(place)) => Some(*place),
        Some(None) => None,
        None => None,
    }
}

/// The value at a place of a row, if it has one.
pub(crate) fn value_in(row: &[Value], place: usize) -> Option<&Value>
    ensures { slice_get row.now place ≡ option_copied result }
{
    row.get(place)
}

/// The INT at a place of a row, of the attribute there.
#[tactic(auto, using(crate::proofs::ReadLemmas::value_laws))]
pub(crate) fn int_at(attributes: &List<Attribute>, row: &[Value], place: u32) -> Option<i64>
    ensures { IfSome result (λ x. value_meant (attribute_at attributes.now row.now (Some place)) ≡ Gives (Int x)) }
{
    match value_in(row, place as usize) {
        Some(Value::Int(x)) => match attributes.get(place as usize) {
            Some(_) => Some(*x),
            None => None,
        },
        _ => None,
    }
}
