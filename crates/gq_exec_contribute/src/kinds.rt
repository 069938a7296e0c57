// Types of the inputs of a kind.
ghost use Rattle.std.specs.Prelude.{◌≡◌, slice_get};
ghost use Rattle.std.specs.Option.{option_copied, option_map};
ghost use Rattle.gq_value.specs.AccumViews.{accum_of, base_of};
ghost use Rattle.gq_rules_typing.specs.Kinds.{input_type, part_kinds};
ghost use Rattle.gq_exec_contribute.specs.Taking.{TakesAs, TakesBase};

use gq_value::{BaseType, Kind, Number};

/// How one value is taken: as a number of a type, or as it is.
#[derive(Clone, Copy)]
pub(crate) enum Taking {
    Number(Number),
    Itself,
}

/// How a kind takes one value; `None` if it takes keys with parts.
#[tactic(auto, using(gq_value::proofs::AccumLemmas::accum_laws))]
pub(crate) fn how_taken(kind: &Kind) -> Option<Taking>
    ensures { TakesAs (input_type (accum_of kind.now)) result }
{
    match kind {
        Kind::Sum(number) | Kind::Min(number) | Kind::Max(number) => Some(Taking::Number(*number)),
        Kind::Or | Kind::And | Kind::Heap(_) => Some(Taking::Itself),
        Kind::BitOr | Kind::BitAnd | Kind::Avg => Some(Taking::Number(Number::Int)),
        Kind::Set(base) | Kind::Bag(base) | Kind::List(base) => Some(base_taken(base)),
        Kind::Map(_, _) | Kind::Group(_) => None,
    }
}

/// How a value of a type is taken.
#[tactic(auto, using(gq_eval_operand::proofs::ConvertLemmas::base_laws))]
fn base_taken(base: &BaseType) -> Taking
    ensures { TakesBase (base_of base.now) result }
{
    match base {
        BaseType::Int => Taking::Number(Number::Int),
        BaseType::UInt => Taking::Number(Number::UInt),
        BaseType::Bool | BaseType::Text | BaseType::Time => Taking::Itself,
        BaseType::AnyVertex | BaseType::VertexOf(_) | BaseType::Tuple(_, _) => Taking::Itself,
    }
}

/// The kind of the part at a place: a map has one part, and a group has those that it declares.
#[tactic(auto, using(gq_value::proofs::AccumLemmas::accum_laws, crate::proofs::InputLemmas::kind_laws))]
pub(crate) fn part_at(kind: &Kind, place: usize) -> Option<&Kind>
    ensures { slice_get (part_kinds (accum_of kind.now)) place ≡ option_map accum_of (option_copied result) }
{
    match kind {
        Kind::Map(_, inner) => { if place == 0 { Some(inner.get()) } else { None } }
        Kind::Group(shape) => match shape.parts.get(place) {
            Some(part) => Some(&part.1),
            None => None,
        },
        Kind::Sum(_) | Kind::Min(_) | Kind::Max(_) | Kind::Or | Kind::And => None,
        Kind::BitOr | Kind::BitAnd | Kind::Avg => None,
        Kind::Set(_) | Kind::Bag(_) | Kind::List(_) | Kind::Heap(_) => None,
    }
}
