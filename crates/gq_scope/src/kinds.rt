// What accumulators of a kind yield when read, and what inputs they take.
ghost use Rattle.std.specs.Prelude.{◌≡◌, map};
ghost use Rattle.gq_value.specs.Accums.{TUPLE};
ghost use Rattle.std.specs.Option.{option_map};
ghost use Rattle.gq_value.specs.AccumViews.{accum_of, bases, base_of};
ghost use Rattle.gq_rules_typing.specs.Kinds as spec;
ghost use Rattle.gq_scope.specs.Views.{types_are, base_is, typed_is};

use crate::typed::{Base, TupleFieldTypes, Typed};
use gq_value::{HeapShape, Kind};

/// The type of a read of an accumulator of the kind.
#[tactic(auto, using(gq_value::proofs::AccumLemmas::accum_laws))]
pub fn read_type(kind: &Kind) -> Typed<'_>
    ensures { typed_is result ≡ spec.read_type (accum_of kind.now) }
{
    match kind {
        Kind::Sum(n) | Kind::Min(n) | Kind::Max(n) => Typed::Of(Base::of_number(*n)),
        Kind::Or | Kind::And => Typed::Of(Base::Bool),
        Kind::BitOr | Kind::BitAnd => Typed::Of(Base::Int),
        Kind::Avg => Typed::Average,
        Kind::Set(_) | Kind::Bag(_) | Kind::List(_) => Typed::Whole(kind),
        Kind::Map(_, _) | Kind::Group(_) | Kind::Heap(_) => Typed::Whole(kind),
    }
}

/// The type of value that `=` sets it to, if it can be set.
#[tactic(auto, using(gq_value::proofs::AccumLemmas::accum_laws))]
pub fn set_type(kind: &Kind) -> Option<Base<'_>>
    ensures { option_map base_is result ≡ spec.set_type (accum_of kind.now) }
{
    match kind {
        Kind::Sum(n) | Kind::Min(n) | Kind::Max(n) => Some(Base::of_number(*n)),
        Kind::Or | Kind::And => Some(Base::Bool),
        Kind::BitOr | Kind::BitAnd => Some(Base::Int),
        Kind::Avg | Kind::Set(_) | Kind::Bag(_) | Kind::List(_) => None,
        Kind::Map(_, _) | Kind::Group(_) | Kind::Heap(_) => None,
    }
}

/// The type of an input that is one value, if it takes such inputs.
#[tactic(auto, using(gq_value::proofs::AccumLemmas::accum_laws))]
pub fn input_type(kind: &Kind) -> Option<Base<'_>>
    ensures { option_map base_is result ≡ spec.input_type (accum_of kind.now) }
{
    match kind {
        Kind::Sum(n) | Kind::Min(n) | Kind::Max(n) => Some(Base::of_number(*n)),
        Kind::Or | Kind::And => Some(Base::Bool),
        Kind::BitOr | Kind::BitAnd | Kind::Avg => Some(Base::Int),
        Kind::Set(base) | Kind::Bag(base) | Kind::List(base) => Some(Base::of(base)),
        Kind::Heap(shape) => Some(tuple_of(shape)),
        Kind::Map(_, _) | Kind::Group(_) => None,
    }
}

/// The type of an element, if it has elements in a defined order.
#[tactic(auto, using(gq_value::proofs::AccumLemmas::accum_laws))]
pub fn element_type(kind: &Kind) -> Option<Base<'_>>
    ensures { option_map base_is result ≡ spec.element_type (accum_of kind.now) }
{
    match kind {
        Kind::Set(base) | Kind::Bag(base) | Kind::List(base) => Some(Base::of(base)),
        Kind::Heap(shape) => Some(tuple_of(shape)),
        Kind::Sum(_) | Kind::Min(_) | Kind::Max(_) | Kind::Or | Kind::And => None,
        Kind::BitOr | Kind::BitAnd | Kind::Avg | Kind::Map(_, _) | Kind::Group(_) => None,
    }
}

/// The type of the argument of `.contains`; a heap has no `.contains`.
#[tactic(auto, using(gq_value::proofs::AccumLemmas::accum_laws))]
pub fn contained_type(kind: &Kind) -> Option<Base<'_>>
    ensures { option_map base_is result ≡ spec.contained_type (accum_of kind.now) }
{
    match kind {
        Kind::Set(base) | Kind::Bag(base) | Kind::List(base) => Some(Base::of(base)),
        Kind::Sum(_) | Kind::Min(_) | Kind::Max(_) | Kind::Or | Kind::And | Kind::Heap(_) => None,
        Kind::BitOr | Kind::BitAnd | Kind::Avg | Kind::Map(_, _) | Kind::Group(_) => None,
    }
}

/// Whether it is a ListAccum.
#[tactic(auto, using(gq_value::proofs::AccumLemmas::accum_laws))]
pub fn is_list(kind: &Kind) -> bool
    ensures { result ≡ spec.is_list (accum_of kind.now) }
{
    match kind {
        Kind::List(_) => true,
        Kind::Sum(_) | Kind::Min(_) | Kind::Max(_) | Kind::Or | Kind::And | Kind::Heap(_) => false,
        Kind::BitOr | Kind::BitAnd | Kind::Avg | Kind::Map(_, _) | Kind::Group(_) => false,
        Kind::Set(_) | Kind::Bag(_) => false,
    }
}

/// The types of its keys.
#[tactic(auto, using(gq_value::proofs::AccumLemmas::accum_laws))]
pub fn key_types(kind: &Kind) -> TupleFieldTypes<'_>
    ensures { types_are result ≡ spec.key_types (accum_of kind.now) }
{
    match kind {
        Kind::Map(base, _) => TupleFieldTypes::Bare(std::slice::from_ref(base)),
        Kind::Group(shape) => TupleFieldTypes::Named(shape.keys.as_slice()),
        Kind::Sum(_) | Kind::Min(_) | Kind::Max(_) | Kind::Or | Kind::And => TupleFieldTypes::Bare(
            &[],
        ),
        Kind::BitOr | Kind::BitAnd | Kind::Avg | Kind::Heap(_) => TupleFieldTypes::Bare(&[]),
        Kind::Set(_) | Kind::Bag(_) | Kind::List(_) => TupleFieldTypes::Bare(&[]),
    }
}

/// The tuple type of a heap.
fn tuple_of(shape: &HeapShape) -> Base<'_>
    ensures { base_is result ≡ TUPLE shape.now.tuple (bases (map base_of shape.now.fields)) }
{
    Base::Tuple(shape.tuple, TupleFieldTypes::Bare(shape.fields.as_slice()))
}
