// Classifies kinds by the inputs that they take.
ghost use Rattle.std.specs.Prelude.{◌≡◌, true};
ghost use Rattle.std.specs.List.{All};
ghost use Rattle.gq_value.specs.Accums.{SumAccum, MinAccum, MaxAccum, SetAccum, BagAccum, ListAccum, MapAccum, INT};
ghost use Rattle.gq_value.specs.AccumViews.{accum_of, base_of};
ghost use Rattle.gq_exec_contribute.specs.Prepared.{Takes, TakesInts, group_of, heap_of};

use crate::cells::Taken;
use gq_value::{BaseType, GroupShape, HeapShape, Kind, Number, Txt};

/// The inputs that a kind takes.
#[tactic(auto, using(gq_value::proofs::AccumLemmas::accum_laws))]
pub(crate) fn taken_by(kind: &Kind) -> Taken
    ensures { Takes (accum_of kind.now) result }
{
    match kind {
        Kind::Map(key, part) => map_taken(key, part.get()),
        Kind::Group(shape) => group_taken(shape),
        Kind::Heap(shape) => heap_taken(shape),
        _ => one_taken(kind),
    }
}

/// The inputs that a kind without keys or tuples takes.
#[tactic(auto, using(gq_value::proofs::AccumLemmas::accum_laws, crate::proofs::CellLemmas::kind_laws))]
fn one_taken(kind: &Kind) -> Taken
    ensures { Takes (accum_of kind.now) result }
{
    match kind {
        Kind::Sum(number) => number_taken(*number),
        Kind::Min(number) => number_taken(*number),
        Kind::Max(number) => number_taken(*number),
        Kind::BitOr | Kind::BitAnd | Kind::Avg => Taken::Int,
        Kind::Or | Kind::And => Taken::Truth,
        Kind::Set(base) => element_taken(base),
        Kind::Bag(base) => element_taken(base),
        Kind::List(base) => element_taken(base),
        Kind::Heap(_) | Kind::Map(_, _) | Kind::Group(_) => Taken::Other,
    }
}

/// The inputs that a set, bag or list of these elements takes.
#[tactic(auto, using(crate::proofs::KindLemmas::element_laws))]
fn element_taken(base: &BaseType) -> Taken
    ensures set { Takes (SetAccum (base_of base.now)) result }
    ensures bag { Takes (BagAccum (base_of base.now)) result }
    ensures list { Takes (ListAccum (base_of base.now)) result }
{
    if is_int(base) {
        Taken::Element
    } else {
        Taken::Other
    }
}

#[tactic(auto, using(gq_eval_operand::proofs::ConvertLemmas::base_laws))]
fn is_int(base: &BaseType) -> bool
    ensures { result ≡ true → base_of base.now ≡ INT }
{
    match base {
        BaseType::Int => true,
        _ => false,
    }
}

/// Whether a kind takes INTs.
fn takes_ints(kind: &Kind) -> bool
    ensures { result ≡ true → TakesInts (accum_of kind.now) }
{
    match one_taken(kind) {
        Taken::Int | Taken::Element => true,
        Taken::Truth | Taken::Tuple(_) | Taken::Keyed(_, _) | Taken::Other => false,
    }
}

#[tactic(auto, using(crate::proofs::KindLemmas::map_laws))]
fn map_taken(key: &BaseType, part: &Kind) -> Taken
    ensures { Takes (MapAccum (base_of key.now) (accum_of part.now)) result }
{
    if !is_int(key) {
        return Taken::Other;
    }
    if !takes_ints(part) {
        return Taken::Other;
    }
    Taken::Keyed(1, 1)
}

#[tactic(auto, using(crate::proofs::KindLemmas::group_laws))]
fn group_taken(shape: &GroupShape) -> Taken
    ensures { Takes (group_of shape.now) result }
{
    if !are_keys_ints(shape.keys.as_slice()) {
        return Taken::Other;
    }
    if !do_parts_take_ints(shape.parts.as_slice()) {
        return Taken::Other;
    }
    Taken::Keyed(shape.keys.len(), shape.parts.len())
}

fn are_keys_ints(keys: &[(Txt, BaseType)]) -> bool
    ensures { result ≡ true → All (λ k. base_of k.1 ≡ INT) keys.now }
{
    for key in keys {
        if !is_int(&key.1) {
            return false;
        }
    }
    true
}

fn do_parts_take_ints(parts: &[(Txt, Kind)]) -> bool
    ensures { result ≡ true → All (λ p. TakesInts (accum_of p.1)) parts.now }
{
    for part in parts {
        if !takes_ints(&part.1) {
            return false;
        }
    }
    true
}

#[tactic(auto, using(crate::proofs::KindLemmas::heap_laws))]
fn heap_taken(shape: &HeapShape) -> Taken
    ensures { Takes (heap_of shape.now) result }
{
    if are_ints(shape.fields.as_slice()) {
        Taken::Tuple(shape.fields.len())
    } else {
        Taken::Other
    }
}

/// Whether all of these types are INT.
pub(crate) fn are_ints(types: &[BaseType]) -> bool
    ensures { result ≡ true → All (λ b. base_of b ≡ INT) types.now }
{
    for base in types {
        if !is_int(base) {
            return false;
        }
    }
    true
}

fn number_taken(number: Number) -> Taken
    ensures int { Takes (SumAccum number) result }
    ensures min { Takes (MinAccum number) result }
    ensures max { Takes (MaxAccum number) result }
{
    match number {
        Number::Int => Taken::Int,
        Number::UInt => Taken::Other,
    }
}
