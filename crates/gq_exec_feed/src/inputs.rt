// Checks inputs against kinds.
ghost use Rattle.std.specs.Prelude.{◌≡◌, [], ◌∷◌, map};
ghost use Rattle.gq_value.specs.AccumViews.{accum_of, base_of, given, givens, parts_of};
ghost use Rattle.gq_value.specs.Accums.{Keyed};
ghost use Rattle.gq_value.specs.Typed.{row_is_of, takes, suits, suit};
ghost use Rattle.gq_value.specs.Views.{val};

use crate::values::{are_of, is_number, is_of, is_truth, keys_are_of};
use gq_value::{BaseType, Input, Kind, Number, Txt, Value};

/// Whether a kind takes an input: one value of its type, or keys of its key types with an input for each part.
#[cycle(inputs)]
#[tactic(auto, using(crate::proofs::SuitLemmas::given_laws))]
pub fn suits(input: &Input, kind: &Kind) -> bool
    ensures { result ≡ suits (accum_of kind.now) (given input.now) }
{
    match input {
        Input::One(value) => takes(value, kind),
        Input::Keyed(keys, parts) => keyed_suits(parts.as_slice(), keys.as_slice(), kind),
    }
}

/// Whether a kind takes keys with an input for each part.
#[cycle(inputs)]
#[tactic(auto, using(gq_value::proofs::AccumLemmas::accum_laws, crate::proofs::SuitLemmas::keyed_laws))]
fn keyed_suits(parts: &[Input], keys: &[Value], kind: &Kind) -> bool
    ensures { result ≡ suits (accum_of kind.now) (Keyed (map val keys.now) (givens (map given parts.now))) }
{
    match kind {
        Kind::Map(key, inner) => has_key(keys, key) && one_suits(parts, inner.get()),
        Kind::Group(shape) => {
            keys_are_of(keys, shape.keys.as_slice()) && parts_suit(parts, shape.parts.as_slice())
        }
        Kind::Sum(_) | Kind::Min(_) | Kind::Max(_) | Kind::Or | Kind::And => false,
        Kind::BitOr | Kind::BitAnd | Kind::Avg => false,
        Kind::Set(_) | Kind::Bag(_) | Kind::List(_) | Kind::Heap(_) => false,
    }
}

/// Whether there is exactly one key, of this type.
fn has_key(keys: &[Value], key: &BaseType) -> bool
    ensures { result ≡ row_is_of (base_of key.now ∷ []) (map val keys.now) }
{
    match keys {
        [value] => is_of(value, key),
        [] | [_, _, ..] => false,
    }
}

/// Whether there is exactly one input, which the kind takes.
#[cycle(inputs)]
#[tactic(auto, using(crate::proofs::SuitLemmas::one_laws))]
fn one_suits(inputs: &[Input], kind: &Kind) -> bool
    ensures { result ≡ suit (parts_of (([], accum_of kind.now) ∷ [])) (givens (map given inputs.now)) }
{
    match inputs {
        [input] => suits(input, kind),
        [] | [_, _, ..] => false,
    }
}

/// Whether there is an input for each part of a group, which that part takes.
#[cycle(inputs)]
#[tactic(auto, using(crate::proofs::SuitLemmas::parts_laws))]
fn parts_suit(inputs: &[Input], parts: &[(Txt, Kind)]) -> bool
    ensures { result ≡ suit (parts_of (map (λ p. (p.0, accum_of p.1)) parts.now)) (givens (map given inputs.now)) }
{
    if inputs.len() != parts.len() {
        return false;
    }
    for (place, input) in inputs.iter().enumerate() {
        if !suits(input, &parts[place].1) {
            return false;
        }
    }
    true
}

/// Whether a kind without keys takes a value.
#[tactic(auto, using(gq_value::proofs::AccumLemmas::accum_laws, gq_value::specs::ViewLaws::view_laws))]
pub fn takes(value: &Value, kind: &Kind) -> bool
    ensures { result ≡ takes (accum_of kind.now) (val value.now) }
{
    match kind {
        Kind::Sum(number) | Kind::Min(number) | Kind::Max(number) => is_number(value, *number),
        Kind::Or | Kind::And => is_truth(value),
        Kind::BitOr | Kind::BitAnd | Kind::Avg => is_number(value, Number::Int),
        Kind::Set(base) | Kind::Bag(base) | Kind::List(base) => is_of(value, base),
        Kind::Heap(shape) => match value {
            Value::Tuple(row) => are_of(row.as_slice(), shape.fields.as_slice()),
            Value::Int(_) | Value::UInt(_) | Value::Bool(_) | Value::Text(_) => false,
            Value::Vertex(_) | Value::Fraction(_) => false,
        },
        Kind::Map(_, _) | Kind::Group(_) => false,
    }
}
