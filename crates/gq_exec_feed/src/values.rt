// Checks values against types.
ghost use Rattle.std.specs.Prelude.{◌≡◌, map};
ghost use Rattle.gq_value.specs.Accums.{INT, UINT, BOOL, STRING, VERTEX, DATETIME};
ghost use Rattle.gq_value.specs.AccumViews.{base_of, bases};
ghost use Rattle.gq_value.specs.Typed.{in_calendar, is_of, are_of, row_is_of, number_type};
ghost use Rattle.gq_value.specs.Val as plain;
ghost use Rattle.gq_value.specs.Views.{val, vals};

use gq_value::{BaseType, Number, Txt, Value};

/// Whether a value is of a type. Whether a vertex exists isn't checked.
#[cycle(values)]
#[tactic(auto, using(gq_eval_operand::proofs::ConvertLemmas::base_laws, gq_value::specs::ViewLaws::view_laws))]
pub(crate) fn is_of(value: &Value, base: &BaseType) -> bool
    ensures { result ≡ is_of (base_of base.now) (val value.now) }
{
    match base {
        BaseType::Int => is_number(value, Number::Int),
        BaseType::UInt => is_number(value, Number::UInt),
        BaseType::Bool => is_truth(value),
        BaseType::Text => is_text(value),
        BaseType::Time => is_time(value),
        BaseType::AnyVertex | BaseType::VertexOf(_) => is_vertex(value),
        BaseType::Tuple(_, fields) => match value {
            Value::Tuple(row) => are_of(row.as_slice(), fields.as_slice()),
            Value::Int(_) | Value::UInt(_) | Value::Bool(_) | Value::Text(_) => false,
            Value::Vertex(_) | Value::Fraction(_) => false,
        },
    }
}

/// Whether there is a value of each type.
#[cycle(values)]
#[tactic(auto, using(crate::proofs::SuitLemmas::are_laws))]
pub(crate) fn are_of(values: &[Value], types: &[BaseType]) -> bool
    ensures { result ≡ are_of (bases (map base_of types.now)) (vals values.now) }
{
    if values.len() != types.len() {
        return false;
    }
    for (place, value) in values.iter().enumerate() {
        if !is_of(value, &types[place]) {
            return false;
        }
    }
    true
}

/// Whether there is a value of each key's type.
#[tactic(auto, using(crate::proofs::SuitLemmas::keys_laws))]
pub(crate) fn keys_are_of(values: &[Value], keys: &[(Txt, BaseType)]) -> bool
    ensures { result ≡ row_is_of (map (λ k. base_of k.1) keys.now) (map val values.now) }
{
    if values.len() != keys.len() {
        return false;
    }
    for (place, value) in values.iter().enumerate() {
        if !is_of(value, &keys[place].1) {
            return false;
        }
    }
    true
}

/// Whether a value is a number of a type.
pub(crate) fn is_number(value: &Value, number: Number) -> bool
    ensures { result ≡ is_of (number_type number) (val value.now) }
{
    match number {
        Number::Int => is_int(value),
        Number::UInt => is_uint(value),
    }
}

#[tactic(auto, using(gq_value::specs::ViewLaws::view_laws))]
fn is_int(value: &Value) -> bool
    ensures { result ≡ is_of INT (val value.now) }
{
    match value {
        Value::Int(number) => int_fits(*number),
        Value::UInt(_) | Value::Bool(_) | Value::Text(_) | Value::Vertex(_) => false,
        Value::Tuple(_) | Value::Fraction(_) => false,
    }
}

/// Always true: each `i64` is in the range of INT.
#[tactic(auto, using(crate::proofs::SuitLemmas::number_laws))]
fn int_fits(number: i64) -> bool
    ensures { result ≡ is_of INT (plain.Int number) }
{
    let _number = number;
    true
}

#[tactic(auto, using(gq_value::specs::ViewLaws::view_laws))]
fn is_uint(value: &Value) -> bool
    ensures { result ≡ is_of UINT (val value.now) }
{
    match value {
        Value::UInt(number) => uint_fits(*number),
        Value::Int(_) | Value::Bool(_) | Value::Text(_) | Value::Vertex(_) => false,
        Value::Tuple(_) | Value::Fraction(_) => false,
    }
}

/// Always true: each `u64` is in the range of UINT.
#[tactic(auto, using(crate::proofs::SuitLemmas::number_laws))]
fn uint_fits(number: u64) -> bool
    ensures { result ≡ is_of UINT (plain.UInt number) }
{
    let _number = number;
    true
}

/// Whether a value is a truth.
#[tactic(auto, using(gq_value::specs::ViewLaws::view_laws))]
pub(crate) fn is_truth(value: &Value) -> bool
    ensures { result ≡ is_of BOOL (val value.now) }
{
    match value {
        Value::Bool(_) => true,
        Value::Int(_) | Value::UInt(_) | Value::Text(_) | Value::Vertex(_) => false,
        Value::Tuple(_) | Value::Fraction(_) => false,
    }
}

/// Whether a value is a text.
#[tactic(auto, using(gq_value::specs::ViewLaws::view_laws))]
fn is_text(value: &Value) -> bool
    ensures { result ≡ is_of STRING (val value.now) }
{
    match value {
        Value::Text(_) => true,
        Value::Int(_) | Value::UInt(_) | Value::Bool(_) | Value::Vertex(_) => false,
        Value::Tuple(_) | Value::Fraction(_) => false,
    }
}

/// Whether a value is a vertex.
#[tactic(auto, using(gq_value::specs::ViewLaws::view_laws))]
fn is_vertex(value: &Value) -> bool
    ensures { result ≡ is_of VERTEX (val value.now) }
{
    match value {
        Value::Vertex(_) => true,
        Value::Int(_) | Value::UInt(_) | Value::Bool(_) | Value::Text(_) => false,
        Value::Tuple(_) | Value::Fraction(_) => false,
    }
}

/// Whether a value is a DATETIME, in seconds.
#[tactic(auto, using(gq_value::specs::ViewLaws::view_laws))]
fn is_time(value: &Value) -> bool
    ensures { result ≡ is_of DATETIME (val value.now) }
{
    match value {
        Value::Int(seconds) => in_calendar(*seconds),
        Value::UInt(_) | Value::Bool(_) | Value::Text(_) | Value::Vertex(_) => false,
        Value::Tuple(_) | Value::Fraction(_) => false,
    }
}

/// Whether the seconds are in the range of DATETIME.
fn in_calendar(seconds: i64) -> bool
    ensures { result ≡ in_calendar seconds }
{
    seconds >= -62_167_219_200 && seconds <= 253_402_300_799
}
