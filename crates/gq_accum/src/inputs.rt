// The inputs of scalars. A value of another type reads as 0 or false.
ghost use Rattle.std.specs.Prelude.{◌≡◌, true};
ghost use Rattle.gq_value.specs.Accums.{INT, UINT, BOOL};
ghost use Rattle.gq_value.specs.Val as plain;
ghost use Rattle.gq_value.specs.Views.{val};
ghost use Rattle.gq_value.specs.Typed.{is_of};

use gq_value::Value;

// The number of an INT.
#[tactic(auto, using(gq_value::specs::ViewLaws::view_laws))]
pub(crate) fn int(x: &Value) -> i64
    ensures { is_of INT (val x.now) ≡ true → val x.now ≡ plain.Int result }
{
    match x {
        Value::Int(n) => *n,
        Value::UInt(_)
        | Value::Bool(_)
        | Value::Text(_)
        | Value::Vertex(_)
        | Value::Tuple(_)
        | Value::Fraction(_) => 0,
    }
}

// The number of a UINT.
#[tactic(auto, using(gq_value::specs::ViewLaws::view_laws))]
pub(crate) fn uint(x: &Value) -> u64
    ensures { is_of UINT (val x.now) ≡ true → val x.now ≡ plain.UInt result }
{
    match x {
        Value::UInt(n) => *n,
        Value::Int(_)
        | Value::Bool(_)
        | Value::Text(_)
        | Value::Vertex(_)
        | Value::Tuple(_)
        | Value::Fraction(_) => 0,
    }
}

// The truth of a BOOL.
#[tactic(auto, using(gq_value::specs::ViewLaws::view_laws))]
pub(crate) fn truth(x: &Value) -> bool
    ensures { is_of BOOL (val x.now) ≡ true → val x.now ≡ plain.Truth result }
{
    match x {
        Value::Bool(b) => *b,
        Value::Int(_)
        | Value::UInt(_)
        | Value::Text(_)
        | Value::Vertex(_)
        | Value::Tuple(_)
        | Value::Fraction(_) => false,
    }
}
