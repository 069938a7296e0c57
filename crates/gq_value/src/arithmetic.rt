// Exact arithmetic on whole numbers.
//
// Two INT, by far the most common operands, are computed in 64 bits; a mixed pair, which may lie anywhere between the least
// INT and the greatest UINT, in 128.
ghost use Rattle.std.specs.Prelude.{◌≡◌, ◌+ℤ◌, ◌++◌, IfOk};
ghost use Rattle.gq_value.specs.Views.{val};
ghost use Rattle.gq_value.specs.Answers.{Gives};
ghost use Rattle.gq_value.specs.Arithmetic.{IsWhole, IsText, IsSummable, IsWide, whole, type_of, type_of_both, in_type, added, subtracted, multiplied, divided, remainder, negated, absolute, converted};

use crate::kind::Number;
use crate::txt::Txt;
use crate::value::{EvalFault, Value, Wrong};
use gq_base::OutOfMemory;
use std::alloc::Global;

/// `a + b`: of whole numbers, a UINT if both are UINT, else an INT; of two texts, their concatenation. Takes memory
/// only for texts.
#[tactic(auto, using(crate::proofs::ArithmeticLemmas::sum_steps))]
pub fn add(alloc: Global, a: &Value, b: &Value) -> Result<Value, EvalFault>
    requires { IsSummable (val a.now) (val b.now) }
    ensures { Gives (IsText (val a.now)) result (added (val a.now) (val b.now)) }
{
    match a {
        Value::Text(left) => match b {
            Value::Text(right) => Ok(Value::Text(joined(alloc, left.as_str(), right.as_str())?)),
            Value::Int(_)
            | Value::UInt(_)
            | Value::Bool(_)
            | Value::Vertex(_)
            | Value::Tuple(_)
            | Value::Fraction(_) => unreachable!(),
        },
        Value::Int(_) | Value::UInt(_) => sum(a, b),
        Value::Bool(_) | Value::Vertex(_) | Value::Tuple(_) | Value::Fraction(_) => unreachable!(),
    }
}

fn sum(a: &Value, b: &Value) -> Result<Value, EvalFault>
    requires left { IsWhole (val a.now) }
    requires right { IsWhole (val b.now) }
    ensures { Gives ⊥ result (in_type (type_of_both (val a.now) (val b.now)) (whole (val a.now) +ℤ whole (val b.now))) }
{
    in_type(type_of_both(a, b), whole(a) + whole(b))
}

fn joined(alloc: Global, left: &str, right: &str) -> Result<Txt, OutOfMemory>
    ensures { IfOk result (λ text. text ≡ left.now ++ right.now) }
{
    let mut text = String::with_capacity(alloc, left.len().saturating_add(right.len()))?;
    text.push_str(left)?;
    text.push_str(right)?;
    Ok(Txt::from_string(text))
}

/// `a - b`, of whole numbers: a UINT if both are UINT, else an INT. Takes no memory.
pub fn sub(a: &Value, b: &Value) -> Result<Value, EvalFault>
    requires left { IsWhole (val a.now) }
    requires right { IsWhole (val b.now) }
    ensures { Gives ⊥ result (subtracted (val a.now) (val b.now)) }
{
    in_type(type_of_both(a, b), whole(a) - whole(b))
}

/// `a * b`, with the type of `sub`. Takes no memory.
#[tactic(auto, using(crate::proofs::ArithmeticLemmas::refused))]
pub fn mul(a: &Value, b: &Value) -> Result<Value, EvalFault>
    requires left { IsWhole (val a.now) }
    requires right { IsWhole (val b.now) }
    ensures { Gives ⊥ result (multiplied (val a.now) (val b.now)) }
{
    match whole(a).checked_mul(whole(b)) {
        Some(product) => in_type(type_of_both(a, b), product),
        None => Err(EvalFault::Wrong(Wrong::Range)),
    }
}

/// `a / b`, truncated towards zero, with the type of `sub`. The fault Zero if `b` is 0. Takes no memory.
#[tactic(auto, using(crate::proofs::ArithmeticLemmas::zero_is))]
pub fn div(a: &Value, b: &Value) -> Result<Value, EvalFault>
    requires left { IsWhole (val a.now) }
    requires right { IsWhole (val b.now) }
    ensures { Gives ⊥ result (divided (val a.now) (val b.now)) }
{
    let divisor = whole(b);
    if divisor == 0 {
        return Err(EvalFault::Wrong(Wrong::Zero));
    }
    in_type(type_of_both(a, b), whole(a) / divisor)
}

/// `a % b`, with the sign of `a` and the type of `sub`. The fault Zero if `b` is 0. Takes no memory.
#[tactic(auto, using(crate::proofs::ArithmeticLemmas::zero_is))]
pub fn rem(a: &Value, b: &Value) -> Result<Value, EvalFault>
    requires left { IsWhole (val a.now) }
    requires right { IsWhole (val b.now) }
    ensures { Gives ⊥ result (remainder (val a.now) (val b.now)) }
{
    let divisor = whole(b);
    if divisor == 0 {
        return Err(EvalFault::Wrong(Wrong::Zero));
    }
    in_type(type_of_both(a, b), whole(a) % divisor)
}

/// `-a`, of a whole number: an INT. Takes no memory.
pub fn negate(a: &Value) -> Result<Value, EvalFault>
    requires { IsWhole (val a.now) }
    ensures { Gives ⊥ result (negated (val a.now)) }
{
    in_type(Number::Int, -whole(a))
}

/// The absolute value of the number `a`, in the type of `a`. Takes no memory.
pub fn absolute(a: &Value) -> Result<Value, EvalFault>
    requires { IsWhole (val a.now) }
    ensures { Gives ⊥ result (absolute (val a.now)) }
{
    in_type(type_of(a), whole(a).abs())
}

/// The number of `a` as a value of `to`. Takes no memory.
pub fn convert(a: &Value, to: Number) -> Result<Value, EvalFault>
    requires { IsWhole (val a.now) }
    ensures { Gives ⊥ result (converted (val a.now) to) }
{
    in_type(to, whole(a))
}

/// The number of a whole number.
#[tactic(auto, using(crate::specs::ViewLaws::view_laws))]
fn whole(a: &Value) -> i128
    requires { IsWhole (val a.now) }
    ensures value { result ≡ whole (val a.now) }
    ensures wide { IsWide result }
{
    match a {
        Value::Int(x) => i128::from(*x),
        Value::UInt(x) => i128::from(*x),
        Value::Bool(_) | Value::Text(_) | Value::Vertex(_) | Value::Tuple(_) | Value::Fraction(_) =>
            unreachable!(),
    }
}

/// The type of a whole number.
#[tactic(auto, using(crate::specs::ViewLaws::view_laws))]
fn type_of(a: &Value) -> Number
    ensures { result ≡ type_of (val a.now) }
{
    match a {
        Value::UInt(_) => Number::UInt,
        Value::Int(_)
        | Value::Bool(_)
        | Value::Text(_)
        | Value::Vertex(_)
        | Value::Tuple(_)
        | Value::Fraction(_) => Number::Int,
    }
}

/// The type of a result of two whole numbers.
#[tactic(auto, using(crate::proofs::ArithmeticLemmas::type_steps))]
fn type_of_both(a: &Value, b: &Value) -> Number
    ensures { result ≡ type_of_both (val a.now) (val b.now) }
{
    match type_of(a) {
        Number::Int => Number::Int,
        Number::UInt => type_of(b),
    }
}

/// A number as a value of a type, if the type can hold it.
fn in_type(kind: Number, number: i128) -> Result<Value, EvalFault>
    ensures { Gives ⊥ result (in_type kind number) }
{
    match kind {
        Number::Int => match i64::try_from(number) {
            Ok(x) => Ok(Value::Int(x)),
            Err(_) => Err(EvalFault::Wrong(Wrong::Range)),
        },
        Number::UInt => match u64::try_from(number) {
            Ok(x) => Ok(Value::UInt(x)),
            Err(_) => Err(EvalFault::Wrong(Wrong::Range)),
        },
    }
}
