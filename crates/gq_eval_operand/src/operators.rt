// Operators on numbers, texts and truths.
ghost use Rattle.std.specs.Prelude.{◌≡◌, ◌++◌, IfOk, string_bytes};
ghost use Rattle.gq_plan_ir.specs.Answers.{Gives};
ghost use Rattle.gq_plan_ir.specs.Meanings.{numbered, truly, said};
ghost use Rattle.gq_plan_ir.specs.Expressions.{calculated, product, summed, minus, nots};
ghost use Rattle.gq_value.specs.Arithmetic.{added, subtracted};
ghost use Rattle.gq_value.specs.Val.{Text};
ghost use Rattle.gq_value.specs.Views.{val};
ghost use Rattle.gq_eval_operand.specs.Meant.{meant, valued, is_unsigned, Told, Tells};

use crate::halt::Halt;
use crate::operand::{number, text};
use crate::seen::{Operand, Seen, Sort};
use gq_base::OutOfMemory;
use gq_tree::{AddSign, MulSign};
use gq_value::{EvalFault, Value, add, div, mul, negate, rem, sub};
use std::alloc::Global;

/// A number, with its own type.
#[tactic(auto, using(crate::proofs::OperatorLemmas::numbered_laws))]
pub fn numbered<'a>(operand: Operand<'a>) -> Seen<'a>
    ensures { numbered (valued operand.entry) ≡ Gives (meant result) }
{
    if is_unsigned(&operand) {
        Seen::Value(Sort::UInt, operand)
    } else {
        Seen::Value(Sort::Int, operand)
    }
}

/// Whether an operand is a UINT.
pub fn is_unsigned(operand: &Operand<'_>) -> bool
    ensures { result ≡ is_unsigned (valued operand.now) }
{
    match operand {
        Operand::Made(value) => is_uint(value),
        Operand::Lent(value) => is_uint(value),
        Operand::Text(_) | Operand::Joined(_) => false,
    }
}

#[tactic(auto, using(gq_value::specs::ViewLaws::view_laws))]
fn is_uint(value: &Value) -> bool
    ensures { result ≡ is_unsigned (val value.now) }
{
    match value {
        Value::UInt(_) => true,
        Value::Int(_) | Value::Bool(_) | Value::Text(_) | Value::Vertex(_) => false,
        Value::Tuple(_) | Value::Fraction(_) => false,
    }
}

/// A truth.
#[tactic(auto, using(gq_value::specs::ViewLaws::view_laws))]
pub fn truly<'a>(truth: bool) -> Seen<'a>
    ensures { truly truth ≡ Gives (meant result) }
{
    Seen::Value(Sort::Bool, Operand::Made(Value::Bool(truth)))
}

/// The number that results from an operation, or its fault.
pub fn calculated<'a>(answer: Result<Value, EvalFault>) -> Result<Seen<'a>, Halt>
    ensures { Told meant numbered answer result }
{
    match answer {
        Ok(value) => Ok(numbered(Operand::Made(value))),
        Err(EvalFault::Wrong(wrong)) => Err(Halt::Wrong(wrong)),
        Err(EvalFault::OutOfMemory) => Err(Halt::OutOfMemory),
    }
}

/// `*`, `/` and `%`. Takes no memory.
#[tactic(auto, using(crate::proofs::OperatorLemmas::calculated_laws))]
pub fn product<'a>(sign: MulSign, left: &Operand<'_>, right: &Operand<'_>) -> Result<Seen<'a>, Halt>
    ensures { Tells meant (product sign (valued left.now) (valued right.now)) result }
{
    let x = number(left)?;
    let y = number(right)?;
    match sign {
        MulSign::Times => calculated(mul(&x, &y)),
        MulSign::Over => calculated(div(&x, &y)),
        MulSign::Modulo => calculated(rem(&x, &y)),
    }
}

/// `+` and `-`; two texts are joined by `+`. Takes memory only for texts, and appends to a text that `+` made.
#[tactic(auto, using(crate::proofs::OperatorLemmas::summed_laws))]
pub fn summed<'a>(
    alloc: Global,
    sign: AddSign,
    left: Operand<'_>,
    right: &Operand<'_>,
) -> Result<Seen<'a>, Halt>
    ensures { Tells meant (summed sign (valued left.entry) (valued right.now)) result }
{
    match sign {
        AddSign::Plus => plus(alloc, left, right),
        AddSign::Minus => difference(&left, right),
    }
}

#[tactic(auto, using(crate::proofs::OperatorLemmas::summed_laws))]
fn plus<'a>(alloc: Global, left: Operand<'_>, right: &Operand<'_>) -> Result<Seen<'a>, Halt>
    ensures { Tells meant (summed AddSign.Plus (valued left.entry) (valued right.now)) result }
{
    match left {
        Operand::Joined(text) => appended(text, right),
        Operand::Made(value) => first(alloc, &Operand::Made(value), right),
        Operand::Lent(value) => first(alloc, &Operand::Lent(value), right),
        Operand::Text(text) => first(alloc, &Operand::Text(text), right),
    }
}

/// A text that `+` made, and another one after it.
#[tactic(auto, using(crate::proofs::OperatorLemmas::summed_laws))]
fn appended<'a>(left: String, right: &Operand<'_>) -> Result<Seen<'a>, Halt>
    ensures { Tells meant (summed AddSign.Plus (Text (string_bytes left)) (valued right.now)) result }
{
    match text(right) {
        Some(text) => Ok(joined(followed(left, text)?)),
        None => Err(Halt::Stuck),
    }
}

/// `+` on operands that are borrowed or numbers: two texts are copied into a new one.
#[tactic(auto, using(crate::proofs::OperatorLemmas::summed_laws))]
fn first<'a>(alloc: Global, left: &Operand<'_>, right: &Operand<'_>) -> Result<Seen<'a>, Halt>
    ensures { Tells meant (summed AddSign.Plus (valued left.now) (valued right.now)) result }
{
    match text(left) {
        Some(s) => match text(right) {
            Some(t) => Ok(joined(copied(alloc, s, t)?)),
            None => Err(Halt::Stuck),
        },
        None => sum(alloc, left, right),
    }
}

#[tactic(auto, using(crate::proofs::OperatorLemmas::calculated_laws))]
fn sum<'a>(alloc: Global, left: &Operand<'_>, right: &Operand<'_>) -> Result<Seen<'a>, Halt>
    ensures { Tells meant (calculated added (valued left.now) (valued right.now)) result }
{
    let x = number(left)?;
    let y = number(right)?;
    calculated(add(alloc, &x, &y))
}

#[tactic(auto, using(crate::proofs::OperatorLemmas::calculated_laws))]
fn difference<'a>(left: &Operand<'_>, right: &Operand<'_>) -> Result<Seen<'a>, Halt>
    ensures { Tells meant (calculated subtracted (valued left.now) (valued right.now)) result }
{
    let x = number(left)?;
    let y = number(right)?;
    calculated(sub(&x, &y))
}

/// A text that `+` made.
fn joined<'a>(text: String) -> Seen<'a>
    ensures { said (string_bytes text) ≡ Gives (meant result) }
{
    Seen::Value(Sort::Text, Operand::Joined(text))
}

/// A new text: a copy of `left`, and `right` after it.
fn copied(alloc: Global, left: &str, right: &str) -> Result<String, OutOfMemory>
    ensures { IfOk result (λ text. string_bytes text ≡ left.now ++ right.now) }
{
    let mut text = String::with_capacity(alloc, left.len().saturating_add(right.len()))?;
    text.push_str(left)?;
    text.push_str(right)?;
    Ok(text)
}

/// `left` with `right` appended; its memory grows by doubling.
fn followed(left: String, right: &str) -> Result<String, OutOfMemory>
    ensures { IfOk result (λ text. string_bytes text ≡ string_bytes left ++ right.now) }
{
    let mut text = left;
    text.push_str(right)?;
    Ok(text)
}

/// Applies `count` minus signs to a value, from the inner one on. Takes no memory.
#[tactic(auto, using(crate::proofs::OperatorLemmas::minus_laws))]
pub fn minus<'a>(count: usize, operand: Operand<'a>) -> Result<Seen<'a>, Halt>
    ensures { Tells meant (minus count (valued operand.entry)) result }
{
    if count == 0 {
        return Ok(numbered(operand));
    }
    let mut x = number(&operand)?;
    for _turn in 0..count {
        x = match negate(&x) {
            Ok(negative) => negative,
            Err(EvalFault::Wrong(wrong)) => return Err(Halt::Wrong(wrong)),
            Err(EvalFault::OutOfMemory) => return Err(Halt::OutOfMemory),
        };
    }
    Ok(numbered(Operand::Made(x)))
}

/// Applies `count` NOTs to a truth.
#[tactic(auto, using(crate::proofs::OperatorLemmas::nots_laws))]
pub fn nots(count: usize, truth: bool) -> bool
    ensures { result ≡ nots count truth }
{
    let mut turned = truth;
    for _turn in 0..count {
        turned = !turned;
    }
    turned
}
