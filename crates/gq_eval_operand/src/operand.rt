// Values that operations take.
ghost use Rattle.std.specs.Prelude.{IfOk, MatchOption, ◌≡◌};
ghost use Rattle.gq_value.specs.Arithmetic.{IsWhole};
ghost use Rattle.gq_value.specs.Val.{Text};
ghost use Rattle.gq_value.specs.Views.{val};
ghost use Rattle.gq_plan_ir.specs.Meanings.{as_truth};
ghost use Rattle.gq_eval_operand.specs.Meant.{valued, itself, vertex_of_value, number_in, IsNoText, Tells};

use crate::halt::Halt;
use crate::seen::Operand;
use gq_base::OutOfMemory;
use gq_value::{Txt, Value};
use std::alloc::Global;

/// The number of the vertex, if it is one.
pub fn vertex_in(operand: &Operand<'_>) -> Result<u32, Halt>
    ensures { Tells itself (vertex_of_value (valued operand.now)) result }
{
    match operand {
        Operand::Made(value) => vertex_of(value),
        Operand::Lent(value) => vertex_of(value),
        Operand::Text(_) | Operand::Joined(_) => Err(Halt::Stuck),
    }
}

#[tactic(auto, using(gq_value::specs::ViewLaws::view_laws))]
fn vertex_of(value: &Value) -> Result<u32, Halt>
    ensures { Tells itself (vertex_of_value (val value.now)) result }
{
    match value {
        Value::Vertex(vertex) => Ok(*vertex),
        Value::Int(_) | Value::UInt(_) | Value::Bool(_) | Value::Text(_) => Err(Halt::Stuck),
        Value::Tuple(_) | Value::Fraction(_) => Err(Halt::Stuck),
    }
}

/// The truth, if it is one.
pub fn truth(operand: &Operand<'_>) -> Result<bool, Halt>
    ensures { Tells itself (as_truth (valued operand.now)) result }
{
    match operand {
        Operand::Made(value) => truth_of(value),
        Operand::Lent(value) => truth_of(value),
        Operand::Text(_) | Operand::Joined(_) => Err(Halt::Stuck),
    }
}

#[tactic(auto, using(gq_value::specs::ViewLaws::view_laws))]
fn truth_of(value: &Value) -> Result<bool, Halt>
    ensures { Tells itself (as_truth (val value.now)) result }
{
    match value {
        Value::Bool(truth) => Ok(*truth),
        Value::Int(_) | Value::UInt(_) | Value::Text(_) | Value::Vertex(_) => Err(Halt::Stuck),
        Value::Tuple(_) | Value::Fraction(_) => Err(Halt::Stuck),
    }
}

/// A copy of the whole number, if it is one. Takes no memory.
pub fn number(operand: &Operand<'_>) -> Result<Value, Halt>
    ensures same { Tells val (number_in (valued operand.now)) result }
    ensures whole { IfOk result (λ number. IsWhole (val number)) }
{
    match operand {
        Operand::Made(value) => number_of(value),
        Operand::Lent(value) => number_of(value),
        Operand::Text(_) | Operand::Joined(_) => Err(Halt::Stuck),
    }
}

#[tactic(auto, using(gq_value::specs::ViewLaws::view_laws))]
fn number_of(value: &Value) -> Result<Value, Halt>
    ensures same { Tells val (number_in (val value.now)) result }
    ensures whole { IfOk result (λ number. IsWhole (val number)) }
{
    match value {
        Value::Int(x) => Ok(Value::Int(*x)),
        Value::UInt(x) => Ok(Value::UInt(*x)),
        Value::Bool(_) | Value::Text(_) | Value::Vertex(_) => Err(Halt::Stuck),
        Value::Tuple(_) | Value::Fraction(_) => Err(Halt::Stuck),
    }
}

/// The text, if it is one.
pub fn text<'o>(operand: &'o Operand<'_>) -> Option<&'o str>
    ensures { MatchOption result (IsNoText (valued operand.entry.now)) (λ text. valued operand.entry.now ≡ Text text.now) }
{
    match operand {
        Operand::Made(value) => text_of(value),
        Operand::Lent(value) => text_of(value),
        Operand::Text(text) => Some(text),
        Operand::Joined(text) => Some(text.as_str()),
    }
}

#[tactic(auto, using(gq_value::specs::ViewLaws::view_laws))]
fn text_of(value: &Value) -> Option<&str>
    ensures { MatchOption result (IsNoText (val value.entry.now)) (λ text. val value.entry.now ≡ Text text.now) }
{
    match value {
        Value::Text(text) => Some(text.as_str()),
        Value::Int(_) | Value::UInt(_) | Value::Bool(_) | Value::Vertex(_) => None,
        Value::Tuple(_) | Value::Fraction(_) => None,
    }
}

/// The value, owned. Takes memory for texts and tuples that are borrowed.
#[tactic(auto, using(gq_value::specs::ViewLaws::view_laws))]
pub fn own(alloc: Global, operand: Operand<'_>) -> Result<Value, OutOfMemory>
    ensures { IfOk result (λ value. val value ≡ valued operand.entry) }
{
    match operand {
        Operand::Made(value) => Ok(value),
        Operand::Lent(value) => value.duplicate(alloc),
        Operand::Text(text) => Ok(Value::Text(Txt::of(alloc, text)?)),
        Operand::Joined(text) => Ok(Value::Text(Txt::from_string(text))),
    }
}
