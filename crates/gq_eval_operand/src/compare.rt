// Comparisons.
ghost use Rattle.std.specs.Prelude.{◌≡◌, ◌⊎◌, MatchOption};
ghost use Rattle.gq_value.specs.Val as val;
ghost use Rattle.gq_value.specs.Views.{val};
ghost use Rattle.gq_plan_ir.specs.Types.{is_equality};
ghost use Rattle.gq_plan_ir.specs.Expressions.{may_compare, related, compared};
ghost use Rattle.gq_eval_operand.specs.Meant.{meant, valued, IsText, Tells};

use crate::halt::Halt;
use crate::operand::text;
use crate::operators::truly;
use crate::seen::{Operand, Seen};
use gq_tree::CmpSign;
use gq_value::{Value, compare};
use std::cmp::Ordering;

/// A comparison: of numbers, averages and texts by every sign, of truths and vertices only by `==` and `!=`. Takes no
/// memory.
#[tactic(auto, using(crate::proofs::CompareLemmas::text_laws))]
pub fn compared<'a>(
    sign: CmpSign,
    left: &Operand<'_>,
    right: &Operand<'_>,
) -> Result<Seen<'a>, Halt>
    ensures { Tells meant (compared sign (valued left.now) (valued right.now)) result }
{
    match held(left) {
        Some(v) => match held(right) {
            Some(w) => values(sign, v, w),
            None => texts(sign, left, right),
        },
        None => texts(sign, left, right),
    }
}

/// The value; None only for a text.
pub fn held<'o>(operand: &'o Operand<'_>) -> Option<&'o Value>
    ensures { MatchOption result (IsText (valued operand.entry.now)) (λ value. val value.now ≡ valued operand.entry.now) }
{
    match operand {
        Operand::Made(value) => Some(value),
        Operand::Lent(value) => Some(value),
        Operand::Text(_) | Operand::Joined(_) => None,
    }
}

fn values<'a>(sign: CmpSign, v: &Value, w: &Value) -> Result<Seen<'a>, Halt>
    ensures { Tells meant (compared sign (val v.now) (val w.now)) result }
{
    if may_compare(sign, rank(v), rank(w)) {
        Ok(truly(related(sign, compare(v, w))))
    } else {
        Err(Halt::Stuck)
    }
}

/// Compares two values, one of which is a text.
#[tactic(auto, using(crate::proofs::CompareLemmas::text_laws))]
fn texts<'a>(sign: CmpSign, left: &Operand<'_>, right: &Operand<'_>) -> Result<Seen<'a>, Halt>
    requires { IsText (valued left.now) ⊎ IsText (valued right.now) }
    ensures { Tells meant (compared sign (valued left.now) (valued right.now)) result }
{
    match text(left) {
        Some(s) => match text(right) {
            Some(t) => Ok(truly(related(sign, s.as_bytes().cmp(t.as_bytes())))),
            None => Err(Halt::Stuck),
        },
        None => Err(Halt::Stuck),
    }
}

/// The comparable groups of values: numbers, truths, texts, vertices, tuples.
#[tactic(auto, using(gq_value::specs::ViewLaws::view_laws))]
fn rank(value: &Value) -> u8
    ensures { result ≡ val.rank (val value.now) }
{
    match value {
        Value::Int(_) | Value::UInt(_) | Value::Fraction(_) => 0,
        Value::Bool(_) => 1,
        Value::Text(_) => 2,
        Value::Vertex(_) => 3,
        Value::Tuple(_) => 4,
    }
}

fn may_compare(sign: CmpSign, r: u8, q: u8) -> bool
    ensures { result ≡ may_compare sign r q }
{
    r == q && (r == 0 || (r == 2 || (is_equality(sign) && (r == 1 || r == 3))))
}

fn is_equality(sign: CmpSign) -> bool
    ensures { result ≡ is_equality sign }
{
    match sign {
        CmpSign::Equal | CmpSign::NotEqual => true,
        CmpSign::Less | CmpSign::LessOrEqual => false,
        CmpSign::Greater | CmpSign::GreaterOrEqual => false,
    }
}

fn related(sign: CmpSign, order: Ordering) -> bool
    ensures { result ≡ related sign order }
{
    match sign {
        CmpSign::Equal => order == Ordering::Equal,
        CmpSign::NotEqual => order != Ordering::Equal,
        CmpSign::Less => order == Ordering::Less,
        CmpSign::LessOrEqual => order != Ordering::Greater,
        CmpSign::Greater => order == Ordering::Greater,
        CmpSign::GreaterOrEqual => order != Ordering::Less,
    }
}
