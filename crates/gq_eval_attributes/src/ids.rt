// Numbers in ids.
ghost use Rattle.std.specs.Prelude.{◌≡◌, ◌≤◌, ◌+◌, ◌*◌, ◌-◌, ◌^◌, MatchOption, FitsSigned, pos, neg_ℤ};
ghost use Rattle.std.specs.Int.{w64};
ghost use Rattle.gq_index.specs.Rows.{IsId};
ghost use Rattle.gq_rules_meaning.specs.Answers.{Gives};
ghost use Rattle.gq_rules_meaning.specs.Graphs.{number_in, integer_in};
ghost use Rattle.gq_eval_operand.specs.Meant.{meant};
ghost use Rattle.gq_eval_operand.specs.Sound.{Sound};
ghost use Rattle.gq_eval_attributes.specs.Attributes.{id_shown};

use gq_eval_operand::{Operand, Seen, Sort};
use gq_graph::{IdKind, IdShape};
use gq_value::Value;

/// An id in stored form, as a value of its type.
#[tactic(auto, using(gq_value::specs::ViewLaws::view_laws, crate::proofs::IdLemmas::id_laws))]
pub(crate) fn id_value<'a>(shape: &IdShape, id: &'a str) -> Seen<'a>
    requires { IsId shape.now.kind id.now }
    ensures told { id_shown shape.now id.entry.now ≡ Gives (meant result) }
    ensures sound { Sound result }
{
    match shape.kind {
        IdKind::Text => Seen::Value(Sort::Text, Operand::Text(id)),
        IdKind::Int => match integer_in(id.as_bytes()) {
            Some(x) => Seen::Value(Sort::Int, Operand::Made(Value::Int(x))),
            None => unreachable!(),
        },
        IdKind::UInt => match number_in(id.as_bytes()) {
            Some(n) => Seen::Value(Sort::UInt, Operand::Made(Value::UInt(n))),
            None => unreachable!(),
        },
    }
}

/// The number that decimal digits denote. None if 64 bits are too few for it.
#[tactic(auto, using(crate::proofs::IdLemmas::digit_laws))]
pub fn number_in(digits: &[u8]) -> Option<u64>
    ensures { MatchOption result (2 ^ 64 ≤ number_in digits.now 0) (λ n. number_in digits.now 0 ≡ n) }
{
    let mut n = 0u64;
    for digit in digits {
        match with_digit(n, *digit) {
            Some(more) => n = more,
            None => return None,
        }
    }
    Some(n)
}

/// A number with one more digit. None if 64 bits are too few for it.
fn with_digit(n: u64, digit: u8) -> Option<u64>
    ensures { MatchOption result (2 ^ 64 ≤ 10 * n + (digit - 48)) (λ m. m ≡ 10 * n + (digit - 48)) }
{
    match n.checked_mul(10) {
        Some(tens) => tens.checked_add(u64::from(digit.saturating_sub(48))),
        None => None,
    }
}

/// The number that decimal digits denote, with or without a minus sign. None if 64 bits are too few for it.
#[tactic(auto, using(crate::proofs::IdLemmas::integer_laws))]
pub fn integer_in(text: &[u8]) -> Option<i64>
    ensures { MatchOption result (FitsSigned w64 (integer_in text.now) → ⊥) (λ x. integer_in text.now ≡ x) }
{
    match text {
        [] => Some(0),
        [b'-', digits @ ..] => match number_in(digits) {
            Some(n) => negative(n),
            None => None,
        },
        [_, ..] => match number_in(text) {
            Some(n) => positive(n),
            None => None,
        },
    }
}

/// A number below 0, if 64 bits are enough for it.
fn negative(n: u64) -> Option<i64>
    ensures { MatchOption result (FitsSigned w64 (neg_ℤ (pos n)) → ⊥) (λ x. x ≡ neg_ℤ (pos n)) }
{
    0i64.checked_sub_unsigned(n)
}

/// A number, if 64 bits with a sign are enough for it.
fn positive(n: u64) -> Option<i64>
    ensures { MatchOption result (FitsSigned w64 (pos n) → ⊥) (λ x. x ≡ pos n) }
{
    0i64.checked_add_unsigned(n)
}
