// The values that contents read as.
ghost use Rattle.std.specs.Prelude.{◌≡◌, IfOk, true};
ghost use Rattle.gq_value.specs.Accums.{AvgAccum, INT, BOOL};
ghost use Rattle.gq_value.specs.AccumViews.{accum_of};
ghost use Rattle.gq_value.specs.Typed.{is_scalar, number_type};
ghost use Rattle.gq_plan_ir.specs.Answers.{Gives};
ghost use Rattle.gq_eval_operand.specs.Meant.{meant, sort_is, read_of, opening_of, number_read, Tells};
ghost use Rattle.gq_eval_operand.specs.Sound.{IsSound, Sound, ReadsAs};

use crate::halt::Halt;
use crate::seen::{Operand, Seen, Sort};
use gq_nest::Content;
use gq_value::{Fraction, Kind, Number, Value};

/// The value of a content of a kind: a number, truth or average, or the whole collection. Takes no memory.
#[tactic(auto, using(gq_value::proofs::AccumLemmas::accum_laws, crate::proofs::ContentLemmas::read_laws, crate::proofs::ContentLemmas::whole_laws))]
pub fn read<'a>(kind: &'a Kind, content: &'a Content) -> Result<Seen<'a>, Halt>
    requires { IsSound (accum_of kind.now) content.now }
    ensures read { Tells meant (Gives (read_of (accum_of kind.entry.now) content.entry.now)) result }
    ensures sound { IfOk result Sound }
{
    match kind {
        Kind::Sum(number) | Kind::Min(number) | Kind::Max(number) => {
            Ok(scalar(kind, sort_of(*number), content))
        }
        Kind::Or | Kind::And => Ok(scalar(kind, Sort::Bool, content)),
        Kind::BitOr | Kind::BitAnd => Ok(scalar(kind, Sort::Int, content)),
        Kind::Avg => averaged(kind, content),
        Kind::Set(_) | Kind::Bag(_) | Kind::List(_) => Ok(Seen::Whole(kind, content)),
        Kind::Map(_, _) | Kind::Group(_) | Kind::Heap(_) => Ok(Seen::Whole(kind, content)),
    }
}

/// The value of a number or truth.
#[tactic(auto, using(crate::proofs::ContentLemmas::scalar_laws))]
fn scalar<'a>(kind: &Kind, sort: Sort<'a>, content: &Content) -> Seen<'a>
    requires sound { IsSound (accum_of kind.now) content.now }
    requires scalar { is_scalar (accum_of kind.now) ≡ true }
    requires reads { ReadsAs (accum_of kind.now) (sort_is sort) }
    ensures read { meant result ≡ read_of (accum_of kind.now) content.now }
    ensures sound { Sound result }
{
    Seen::Value(sort, Operand::Made(content.value()))
}

#[tactic(auto, using(gq_value::specs::ViewLaws::view_laws, crate::proofs::ContentLemmas::fitting, crate::proofs::ContentLemmas::average_read))]
fn averaged<'a>(kind: &Kind, content: &Content) -> Result<Seen<'a>, Halt>
    requires sound { IsSound (accum_of kind.now) content.now }
    requires average { accum_of kind.now ≡ AvgAccum }
    ensures read { Tells meant (Gives (read_of (accum_of kind.now) content.now)) result }
    ensures sound { IfOk result Sound }
{
    match content.value() {
        Value::Fraction(average) => Ok(Seen::Average(average)),
        Value::Int(_) => unreachable!(),
        Value::UInt(_) => unreachable!(),
        Value::Bool(_) => unreachable!(),
        Value::Text(_) => unreachable!(),
        Value::Vertex(_) => unreachable!(),
        Value::Tuple(_) => unreachable!(),
    }
}

fn sort_of<'a>(number: Number) -> Sort<'a>
    ensures { sort_is result ≡ number_type number }
{
    match number {
        Number::Int => Sort::Int,
        Number::UInt => Sort::UInt,
    }
}

/// The value of a content of a kind before any input. Takes no memory.
#[tactic(auto, using(gq_value::proofs::AccumLemmas::accum_laws, gq_value::specs::ViewLaws::view_laws, crate::proofs::ContentLemmas::whole_laws))]
pub fn opening<'a>(kind: &'a Kind) -> Seen<'a>
    ensures read { meant result ≡ opening_of (accum_of kind.entry.now) }
    ensures sound { Sound result }
{
    match kind {
        Kind::Sum(number) => number_seen(*number, 0, 0),
        Kind::Min(number) => number_seen(*number, i64::MAX, u64::MAX),
        Kind::Max(number) => number_seen(*number, i64::MIN, 0),
        Kind::Or => Seen::Value(Sort::Bool, Operand::Made(Value::Bool(false))),
        Kind::And => Seen::Value(Sort::Bool, Operand::Made(Value::Bool(true))),
        Kind::BitOr => Seen::Value(Sort::Int, Operand::Made(Value::Int(0))),
        Kind::BitAnd => Seen::Value(Sort::Int, Operand::Made(Value::Int(-1))),
        Kind::Avg => Seen::Average(Fraction { sum: 0, count: 1 }),
        Kind::Set(_) | Kind::Bag(_) | Kind::List(_) => Seen::Opening(kind),
        Kind::Map(_, _) | Kind::Group(_) | Kind::Heap(_) => Seen::Opening(kind),
    }
}

/// The one number as an INT, or the other as a UINT.
#[tactic(auto, using(gq_value::specs::ViewLaws::view_laws))]
fn number_seen<'a>(number: Number, int: i64, uint: u64) -> Seen<'a>
    ensures read { meant result ≡ number_read number int uint }
    ensures sound { Sound result }
{
    match number {
        Number::Int => Seen::Value(Sort::Int, Operand::Made(Value::Int(int))),
        Number::UInt => Seen::Value(Sort::UInt, Operand::Made(Value::UInt(uint))),
    }
}
