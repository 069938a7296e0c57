// Contents of the scalar kinds.
ghost use Rattle.std.specs.Prelude.{◌≡◌, ◌≢◌, true};
ghost use Rattle.gq_value.specs.Accums.{AvgAccum};
ghost use Rattle.gq_value.specs.AccumViews.{accum_of};
ghost use Rattle.gq_value.specs.Views.{val};
ghost use Rattle.gq_value.specs.Typed.{is_scalar, takes};
ghost use Rattle.gq_accum_laws.specs.Fits.{fits};
ghost use Rattle.gq_accum_laws.specs.Reads.{set_to};
ghost use Rattle.gq_accum.specs.Scalars.{kind_of, content, IsFresh};
ghost use Rattle.gq_accum.specs.Seals.{Seals};

use crate::inputs::{int, truth, uint};
use crate::sums::{fraction_of, int_of, uint_of};
use crate::wide::{Count, Sum};
use gq_value::{Kind, Number, Value};
use thiserror::Error;

/// A sum or average that is outside its type.
#[derive(Clone, Copy, Debug, PartialEq, Eq, Error)]
#[error("sum out of range")]
pub struct OutOfRange;

/// A sum, and how many numbers it has.
#[derive(Clone, Copy, Debug)]
pub struct Mean {
    pub sum: Sum,
    pub count: Count,
}

/// The content of an accumulator of a scalar kind: one number, truth or average.
///
/// Sums have 128 bits, so that they may exceed their type on the way; `fits` checks the final sum. A variant's name
/// ends in the type of its numbers, if its kind has one. The bits are those of an INT.
#[derive(Clone, Copy, Debug)]
pub enum Scalar {
    SumInt(Sum),
    SumUInt(Sum),
    MinInt(i64),
    MinUInt(u64),
    MaxInt(i64),
    MaxUInt(u64),
    Or(bool),
    And(bool),
    BitOr(i64),
    BitAnd(i64),
    Avg(Mean),
}

impl Scalar {
    /// The content before any input.
    #[tactic(auto, using(gq_value::proofs::AccumLemmas::accum_laws, crate::proofs::FreshSteps::fresh_steps))]
    pub fn fresh(kind: &Kind) -> Scalar
        requires { is_scalar (accum_of kind.now) ≡ true }
        ensures { IsFresh (accum_of kind.now) result }
    {
        match kind {
            Kind::Sum(number) => match number {
                Number::Int => Scalar::SumInt(Sum::of(0)),
                Number::UInt => Scalar::SumUInt(Sum::of(0)),
            },
            Kind::Min(number) => match number {
                Number::Int => Scalar::MinInt(i64::MAX),
                Number::UInt => Scalar::MinUInt(u64::MAX),
            },
            Kind::Max(number) => match number {
                Number::Int => Scalar::MaxInt(i64::MIN),
                Number::UInt => Scalar::MaxUInt(0),
            },
            Kind::Or => Scalar::Or(false),
            Kind::And => Scalar::And(true),
            Kind::BitOr => Scalar::BitOr(0),
            Kind::BitAnd => Scalar::BitAnd(-1),
            Kind::Avg => Scalar::Avg(Mean {
                sum: Sum::of(0),
                count: Count::of(0),
            }),
            Kind::Set(_)
            | Kind::Bag(_)
            | Kind::List(_)
            | Kind::Map(_, _)
            | Kind::Group(_)
            | Kind::Heap(_) => unreachable!(),
        }
    }

    /// Sets the content to one value, whatever it was. An average can't be set.
    pub fn set(&mut self, x: &Value)
        requires takes { takes (kind_of self.old) (val x.now) ≡ true }
        requires settable { kind_of self.old ≢ AvgAccum }
        ensures kept { kind_of self.new ≡ kind_of self.old }
        ensures set { content (kind_of self.old) self.new ≡ set_to (kind_of self.old) (val x.now) }
    {
        *self = match *self {
            Scalar::SumInt(_) => Scalar::SumInt(Sum::of(i128::from(int(x)))),
            Scalar::SumUInt(_) => Scalar::SumUInt(Sum::of(i128::from(uint(x)))),
            Scalar::MinInt(_) => Scalar::MinInt(int(x)),
            Scalar::MinUInt(_) => Scalar::MinUInt(uint(x)),
            Scalar::MaxInt(_) => Scalar::MaxInt(int(x)),
            Scalar::MaxUInt(_) => Scalar::MaxUInt(uint(x)),
            Scalar::Or(_) => Scalar::Or(truth(x)),
            Scalar::And(_) => Scalar::And(truth(x)),
            Scalar::BitOr(_) => Scalar::BitOr(int(x)),
            Scalar::BitAnd(_) => Scalar::BitAnd(int(x)),
            Scalar::Avg(_) => unreachable!(),
        };
    }

    /// Whether a sum is within its type, and an average's sum within INT and its count below 2^63. All else fits.
    pub fn fits(&self) -> bool
        ensures { result ≡ fits (kind_of self.now) (content (kind_of self.now) self.now) }
    {
        match self {
            Scalar::SumInt(sum) => int_of(sum.get()).is_some(),
            Scalar::SumUInt(sum) => uint_of(sum.get()).is_some(),
            Scalar::Avg(mean) => fraction_of(*mean).is_some(),
            Scalar::MinInt(_)
            | Scalar::MinUInt(_)
            | Scalar::MaxInt(_)
            | Scalar::MaxUInt(_)
            | Scalar::Or(_)
            | Scalar::And(_)
            | Scalar::BitOr(_)
            | Scalar::BitAnd(_) => true,
        }
    }

    /// The value of a content that fits. An average without inputs is 0 over 1.
    pub fn seal(&self) -> Result<Value, OutOfRange>
        ensures { Seals (kind_of self.now) (content (kind_of self.now) self.now) result }
    {
        match self {
            Scalar::SumInt(sum) => match int_of(sum.get()) {
                Some(n) => Ok(Value::Int(n)),
                None => Err(OutOfRange),
            },
            Scalar::SumUInt(sum) => match uint_of(sum.get()) {
                Some(n) => Ok(Value::UInt(n)),
                None => Err(OutOfRange),
            },
            Scalar::MinInt(n) | Scalar::MaxInt(n) | Scalar::BitOr(n) | Scalar::BitAnd(n) => {
                Ok(Value::Int(*n))
            }
            Scalar::MinUInt(n) | Scalar::MaxUInt(n) => Ok(Value::UInt(*n)),
            Scalar::Or(b) | Scalar::And(b) => Ok(Value::Bool(*b)),
            Scalar::Avg(mean) => match fraction_of(*mean) {
                Some(fraction) => Ok(Value::Fraction(fraction)),
                None => Err(OutOfRange),
            },
        }
    }
}

// Contents have millions of these.
const _: () = prove!(size_of::<Scalar>() <= 40);
