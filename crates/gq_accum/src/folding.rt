// Scalars as folds.
ghost use Rattle.gq_accum_laws.proofs.ProperLaws.{merge_law};
ghost use Rattle.gq_accum.specs.Scalars.{kind_of, content, alone};
ghost use Rattle.gq_accum.specs.ScalarLaws.{no_list};

use crate::fold::Fold;
use crate::inputs::{int, truth, uint};
use crate::scalar::{Mean, Scalar};
use crate::sums::{count, total};
use crate::wide::{Count, Sum};
use gq_value::Value;

impl Fold for Scalar {
    type In = Value;

    ghost kind = { kind_of };

    ghost content = { content };

    ghost input = { alone };

    ghost commutes = { λ s c d. merge_law.commutes (kind_of s) c d (no_list s) };

    ghost associates = { λ s. merge_law.associates (kind_of s) };

    ghost neutral = { λ s. merge_law.neutral (kind_of s) };

    ghost one = { λ s c x. merge_law.one (kind_of s) c (alone x) };

    fn feed(&mut self, x: &Value) {
        *self = match *self {
            Scalar::SumInt(sum) => Scalar::SumInt(Sum::of(total(sum.get(), i128::from(int(x))))),
            Scalar::SumUInt(sum) => Scalar::SumUInt(Sum::of(total(sum.get(), i128::from(uint(x))))),
            Scalar::MinInt(least) => Scalar::MinInt(int(x).min(least)),
            Scalar::MinUInt(least) => Scalar::MinUInt(uint(x).min(least)),
            Scalar::MaxInt(most) => Scalar::MaxInt(int(x).max(most)),
            Scalar::MaxUInt(most) => Scalar::MaxUInt(uint(x).max(most)),
            Scalar::Or(any) => Scalar::Or(truth(x) || any),
            Scalar::And(all) => Scalar::And(truth(x) && all),
            Scalar::BitOr(bits) => Scalar::BitOr(int(x) | bits),
            Scalar::BitAnd(bits) => Scalar::BitAnd(int(x) & bits),
            Scalar::Avg(mean) => Scalar::Avg(Mean {
                sum: Sum::of(total(mean.sum.get(), i128::from(int(x)))),
                count: Count::of(count(mean.count.get(), 1)),
            }),
        };
    }

    fn merge(&mut self, other: &Scalar) {
        *self = match (*self, *other) {
            (Scalar::SumInt(a), Scalar::SumInt(b)) => Scalar::SumInt(Sum::of(total(
                a.get(),
                b.get(),
            ))),
            (Scalar::SumUInt(a), Scalar::SumUInt(b)) => Scalar::SumUInt(Sum::of(total(
                a.get(),
                b.get(),
            ))),
            (Scalar::MinInt(a), Scalar::MinInt(b)) => Scalar::MinInt(a.min(b)),
            (Scalar::MinUInt(a), Scalar::MinUInt(b)) => Scalar::MinUInt(a.min(b)),
            (Scalar::MaxInt(a), Scalar::MaxInt(b)) => Scalar::MaxInt(a.max(b)),
            (Scalar::MaxUInt(a), Scalar::MaxUInt(b)) => Scalar::MaxUInt(a.max(b)),
            (Scalar::Or(a), Scalar::Or(b)) => Scalar::Or(a || b),
            (Scalar::And(a), Scalar::And(b)) => Scalar::And(a && b),
            (Scalar::BitOr(a), Scalar::BitOr(b)) => Scalar::BitOr(a | b),
            (Scalar::BitAnd(a), Scalar::BitAnd(b)) => Scalar::BitAnd(a & b),
            (Scalar::Avg(a), Scalar::Avg(b)) => Scalar::Avg(Mean {
                sum: Sum::of(total(a.sum.get(), b.sum.get())),
                count: Count::of(count(a.count.get(), b.count.get())),
            }),
            (kept, _) => kept,
        };
    }
}
