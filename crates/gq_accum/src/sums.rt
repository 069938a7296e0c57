// Sums and counts: their growth and their final values.
ghost use Rattle.std.specs.Prelude.{◌≡◌, ◌+◌, ◌^◌, ◌<◌, ◌+ℤ◌, pos, true, false, MatchOption};
ghost use Rattle.gq_value.specs.declared.kind.Number.TheVariants as number;
ghost use Rattle.gq_value.specs.Arithmetic.{is_within};
ghost use Rattle.gq_value.specs.Accums.{AvgAccum};
ghost use Rattle.gq_value.specs.Val as plain;
ghost use Rattle.gq_accum_laws.specs.Fits.{fits};
ghost use Rattle.gq_accum_laws.specs.Reads.{average};
ghost use Rattle.gq_accum.specs.Scalars.{IsFar, mean_of};
ghost use Rattle.gq_accum.specs.Wide.{count_of, sum_of};

use crate::scalar::Mean;
use gq_value::Fraction;

/// Adds two sums in 128 bits; every sum of 64-bit numbers is computed here.
///
/// It is exact if both have room: fewer than 2^62 inputs of 64 bits lead to each, so the sum is far from overflow.
/// Otherwise the result is unspecified and wraps, since a check would cost the fast path of blocks a branch per input.
#[inline]
#[tactic(auto, using(crate::proofs::SumSteps::total_is))]
pub fn total(a: i128, b: i128) -> i128
    ensures { IsFar a → IsFar b → result ≡ a +ℤ b }
{
    a.wrapping_add(b)
}

/// The sum of two counts; exact if it is below 2^128, as with fewer inputs than that.
#[inline]
pub fn count(m: u128, n: u128) -> u128
    ensures { m + n < 2 ^ 128 → result ≡ m + n }
{
    m.wrapping_add(n)
}

// The sum as an INT, if it is one.
pub(crate) fn int_of(sum: i128) -> Option<i64>
    ensures { MatchOption result (is_within number.Int sum ≡ false) (λ n. (is_within number.Int sum ≡ true) × (n ≡ sum)) }
{
    match i64::try_from(sum) {
        Ok(n) => Some(n),
        Err(_) => None,
    }
}

// The sum as a UINT, if it is one.
pub(crate) fn uint_of(sum: i128) -> Option<u64>
    ensures { MatchOption result (is_within number.UInt sum ≡ false) (λ n. (is_within number.UInt sum ≡ true) × (pos n ≡ sum)) }
{
    match u64::try_from(sum) {
        Ok(n) => Some(n),
        Err(_) => None,
    }
}

// The fraction of an average that fits.
pub(crate) fn fraction_of(mean: Mean) -> Option<Fraction>
    ensures { MatchOption result (fits AvgAccum (mean_of mean) ≡ false) (λ f. (fits AvgAccum (mean_of mean) ≡ true) × (plain.Fraction f.sum f.count ≡ average (sum_of mean.sum) (count_of mean.count))) }
{
    match i64::try_from(mean.sum.get()) {
        Ok(sum) => match u64::try_from(mean.count.get()) {
            Ok(count) => {
                if count == 0 {
                    Some(Fraction { sum: 0, count: 1 })
                } else if count < 1 << 63 {
                    Some(Fraction { sum, count })
                } else {
                    None
                }
            }
            Err(_) => None,
        },
        Err(_) => None,
    }
}
