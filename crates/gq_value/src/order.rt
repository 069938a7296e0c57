// The order of values.
ghost use Rattle.std.specs.Prelude.{◌≡◌, ◌↔◌, IsTrue, pos, ◌*ℤ◌, max};
ghost use Rattle.std.specs.declared.cmp.Ordering.TheVariants.{Equal};
ghost use Rattle.gq_value.specs.Val.{Int, UInt, Fraction as Ratio};
ghost use Rattle.gq_value.specs.Views.{val, vals};
ghost use Rattle.gq_value.specs.Order.{tie_cmp, plain, order, order_rows, compare};

use crate::value::{Fraction, Value};
use std::cmp::Ordering;

/// The order of two values: numbers and averages by exact value, before BOOL with false first, before STRING by bytes, before
/// VERTEX by number, before tuples field by field. Takes no memory.
pub fn compare(a: &Value, b: &Value) -> Ordering
    ensures { result ≡ compare (val a.now) (val b.now) }
{
    order(false, a, b)
}

/// Whether two values are equal in that order, as an INT and the UINT of the same number are.
pub fn same(a: &Value, b: &Value) -> bool
    ensures { IsTrue result ↔ (compare (val a.now) (val b.now) ≡ Equal) }
{
    order(false, a, b) == Ordering::Equal
}

/// The order of `compare`; if `strict`, numbers of one exact value are also ordered, by type and by a fraction's count.
/// Most values that are compared are INTs, so these are compared here, inlined.
#[inline]
#[tactic(auto, using(crate::proofs::PairLemmas::order_steps))]
pub(crate) fn order(strict: bool, a: &Value, b: &Value) -> Ordering
    ensures { result ≡ order strict (val a.now) (val b.now) }
{
    match a {
        Value::Int(x) => match b {
            Value::Int(y) => x.cmp(y),
            _ => order_any(strict, a, b),
        },
        _ => order_any(strict, a, b),
    }
}

/// The same for values of any types.
#[inline(never)]
#[cycle(order)]
#[tactic(auto, using(crate::proofs::PairLemmas::order_steps))]
fn order_any(strict: bool, a: &Value, b: &Value) -> Ordering
    ensures { result ≡ order strict (val a.now) (val b.now) }
{
    match a {
        Value::Int(x) => match b {
            Value::Int(y) => x.cmp(y),
            Value::UInt(y) => int_to_uint(strict, *x, *y),
            Value::Fraction(y) => int_to_fraction(strict, *x, *y),
            Value::Bool(_) | Value::Text(_) | Value::Vertex(_) | Value::Tuple(_) => Ordering::Less,
        },
        Value::UInt(x) => match b {
            Value::Int(y) => int_to_uint(strict, *y, *x).reverse(),
            Value::UInt(y) => x.cmp(y),
            Value::Fraction(y) => uint_to_fraction(strict, *x, *y),
            Value::Bool(_) | Value::Text(_) | Value::Vertex(_) | Value::Tuple(_) => Ordering::Less,
        },
        Value::Fraction(x) => match b {
            Value::Int(y) => int_to_fraction(strict, *y, *x).reverse(),
            Value::UInt(y) => uint_to_fraction(strict, *y, *x).reverse(),
            Value::Fraction(y) => fractions(strict, *x, *y),
            Value::Bool(_) | Value::Text(_) | Value::Vertex(_) | Value::Tuple(_) => Ordering::Less,
        },
        Value::Bool(x) => match b {
            Value::Int(_) | Value::UInt(_) | Value::Fraction(_) => Ordering::Greater,
            Value::Bool(y) => x.cmp(y),
            Value::Text(_) | Value::Vertex(_) | Value::Tuple(_) => Ordering::Less,
        },
        Value::Text(x) => match b {
            Value::Int(_) | Value::UInt(_) | Value::Fraction(_) | Value::Bool(_) =>
                Ordering::Greater,
            Value::Text(y) => x.as_str().as_bytes().cmp(y.as_str().as_bytes()),
            Value::Vertex(_) | Value::Tuple(_) => Ordering::Less,
        },
        Value::Vertex(x) => match b {
            Value::Vertex(y) => x.cmp(y),
            Value::Tuple(_) => Ordering::Less,
            Value::Int(_) | Value::UInt(_) | Value::Fraction(_) | Value::Bool(_) | Value::Text(_) =>
                Ordering::Greater,
        },
        Value::Tuple(x) => match b {
            Value::Tuple(y) => order_rows(strict, x.as_slice(), y.as_slice()),
            Value::Int(_)
            | Value::UInt(_)
            | Value::Fraction(_)
            | Value::Bool(_)
            | Value::Text(_)
            | Value::Vertex(_) => Ordering::Greater,
        },
    }
}

/// Compares rows field by field; if one is a prefix of the other, the shorter comes first.
#[cycle(order)]
#[tactic(auto, using(crate::proofs::PairLemmas::row_steps))]
fn order_rows(strict: bool, a: &[Value], b: &[Value]) -> Ordering
    ensures { result ≡ order_rows strict (vals a.now) (vals b.now) }
{
    for (i, x) in a.iter().enumerate() {
        if i >= b.len() {
            return Ordering::Greater;
        }
        match order_any(strict, x, &b[i]) {
            Ordering::Equal => {}
            other => return other,
        }
    }
    if a.len() < b.len() {
        Ordering::Less
    } else {
        Ordering::Equal
    }
}

/// Orders numbers of one exact value if `strict`: by the places of their types, INT before UINT before averages, or by
/// the counts of two averages.
fn tie(strict: bool, m: u64, n: u64) -> Ordering
    ensures { result ≡ tie_cmp strict m n }
{
    if strict { m.cmp(&n) } else { Ordering::Equal }
}

/// A side of a comparison by cross products.
fn side(sum: i64, count: u64) -> i128
    ensures { result ≡ sum *ℤ pos (max count 1) }
{
    i128::from(sum) * i128::from(count.max(1))
}

#[tactic(auto, using(crate::proofs::PairLemmas::int_uint))]
fn int_to_uint(strict: bool, x: i64, y: u64) -> Ordering
    ensures { result ≡ plain strict (Int x) (UInt y) }
{
    i128::from(x).cmp(&i128::from(y)).then(tie(strict, 0, 1))
}

#[tactic(auto, using(crate::proofs::PairLemmas::int_to_fraction))]
fn int_to_fraction(strict: bool, x: i64, f: Fraction) -> Ordering
    ensures { result ≡ plain strict (Int x) (Ratio f.sum f.count) }
{
    side(x, f.count)
        .cmp(&i128::from(f.sum))
        .then(tie(strict, 0, 1))
}

#[tactic(auto, using(crate::proofs::PairLemmas::uint_to_fraction))]
fn uint_to_fraction(strict: bool, x: u64, f: Fraction) -> Ordering
    ensures { result ≡ plain strict (UInt x) (Ratio f.sum f.count) }
{
    if f.sum < 0 {
        return Ordering::Greater;
    }
    let side = u128::from(x) * u128::from(f.count.max(1));
    side.cmp(&u128::from(f.sum.unsigned_abs()))
        .then(tie(strict, 0, 1))
}

#[tactic(auto, using(crate::proofs::PairLemmas::fractions))]
fn fractions(strict: bool, f: Fraction, g: Fraction) -> Ordering
    ensures { result ≡ plain strict (Ratio f.sum f.count) (Ratio g.sum g.count) }
{
    side(f.sum, g.count)
        .cmp(&side(g.sum, f.count))
        .then(tie(strict, f.count, g.count))
}
