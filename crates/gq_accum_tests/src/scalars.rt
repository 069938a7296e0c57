// Sums, averages, merging of parts, and bits, once each.
use gq_accum::{Fold, OutOfRange, Scalar};
use gq_value::{Fraction, Kind, Number, Value};
use std::test::Fail;

// Feeds inputs to any content, one by one.
fn feed_all<F: Fold>(content: &mut F, inputs: &[F::In]) {
    for x in inputs {
        content.feed(x);
    }
}

#[test]
#[tactic(auto, using(gq_value::proofs::AccumLemmas::accum_laws))]
fn a_sum_may_leave_its_type_on_the_way(rt: HostRuntime) -> Result<(), Fail> {
    let mut sum = Scalar::fresh(&Kind::Sum(Number::Int));
    feed_all(&mut sum, &[Value::Int(9223372036854775807), Value::Int(1)]);
    assert!(rt; !sum.fits());
    assert!(rt; matches!(sum.seal(), Err(OutOfRange)));
    feed_all(&mut sum, &[Value::Int(-1)]);
    assert!(rt; sum.fits());
    assert!(rt; matches!(sum.seal(), Ok(Value::Int(9223372036854775807))));
    Ok(())
}

#[test]
#[tactic(auto, using(gq_value::proofs::AccumLemmas::accum_laws))]
fn an_average_is_an_exact_fraction(rt: HostRuntime) -> Result<(), Fail> {
    let mut average = Scalar::fresh(&Kind::Avg);
    assert!(rt;
        matches!(
            average.seal(),
            Ok(Value::Fraction(Fraction { sum: 0, count: 1 }))
        )
    );
    feed_all(&mut average, &[Value::Int(1), Value::Int(2)]);
    assert!(rt;
        matches!(
            average.seal(),
            Ok(Value::Fraction(Fraction { sum: 3, count: 2 }))
        )
    );
    feed_all(&mut average, &[Value::Int(1)]);
    assert!(rt;
        matches!(
            average.seal(),
            Ok(Value::Fraction(Fraction { sum: 4, count: 3 }))
        )
    );
    let mut below = Scalar::fresh(&Kind::Avg);
    feed_all(
        &mut below,
        &[Value::Int(-1), Value::Int(-1), Value::Int(-2)],
    );
    assert!(rt;
        matches!(
            below.seal(),
            Ok(Value::Fraction(Fraction { sum: -4, count: 3 }))
        )
    );
    Ok(())
}

#[test]
#[tactic(auto, using(gq_value::proofs::AccumLemmas::accum_laws))]
fn parts_merge_to_the_whole(rt: HostRuntime) -> Result<(), Fail> {
    let mut least = Scalar::fresh(&Kind::Min(Number::UInt));
    assert!(rt; matches!(least.seal(), Ok(Value::UInt(18446744073709551615))));
    feed_all(&mut least, &[Value::UInt(7), Value::UInt(5)]);
    let mut part = Scalar::fresh(&Kind::Min(Number::UInt));
    feed_all(&mut part, &[Value::UInt(6)]);
    part.merge(&least);
    assert!(rt; matches!(part.seal(), Ok(Value::UInt(5))));
    Ok(())
}

#[test]
#[tactic(auto, using(gq_value::proofs::AccumLemmas::accum_laws))]
fn bits_and_truths_are_joined(rt: HostRuntime) -> Result<(), Fail> {
    let mut bits = Scalar::fresh(&Kind::BitOr);
    feed_all(
        &mut bits,
        &[Value::Int(12), Value::Int(10), Value::Int(-16)],
    );
    assert!(rt; matches!(bits.seal(), Ok(Value::Int(-2))));
    let mut common = Scalar::fresh(&Kind::BitAnd);
    assert!(rt; matches!(common.seal(), Ok(Value::Int(-1))));
    feed_all(&mut common, &[Value::Int(12), Value::Int(10)]);
    assert!(rt; matches!(common.seal(), Ok(Value::Int(8))));
    let mut all = Scalar::fresh(&Kind::And);
    assert!(rt; matches!(all.seal(), Ok(Value::Bool(true))));
    feed_all(&mut all, &[Value::Bool(true), Value::Bool(false)]);
    assert!(rt; matches!(all.seal(), Ok(Value::Bool(false))));
    Ok(())
}
