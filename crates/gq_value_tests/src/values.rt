// Worked values of the order, of arithmetic and of copies.
#![tactic(auto, using(gq_value::specs::ViewLaws::view_laws))]

use gq_base::List;
use gq_graph::Steps;
use gq_value::{
    EvalFault, Fraction, Number, Row, Txt, Value, Wrong, absolute, add, compare, convert, div,
    duplicate_row, mul, negate, rem, same, sub,
};
use std::cmp::Ordering;
use std::test::Fail;

const MAX: i64 = 9223372036854775807;

const MIN: i64 = -9223372036854775808;

const MAX_UINT: u64 = 18446744073709551615;

const RANGE: EvalFault = EvalFault::Wrong(Wrong::Range);

const ZERO: EvalFault = EvalFault::Wrong(Wrong::Zero);

fn average(sum: i64, count: u64) -> Value {
    Value::Fraction(Fraction { sum, count })
}

#[test]
fn numbers_and_averages_stand_by_their_exact_value(rt: HostRuntime) -> Result<(), Fail> {
    let rising = [
        Value::Int(MIN),
        average(-1, 2),
        Value::UInt(0),
        average(1, 3),
        average(1, 2),
        Value::Int(1),
        average(MAX, MAX as u64 - 1),
        Value::Int(MAX),
        Value::UInt(MAX as u64 + 1),
        Value::UInt(MAX_UINT),
        Value::Bool(false),
    ];
    for (i, a) in rising.iter().enumerate() {
        for (j, b) in rising.iter().enumerate() {
            assert_eq!(rt; compare(a, b), i.cmp(&j));
        }
    }
    assert!(rt; same(&Value::Int(7), &Value::UInt(7)));
    assert!(rt; same(&average(6, 4), &average(3, 2)));
    assert!(rt; same(&average(-6, 3), &Value::Int(-2)));
    Ok(())
}

#[test]
fn texts_stand_by_their_bytes_and_tuples_by_their_fields(rt: HostRuntime) -> Result<(), Fail> {
    let alloc = rt.alloc();
    let long = Value::Text(Txt::of(alloc, "ab")?);
    let late = Value::Text(Txt::of(alloc, "b")?);
    assert_eq!(rt; compare(&long, &late), Ordering::Less);
    let mut low = Row::new(alloc);
    low.push(Value::Int(1))?;
    low.push(late)?;
    let mut high = Row::new(alloc);
    high.push(Value::Int(2))?;
    high.push(long)?;
    let low = Value::Tuple(low);
    let high = Value::Tuple(high);
    assert_eq!(rt; compare(&low, &high), Ordering::Less);
    assert_eq!(rt; compare(&Value::Vertex(9), &low), Ordering::Less);
    Ok(())
}

#[test]
fn only_the_same_value_is_equal_as_a_key(rt: HostRuntime) -> Result<(), Fail> {
    assert_eq!(rt; Value::Int(1).cmp(&Value::UInt(1)), Ordering::Less);
    assert_eq!(rt; average(1, 2).cmp(&average(2, 4)), Ordering::Less);
    assert!(rt; Value::Int(1) != Value::UInt(1));
    assert!(rt; average(3, 2) == average(3, 2));
    Ok(())
}

// The whole number that an operation gave.
fn number(answer: Result<Value, EvalFault>) -> Result<i128, EvalFault> {
    match answer {
        Ok(Value::Int(x)) => Ok(i128::from(x)),
        Ok(Value::UInt(x)) => Ok(i128::from(x)),
        Ok(_) => Err(EvalFault::OutOfMemory),
        Err(fault) => Err(fault),
    }
}

#[test]
fn a_quotient_is_cut_and_a_rest_has_the_sign_of_the_dividend(rt: HostRuntime) -> Result<(), Fail> {
    let cases = [
        (-7, 2, Ok(-3), Ok(-1)),
        (7, -2, Ok(-3), Ok(1)),
        (MIN, -1, Err(RANGE), Ok(0)),
        (1, 0, Err(ZERO), Err(ZERO)),
    ];
    for (a, b, quotient, rest) in cases {
        assert_eq!(rt; number(div(&Value::Int(a), &Value::Int(b))), quotient);
        assert_eq!(rt; number(rem(&Value::Int(a), &Value::Int(b))), rest);
    }
    Ok(())
}

#[test]
fn the_widest_numbers_are_exact_or_out_of_range(rt: HostRuntime) -> Result<(), Fail> {
    let cases = [
        (MAX_UINT, MIN, Ok(i128::from(MAX)), Err(RANGE), Err(RANGE)),
        (MAX_UINT, -1, Err(RANGE), Err(RANGE), Err(RANGE)),
        (5, 6, Ok(11), Ok(-1), Ok(30)),
    ];
    for (a, b, sum, difference, product) in cases {
        assert_eq!(rt;
            number(add(rt.alloc(), &Value::UInt(a), &Value::Int(b))),
            sum
        );
        assert_eq!(rt; number(sub(&Value::UInt(a), &Value::Int(b))), difference);
        assert_eq!(rt; number(mul(&Value::UInt(a), &Value::Int(b))), product);
    }
    Ok(())
}

#[test]
fn the_least_int_has_no_negative_and_no_distance_from_zero(rt: HostRuntime) -> Result<(), Fail> {
    assert_eq!(rt; number(negate(&Value::Int(MIN))), Err(RANGE));
    assert_eq!(rt; number(absolute(&Value::Int(MIN))), Err(RANGE));
    assert_eq!(rt; number(convert(&Value::Int(-1), Number::UInt)), Err(RANGE));
    Ok(())
}

#[test]
fn texts_are_joined_and_a_copy_has_every_field(rt: HostRuntime) -> Result<(), Fail> {
    let alloc = rt.alloc();
    let left = Value::Text(Txt::of(alloc, "Jür")?);
    let right = Value::Text(Txt::of(alloc, "gen")?);
    let name = add(alloc, &left, &right)?;
    assert_eq!(rt; name, Value::Text(Txt::of(alloc, "Jürgen")?));
    let mut row = List::new(alloc);
    row.push(name)?;
    row.push(average(1, 2))?;
    row.push(Value::Vertex(3))?;
    let copy = duplicate_row(alloc, row.as_slice())?;
    assert_eq!(rt; copy.as_slice(), row.as_slice());
    let tuple = Value::Tuple(row);
    assert_eq!(rt; tuple.duplicate(alloc)?, tuple);
    Ok(())
}

#[test]
fn steps_are_counted(rt: HostRuntime) -> Result<(), Fail> {
    let mut steps = Steps::new();
    steps.tick();
    steps.tick();
    assert_eq!(rt; steps.count(), 2);
    Ok(())
}
