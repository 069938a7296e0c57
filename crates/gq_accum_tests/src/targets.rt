// Numbers of targets, and their contents.
use gq_accum::Scalar;
use gq_base::{List, OutOfMemory};
use gq_frame::{Accums, Slots};
use gq_nest::Content;
use gq_value::{BaseType, Input, Kind, Number, Slot, Value};
use std::alloc::Global;
use std::test::Fail;

// Returns three slots: an attached sum, a set, and an attached maximum.
fn three(alloc: Global, vertices: u32) -> Result<Slots, OutOfMemory> {
    let mut declared = List::new(alloc);
    for (kind, attached) in [
        (Kind::Sum(Number::Int), true),
        (Kind::Set(BaseType::Int), false),
        (Kind::Max(Number::Int), true),
    ] {
        declared.push(Slot { kind, attached })?;
    }
    Ok(Slots { declared, vertices })
}

#[test]
fn targets_stand_in_order_of_declaration_and_vertex(rt: HostRuntime) -> Result<(), Fail> {
    let slots = three(rt.alloc(), 3)?;
    assert!(rt; slots.declared.len() == 3);
    for (slot, vertex, number) in [(0, 0, 0), (0, 2, 2), (1, 0, 3), (2, 0, 4), (2, 1, 5)] {
        assert_eq!(rt; slots.target(slot, vertex), number);
    }
    Ok(())
}

/// The sum that a content holds.
fn sum_in(content: &Content) -> Option<i128> {
    match content {
        Content::Scalar(Scalar::SumInt(sum)) => Some(sum.get()),
        _ => None,
    }
}

#[test]
fn what_is_fed_at_a_target_stands_there_alone(rt: HostRuntime) -> Result<(), Fail> {
    let alloc = rt.alloc();
    let mut accums = Accums::open(alloc, &three(alloc, 2)?)?;
    assert!(rt; accums.contents.len() == 5);
    let input = Input::One(Value::Int(9));
    accums.contents.feed(alloc, 1, &input)?;
    let copy = accums.share(alloc)?;
    assert!(rt; copy.contents.len() == 5);
    assert!(rt; sum_in(copy.at(0)) == Some(0));
    assert!(rt; sum_in(copy.at(1)) == Some(9));
    assert!(rt; matches!(copy.at(2), Content::Set(_)));
    assert!(rt; matches!(copy.at(4), Content::Scalar(Scalar::MaxInt(_))));
    Ok(())
}
