// Lists, sets and bags of whole numbers.
use gq_base::{List, OutOfMemory};
use gq_nest::Content;
use gq_value::{BaseType, Input, Kind, Value};
use std::alloc::Global;
use std::test::Fail;

// Returns a content of whole numbers, after inputs.
fn after(alloc: Global, kind: &Kind, inputs: &[i64]) -> Result<Content, OutOfMemory> {
    let mut content = Content::fresh(alloc, kind)?;
    for n in inputs {
        content.feed(alloc, &Input::One(Value::Int(*n)))?;
    }
    Ok(content)
}

#[test]
#[tactic(auto, using(gq_nest::proofs::LevelLemmas::opened))]
fn a_list_keeps_its_values_as_they_come(rt: HostRuntime) -> Result<(), Fail> {
    let alloc = rt.alloc();
    let mut list = Content::List(List::new(alloc));
    list.push(Value::Int(2))?;
    list.push(Value::Int(1))?;
    let copy = list.duplicate(alloc)?;
    let all = copy.elements(alloc)?;
    assert!(rt; matches!(all.as_slice(), [Value::Int(2), Value::Int(1)]));
    assert!(rt; copy.contains(&Value::Int(1)));
    assert!(rt; !copy.contains(&Value::Int(3)));
    Ok(())
}

#[test]
fn a_set_has_each_value_once_and_a_bag_all(rt: HostRuntime) -> Result<(), Fail> {
    let alloc = rt.alloc();
    let set = after(alloc, &Kind::Set(BaseType::Int), &[2, 1, 2])?;
    let bag = after(alloc, &Kind::Bag(BaseType::Int), &[2, 1, 2])?;
    let each = set.elements(alloc)?;
    let all = bag.elements(alloc)?;
    assert!(rt; matches!(each.as_slice(), [Value::Int(1), Value::Int(2)]));
    assert!(rt;
        matches!(
            all.as_slice(),
            [Value::Int(1), Value::Int(2), Value::Int(2)]
        )
    );
    Ok(())
}
