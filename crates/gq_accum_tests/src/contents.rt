// Worked contents, and their state after `OutOfMemory`.
use gq_accum::Scalar;
use gq_base::{Boxed, List, OutOfMemory};
use gq_nest::Content;
use gq_value::{BaseType, GroupShape, HeapShape, Input, Inputs, Kind, Number, Row, Txt, Value};
use std::alloc::Global;
use std::test::Fail;

// A text as a key row.
fn row_of(alloc: Global, key: &str) -> Result<Row, OutOfMemory> {
    let mut row = List::new(alloc);
    row.push(Value::Text(Txt::of(alloc, key)?))?;
    Ok(row)
}

// One input under a key.
fn keyed(alloc: Global, key: &str, n: i64) -> Result<Input, OutOfMemory> {
    let mut inputs: Inputs = List::new(alloc);
    inputs.push(Input::One(Value::Int(n)))?;
    Ok(Input::Keyed(row_of(alloc, key)?, inputs))
}

// A map from texts to sums, after inputs.
fn sums_by_text(alloc: Global, inputs: &[(&str, i64)]) -> Result<Content, OutOfMemory> {
    let kind = Kind::Map(BaseType::Text, Boxed::new(alloc, Kind::Sum(Number::Int))?);
    let mut map = Content::fresh(alloc, &kind)?;
    for (key, n) in inputs {
        map.feed(alloc, &keyed(alloc, key, *n)?)?;
    }
    Ok(map)
}

// The sum under a key.
fn sum_under(alloc: Global, map: &Content, key: &str) -> Result<Option<i128>, OutOfMemory> {
    match map.get(&row_of(alloc, key)?) {
        Some(Content::Scalar(Scalar::SumInt(sum))) => Ok(Some(sum.get())),
        _ => Ok(None),
    }
}

// A score with a name.
fn score(alloc: Global, n: i64, name: &str) -> Result<Value, OutOfMemory> {
    let mut row = List::new(alloc);
    row.push(Value::Int(n))?;
    row.push(Value::Text(Txt::of(alloc, name)?))?;
    Ok(Value::Tuple(row))
}

// A whole number as a key row.
fn number_row(alloc: Global, n: i64) -> Result<Row, OutOfMemory> {
    let mut row = List::new(alloc);
    row.push(Value::Int(n))?;
    Ok(row)
}

// Groups by parity, with the total and the oldest of the ages.
fn groups_by_parity(alloc: Global, ages: &[i64]) -> Result<Content, OutOfMemory> {
    let mut keys = List::new(alloc);
    keys.push((Txt::of(alloc, "parity")?, BaseType::Int))?;
    let mut parts = List::new(alloc);
    parts.push((Txt::of(alloc, "total")?, Kind::Sum(Number::Int)))?;
    parts.push((Txt::of(alloc, "oldest")?, Kind::Max(Number::Int)))?;
    let mut groups = Content::fresh(alloc, &Kind::Group(GroupShape { keys, parts }))?;
    for age in ages {
        let mut inputs: Inputs = List::new(alloc);
        inputs.push(Input::One(Value::Int(*age)))?;
        inputs.push(Input::One(Value::Int(*age)))?;
        let row = number_row(alloc, *age % 2)?;
        groups.feed(alloc, &Input::Keyed(row, inputs))?;
    }
    Ok(groups)
}

// A part of a group under a parity.
fn part_under(
    alloc: Global,
    groups: &Content,
    parity: i64,
    at: u32,
) -> Result<Option<i128>, OutOfMemory> {
    match groups.part(&number_row(alloc, parity)?, at) {
        Some(Content::Scalar(Scalar::SumInt(total))) => Ok(Some(total.get())),
        Some(Content::Scalar(Scalar::MaxInt(oldest))) => Ok(Some(i128::from(*oldest))),
        _ => Ok(None),
    }
}

// A kind of eight levels: seven maps, and a sum.
fn eight_levels(alloc: Global) -> Result<Kind, OutOfMemory> {
    let mut kind = Kind::Sum(Number::Int);
    for _ in 0..7 {
        kind = Kind::Map(BaseType::Int, Boxed::new(alloc, kind)?);
    }
    Ok(kind)
}

// A number under seven keys.
fn under_seven_keys(alloc: Global, key: i64, n: i64) -> Result<Input, OutOfMemory> {
    let mut input = Input::One(Value::Int(n));
    for _ in 0..7 {
        let mut inputs: Inputs = List::new(alloc);
        inputs.push(input)?;
        input = Input::Keyed(number_row(alloc, key)?, inputs);
    }
    Ok(input)
}

// A content of eight levels, after one number for each key.
fn nested(alloc: Global, inputs: &[(i64, i64)]) -> Result<Content, OutOfMemory> {
    let mut content = Content::fresh(alloc, &eight_levels(alloc)?)?;
    for (key, n) in inputs {
        content.feed(alloc, &under_seven_keys(alloc, *key, *n)?)?;
    }
    Ok(content)
}

// The content under seven keys.
fn lowest(alloc: Global, content: &Content, key: i64) -> Result<Option<i128>, OutOfMemory> {
    let row = number_row(alloc, key)?;
    let mut level = content;
    for _ in 0..7 {
        match level.get(&row) {
            Some(below) => level = below,
            None => return Ok(None),
        }
    }
    match level {
        Content::Scalar(Scalar::SumInt(sum)) => Ok(Some(sum.get())),
        _ => Ok(None),
    }
}

// A heap of the two best scores, by number descending, after scores.
fn best_two(alloc: Global, scores: &[(i64, &str)]) -> Result<Content, OutOfMemory> {
    let kind = Kind::Heap(HeapShape {
        tuple: 0,
        fields: List::new(alloc),
        capacity: 2,
        order: List::from_slice(alloc, &[(0, true)])?,
    });
    let mut heap = Content::fresh(alloc, &kind)?;
    for (n, name) in scores {
        heap.feed(alloc, &Input::One(score(alloc, *n, name)?))?;
    }
    Ok(heap)
}

// Whether a value may be sent to other threads and shared among them.
fn is_shared<T: Send + Sync>(_: &T) -> bool {
    true
}

// Groups of ages, one of which comes from elsewhere.
fn merged_groups(alloc: Global, ages: &[i64; 3]) -> Result<Content, OutOfMemory> {
    let mut groups = groups_by_parity(alloc, &ages[..1])?;
    let rest = groups_by_parity(alloc, &ages[1..])?;
    groups.merge(alloc, &rest)?;
    Ok(groups)
}

// How many key rows a group has.
fn row_count(alloc: Global, groups: &Content) -> Result<usize, OutOfMemory> {
    let rows = groups.keys(alloc)?;
    Ok(rows.len())
}

#[test]
fn groups_have_each_part_of_their_own_inputs(rt: HostRuntime) -> Result<(), Fail> {
    let alloc = rt.alloc();
    for ages in [[1, 2, 3], [3, 2, 1], [2, 1, 3]] {
        let groups = merged_groups(alloc, &ages)?;
        for (parity, at, due) in [
            (0, 0, Some(2)),
            (0, 1, Some(2)),
            (1, 0, Some(4)),
            (1, 1, Some(3)),
            (2, 0, None),
        ] {
            assert_eq!(rt; part_under(alloc, &groups, parity, at)?, due);
        }
        assert_eq!(rt; (groups.size(), row_count(alloc, &groups)?), (2, 2));
    }
    Ok(())
}

// Two contents of eight levels, merged.
fn merged_levels(alloc: Global) -> Result<Content, OutOfMemory> {
    let mut all = nested(alloc, &[(1, 10), (2, 20)])?;
    let part = nested(alloc, &[(1, 30)])?;
    all.merge(alloc, &part)?;
    Ok(all)
}

#[test]
fn contents_nest_to_eight_levels(rt: HostRuntime) -> Result<(), Fail> {
    let alloc = rt.alloc();
    let all = merged_levels(alloc)?;
    for (key, due) in [(1, Some(40)), (2, Some(20)), (3, None)] {
        assert_eq!(rt; lowest(alloc, &all, key)?, due);
    }
    assert!(rt; is_shared(&all));
    Ok(())
}

// A map of inputs, one of which comes from elsewhere.
fn merged_map(alloc: Global, inputs: &[(&str, i64); 3]) -> Result<Content, OutOfMemory> {
    let mut map = sums_by_text(alloc, &inputs[..1])?;
    let rest = sums_by_text(alloc, &inputs[1..])?;
    map.merge(alloc, &rest)?;
    Ok(map)
}

#[test]
fn a_map_is_the_same_for_every_order_and_cutting(rt: HostRuntime) -> Result<(), Fail> {
    let alloc = rt.alloc();
    for inputs in [
        [("b", 1), ("a", 2), ("b", 3)],
        [("b", 3), ("b", 1), ("a", 2)],
        [("a", 2), ("b", 3), ("b", 1)],
    ] {
        let map = merged_map(alloc, &inputs)?;
        for (key, due) in [("a", Some(2)), ("b", Some(4)), ("z", None)] {
            assert_eq!(rt; sum_under(alloc, &map, key)?, due);
        }
        assert_eq!(rt; (map.size(), row_count(alloc, &map)?), (2, 2));
    }
    Ok(())
}

// A heap of two, merged from two heaps.
fn merged_heap(alloc: Global) -> Result<Content, OutOfMemory> {
    let mut heap = best_two(alloc, &[(5, "b"), (4, "a"), (5, "a"), (5, "a"), (6, "z")])?;
    let other = best_two(alloc, &[(5, "a")])?;
    heap.merge(alloc, &other)?;
    Ok(heap)
}

// Whether the elements of a content are these scores.
fn has_scores(
    alloc: Global,
    heap: &Content,
    first: &Value,
    second: &Value,
) -> Result<bool, OutOfMemory> {
    let elements = heap.elements(alloc)?;
    match elements.as_slice() {
        [one, other] => Ok(one == first && other == second),
        _ => Ok(false),
    }
}

#[test]
fn a_heap_keeps_equal_tuples_and_turns_a_field_round(rt: HostRuntime) -> Result<(), Fail> {
    let alloc = rt.alloc();
    let heap = merged_heap(alloc)?;
    let (first, second) = (score(alloc, 6, "z")?, score(alloc, 5, "a")?);
    assert!(rt; has_scores(alloc, &heap, &first, &second)?);
    Ok(())
}

#[test]
fn a_sum_is_judged_when_it_is_final(rt: HostRuntime) -> Result<(), Fail> {
    let alloc = rt.alloc();
    let mut map = sums_by_text(alloc, &[("a", 9223372036854775807), ("a", 1)])?;
    assert!(rt; !map.fits());
    map.feed(alloc, &keyed(alloc, "a", -1)?)?;
    assert!(rt; map.fits());
    Ok(())
}

// Feeds an input if there is memory; if there isn't, the content has to report that from then on.
fn feeds_or_is_spoiled(alloc: Global, content: &mut Content, input: &Input) -> bool {
    let fed = content.feed(alloc, input).is_ok();
    if fed {
        return !content.spoiled();
    }
    content.spoiled() && content.feed(alloc, input).is_err() && content.duplicate(alloc).is_err()
}

// The same for a content that is merged in.
fn merges_or_is_spoiled(alloc: Global, content: &mut Content, other: &Content) -> bool {
    let merged = content.merge(alloc, other).is_ok();
    if merged {
        return !content.spoiled();
    }
    content.spoiled() && content.merge(alloc, other).is_err() && content.duplicate(alloc).is_err()
}

#[test]
fn a_map_that_found_no_memory_says_so_from_then_on(rt: HostRuntime) -> Result<(), Fail> {
    let alloc = rt.alloc();
    let input = keyed(alloc, "a", 1)?;
    let mut map = sums_by_text(alloc, &[])?;
    assert!(rt; feeds_or_is_spoiled(alloc, &mut map, &input));
    Ok(())
}

#[test]
fn groups_that_found_no_memory_say_so_from_then_on(rt: HostRuntime) -> Result<(), Fail> {
    let alloc = rt.alloc();
    let more = groups_by_parity(alloc, &[1, 2])?;
    let mut groups = groups_by_parity(alloc, &[])?;
    assert!(rt; merges_or_is_spoiled(alloc, &mut groups, &more));
    Ok(())
}
