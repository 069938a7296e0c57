use gq_base::{Key, KeyIndex, mixed, text_hash, wide_hash};
use std::test::Fail;

fn key(tag: u32) -> Key {
    Key { word: 7, tag }
}

#[test]
fn rows_of_one_key_are_found_from_the_last_on(rt: HostRuntime) -> Result<(), Fail> {
    let mut index = KeyIndex::new(rt.alloc());
    for row in 0..100u32 {
        assert!(rt; index.len() < 1000);
        index.push(key(row % 3))?;
    }
    assert!(rt; index.len() == 100);
    assert_eq!(rt; index.last(key(2)), Some(98));
    assert_eq!(rt; index.before(98), Some(95));
    assert_eq!(rt; index.before(2), None);
    assert_eq!(rt; index.last(key(3)), None);
    Ok(())
}

#[test]
fn a_cut_forgets_the_last_rows_alone(rt: HostRuntime) -> Result<(), Fail> {
    let mut index = KeyIndex::new(rt.alloc());
    for row in 0..50u32 {
        assert!(rt; index.len() < 1000);
        index.push(key(row % 8))?;
    }
    assert!(rt; index.len() == 50);
    let copy = index.duplicate()?;
    index.cut(11);
    assert_eq!(rt; index.len(), 11);
    assert_eq!(rt; index.last(key(2)), Some(10));
    assert_eq!(rt; index.last(key(7)), Some(7));
    assert!(rt; index.len() == 11);
    index.push(key(7))?;
    assert_eq!(rt; index.last(key(7)), Some(11));
    assert_eq!(rt; copy.last(key(7)), Some(47));
    Ok(())
}

#[test]
fn a_hash_takes_all_parts_in(rt: HostRuntime) {
    assert!(rt; text_hash(0, "ab") != text_hash(0, "ba"));
    assert!(rt; wide_hash(0, 4_294_967_296) != wide_hash(0, 1));
    assert!(rt; mixed(mixed(0, 1), 2) != mixed(mixed(0, 2), 1));
}
