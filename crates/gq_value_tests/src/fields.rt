use gq_base::OutOfMemory;
use gq_graph::{Attribute, IdKind};
use gq_load_csv::{read_id, read_key, read_value};
use gq_value::{BaseType, Txt, Value};
use std::alloc::Global;
use std::test::Fail;

fn kind_of(kind: u8) -> BaseType {
    match kind {
        b'i' => BaseType::Int,
        b'u' => BaseType::UInt,
        b'b' => BaseType::Bool,
        b't' => BaseType::Time,
        _ => BaseType::Text,
    }
}

fn shown(value: Option<Value>) -> i128 {
    match value {
        Some(Value::Int(n)) => i128::from(n),
        Some(Value::UInt(n)) => i128::from(n),
        Some(Value::Bool(truth)) => i128::from(truth),
        Some(Value::Text(text)) => 1000 + text.as_str().len() as i128,
        Some(_) => -7,
        None => -77,
    }
}

/// The value of a field, read as an attribute of that kind whose default is 5: a number, 1 or 0, 1000 and the length of
/// a text, and -77 if it can't be read.
fn read(alloc: Global, kind: u8, key: bool, field: &[u8]) -> Result<i128, OutOfMemory> {
    let attribute = Attribute {
        name: Txt::of(alloc, "a")?,
        kind: kind_of(kind),
        default: Some(Value::Int(5)),
    };
    if key {
        Ok(shown(read_key(alloc, &attribute, field)?))
    } else {
        Ok(shown(read_value(alloc, &attribute, field)?))
    }
}

#[test]
fn numbers_truths_texts_and_times_are_read(rt: HostRuntime) -> Result<(), Fail> {
    let table: [(u8, &[u8], i128); 24] = [
        (b'i', b"+5", 5),
        (b'i', b"-0", 0),
        (b'i', b" \t-12\t ", -12),
        (b'i', b"9223372036854775807", 9_223_372_036_854_775_807),
        (b'i', b"9223372036854775808", -77),
        (b'i', b"-9223372036854775808", -9_223_372_036_854_775_808),
        (b'i', b" ", 5),
        (b'i', b"1.0", -77),
        (b'i', b"+-1", -77),
        (b'i', b"1 2", -77),
        (b'i', b"\xff", -77),
        (b'u', b"+18446744073709551615", 18_446_744_073_709_551_615),
        (b'u', b"18446744073709551616", -77),
        (b'u', b"-1", -77),
        (b'b', b" TrUe", 1),
        (b'b', b"0", 0),
        (b'b', b"01", -77),
        (b'b', b"yes", -77),
        (b's', b"", 1000),
        (b's', b" a ", 1003),
        (b's', b"\xff", -77),
        (b't', b"1970-01-02", 86_400),
        (b't', b" \t", 5),
        (b't', b"2016-02-30", -77),
    ];
    for (kind, field, value) in table {
        assert_eq!(rt; read(rt.alloc(), kind, false, field)?, value);
    }
    Ok(())
}

#[test]
fn a_discriminator_is_never_empty(rt: HostRuntime) -> Result<(), Fail> {
    for (kind, field, value) in [
        (b'i', "7", 7),
        (b'i', "", -77),
        (b'i', " ", -77),
        (b's', "", -77),
        (b's', " ", 1001),
    ] {
        assert_eq!(rt; read(rt.alloc(), kind, true, field.as_bytes())?, value);
    }
    Ok(())
}

#[test]
fn an_id_is_kept_as_its_text_and_a_number_as_its_shortest(rt: HostRuntime) -> Result<(), Fail> {
    let mut id = String::new(rt.alloc());
    for (kind, field, text) in [
        (IdKind::Text, "007", "007"),
        (IdKind::Text, " ", " "),
        (IdKind::Int, " +007\t", "7"),
        (IdKind::Int, "-0", "0"),
        (IdKind::UInt, "0010", "10"),
    ] {
        assert!(rt; read_id(&mut id, kind, field.as_bytes())?);
        assert_eq!(rt; id.as_str(), text);
    }
    for (kind, field) in [(IdKind::Text, ""), (IdKind::Int, " "), (IdKind::UInt, "-1")] {
        assert!(rt; !read_id(&mut id, kind, field.as_bytes())?);
    }
    Ok(())
}
