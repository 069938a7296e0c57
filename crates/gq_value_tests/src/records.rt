use gq_base::OutOfMemory;
use gq_load_csv::{Record, Records};
use std::alloc::Global;
use std::test::Fail;

/// The records of a text, each as its fields with `|` after each, and `;` after each record.
fn shown(
    alloc: Global,
    separator: u8,
    quote: Option<u8>,
    text: &[u8],
) -> Result<Vec<u8>, OutOfMemory> {
    let mut records = Records::open(alloc, separator, quote, text);
    let mut record = Record::new(alloc);
    let mut shown = Vec::new(alloc);
    for _ in 0..9 {
        if !records.next(&mut record)? {
            break;
        }
        for field in 0..record.len() {
            shown.extend_from_slice(record.get(field).unwrap_or(b"?"))?;
            shown.push(b'|')?;
        }
        shown.push(b';')?;
    }
    Ok(shown)
}

#[test]
fn records_end_with_lines_and_a_line_without_a_byte_is_none(rt: HostRuntime) -> Result<(), Fail> {
    let table: [(u8, Option<u8>, &[u8], &[u8]); 11] = [
        (b',', None, b"a,b\n\nc\r\n\r\n,", b"a|b|;c|;||;"),
        (b',', None, b"\na,b\n\nc\n,", b"a|b|;c|;||;"),
        (b',', Some(b'"'), b"a,\n,b'c\n", b"a||;|b'c|;"),
        (b',', None, b"", b""),
        (b',', None, b"\n\n", b""),
        (b',', None, b" \n", b" |;"),
        (
            b',',
            None,
            b"\xef\xbb\xbfa\n\xef\xbb\xbfb",
            b"a|;\xef\xbb\xbfb|;",
        ),
        (b',', None, b"\"a,b\"\n", b"\"a|b\"|;"),
        (b',', Some(b'"'), b"\"a,b\"\"\",c\n", b"a,b\"|c|;"),
        (b'|', Some(b'\''), b"'a\nb'|\"c\n", b"a\nb|\"c|;"),
        (b'\t', None, b"a\tb,c", b"a|b,c|;"),
    ];
    for (separator, quote, text, records) in table {
        assert_eq!(rt;
            shown(rt.alloc(), separator, quote, text)?.as_slice(),
            records
        );
    }
    Ok(())
}
