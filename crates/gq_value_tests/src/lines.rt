// What no contract states: that lines are written if there is memory, and that the definitions of the texts mean what a
// reader of the documents would expect. Expected lines are written out here.
use gq_base::OutOfMemory;
use gq_json::{Members, Out, Outs, Printed, error_line, json_line};
use gq_value::{Fraction, Txt};
use std::alloc::Global;
use std::test::Fail;

fn text(alloc: Global, text: &str) -> Result<Out, OutOfMemory> {
    Ok(Out::Text(Txt::of(alloc, text)?))
}

// An object with one member.
fn single(alloc: Global, name: &str, value: Out) -> Result<Members, OutOfMemory> {
    let mut members = Members::new(alloc);
    members.push((Txt::of(alloc, name)?, value))?;
    Ok(members)
}

// The line of a query that printed one value under the name x.
fn line_of(alloc: Global, value: Out) -> Result<Vec<u8>, OutOfMemory> {
    let members = single(alloc, "x", value)?;
    json_line(alloc, &[Printed { members }])
}

#[test]
fn members_stand_in_the_order_in_which_they_were_printed(rt: HostRuntime) -> Result<(), Fail> {
    let alloc = rt.alloc();
    let mut members = Members::new(alloc);
    members.push((Txt::of(alloc, "z")?, Out::UInt(18446744073709551615)))?;
    members.push((Txt::of(alloc, "a")?, Out::Int(-9223372036854775808)))?;
    members.push((Txt::of(alloc, "m")?, Out::Bool(true)))?;
    let empty = Members::new(alloc);
    let line = json_line(alloc, &[Printed { members }, Printed { members: empty }])?;
    assert_eq!(rt;
        line.as_slice(),
        b"{\"error\":false,\"message\":\"\",\"results\":[{\"z\":18446744073709551615,\"a\":-9223372036854775808,\"m\":true},{}]}\n".as_slice()
    );
    Ok(())
}

#[test]
fn averages_are_cut_at_six_digits(rt: HostRuntime) -> Result<(), Fail> {
    let averages = [
        (3, 2, b"1.5".as_slice()),
        (4, 3, b"1.333333".as_slice()),
        (-4, 3, b"-1.333333".as_slice()),
        (0, 1, b"0".as_slice()),
        (-1, 10000000, b"0".as_slice()),
        (-1, 1000000, b"-0.000001".as_slice()),
        (5, 3, b"1.666666".as_slice()),
        (120, 4, b"30".as_slice()),
        (1000001, 10000000, b"0.1".as_slice()),
        (-9223372036854775808, 1, b"-9223372036854775808".as_slice()),
        (9223372036854775807, 9223372036854775806, b"1".as_slice()),
        (
            9223372036854775805,
            9223372036854775807,
            b"0.999999".as_slice(),
        ),
    ];
    for (sum, count, wanted) in averages {
        let line = line_of(rt.alloc(), Out::Fraction(Fraction { sum, count }))?;
        let mut expected = Vec::from_slice(
            rt.alloc(),
            b"{\"error\":false,\"message\":\"\",\"results\":[{\"x\":",
        )?;
        expected.extend_from_slice(wanted)?;
        expected.extend_from_slice(b"}]}\n")?;
        assert_eq!(rt; line, expected);
    }
    Ok(())
}

#[test]
fn lists_and_objects_nest(rt: HostRuntime) -> Result<(), Fail> {
    let alloc = rt.alloc();
    let mut inner = Outs::new(alloc);
    inner.push(Out::List(Outs::new(alloc)))?;
    inner.push(Out::Object(single(alloc, "k", text(alloc, "v")?)?))?;
    inner.push(Out::Bool(false))?;
    let line = line_of(alloc, Out::Object(single(alloc, "l", Out::List(inner))?))?;
    assert_eq!(rt;
        line.as_slice(),
        b"{\"error\":false,\"message\":\"\",\"results\":[{\"x\":{\"l\":[[],{\"k\":\"v\"},false]}}]}\n".as_slice()
    );
    Ok(())
}

#[test]
fn every_escape_has_its_letters(rt: HostRuntime) -> Result<(), Fail> {
    let alloc = rt.alloc();
    let line = line_of(
        alloc,
        text(alloc, "\"\\\u{8}\t\n\u{c}\r\u{0}\u{1f}\u{7f}/ü")?,
    )?;
    let wanted =
        "{\"error\":false,\"message\":\"\",\"results\":[{\"x\":\"\\\"\\\\\\b\\t\\n\\f\\r\\u0000\\u001f\u{7f}/ü\"}]}\n";
    assert_eq!(rt; line.as_slice(), wanted.as_bytes());
    Ok(())
}

#[test]
fn a_refusal_has_its_message(rt: HostRuntime) -> Result<(), Fail> {
    let line = error_line(rt.alloc(), "missing file a\"b")?;
    assert_eq!(rt;
        line.as_slice(),
        b"{\"error\":true,\"message\":\"missing file a\\\"b\"}\n".as_slice()
    );
    Ok(())
}
