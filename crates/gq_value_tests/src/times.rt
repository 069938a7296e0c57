// What no contract can state: that the definitions mean what a reader of DATETIMEs expects.
use gq_time::{Unit, add, in_range, parts, read_time, write_time};
use std::test::Fail;

#[test]
fn every_spelling_reads(rt: HostRuntime) -> Result<(), Fail> {
    let spellings = [
        ("2016-02-29", 1456704000),
        ("2016/02/29", 1456704000),
        ("2016-02-29 23:59:59", 1456790399),
        ("2016/02/29T23:59:59", 1456790399),
        ("2016-02-29T23:59:59.123", 1456790399),
        ("2016-02-29T23:59:59Z", 1456790399),
        ("2016-02-29T23:59:59.123456789z", 1456790399),
        ("0", 0),
        ("-62167219200", -62167219200),
        ("253402300799", 253402300799),
        (" \t2016-02-29\t ", 1456704000),
        ("-1", -1),
        ("000000086400", 86400),
    ];
    for (text, seconds) in spellings {
        assert_eq!(rt; read_time(text), Some(seconds), "{text}");
    }
    Ok(())
}

#[test]
fn no_other_spelling_reads(rt: HostRuntime) -> Result<(), Fail> {
    let refused = [
        "2016-02/29",
        "2015-02-29",
        "2100-02-29",
        "2016-02-29 24:00:00",
        "2016-02-29 23:60:00",
        "2016-02-29 23:59:60",
        "2016-02-29 23:59:59Z",
        "2016-02-29 23:59:59.5",
        "2016-02-29T23:59:59.",
        "2016-02-29T23:59:59.1234567890",
        "253402300800",
        "-62167219201",
        "2016-02-29  23:59:59",
        "+5",
        "2016-2-29",
        "2016-02-29t23:59:59",
        "0000000000001",
        "2016-00-10",
        "2016-13-01",
        "-",
        "x",
        "",
        " \t",
    ];
    for text in refused {
        assert_eq!(rt; read_time(text), None, "{text}");
    }
    Ok(())
}

#[test]
fn texts_have_leading_zeros(rt: HostRuntime) -> Result<(), Fail> {
    let alloc = rt.alloc();
    assert_eq!(rt; write_time(alloc, 0)?.as_str(), "1970-01-01 00:00:00");
    assert_eq!(rt; write_time(alloc, -1)?.as_str(), "1969-12-31 23:59:59");
    assert_eq!(rt;
        write_time(alloc, -62167219200)?.as_str(),
        "0000-01-01 00:00:00"
    );
    assert_eq!(rt;
        write_time(alloc, 253402300799)?.as_str(),
        "9999-12-31 23:59:59"
    );
    assert_eq!(rt;
        write_time(alloc, 1451793906)?.as_str(),
        "2016-01-03 04:05:06"
    );
    Ok(())
}

#[test]
fn parts_are_those_of_the_text(rt: HostRuntime) -> Result<(), Fail> {
    assert_eq!(rt; parts(0).year, 1970);
    assert_eq!(rt; parts(-1).second, 59);
    let leap_day = parts(1456790399);
    assert_eq!(rt; leap_day.year, 2016);
    assert_eq!(rt; leap_day.month, 2);
    assert_eq!(rt; leap_day.day, 29);
    assert_eq!(rt; leap_day.hour, 23);
    assert_eq!(rt; leap_day.minute, 59);
    Ok(())
}

#[test]
fn a_month_later_is_in_the_next_month(rt: HostRuntime) -> Result<(), Fail> {
    assert_eq!(rt; add(1454198400, 1, Unit::Month), Some(1456704000));
    assert_eq!(rt; add(1456704000, -1, Unit::Year), Some(1425081600));
    assert_eq!(rt; add(1456704000, -1, Unit::Month), Some(1454025600));
    assert_eq!(rt; add(1456790399, 1, Unit::Second), Some(1456790400));
    assert_eq!(rt; add(0, -1, Unit::Day), Some(-86400));
    assert_eq!(rt; add(0, 25, Unit::Hour), Some(90000));
    assert_eq!(rt; add(0, 61, Unit::Minute), Some(3660));
    Ok(())
}

#[test]
fn nothing_lies_beyond_the_last_second(rt: HostRuntime) -> Result<(), Fail> {
    assert_eq!(rt; add(253402300799, 1, Unit::Second), None);
    assert_eq!(rt; add(253402300799, 1, Unit::Month), None);
    assert_eq!(rt; add(-62167219200, -1, Unit::Year), None);
    assert_eq!(rt; add(0, 9223372036854775807, Unit::Day), None);
    assert_eq!(rt; add(0, -9223372036854775808, Unit::Year), None);
    assert_eq!(rt; in_range(253402300799), true);
    assert_eq!(rt; in_range(253402300800), false);
    assert_eq!(rt; in_range(-62167219200), true);
    assert_eq!(rt; in_range(-62167219201), false);
    Ok(())
}
