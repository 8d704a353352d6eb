use crate::{Digits, number};

#[test]
fn reads_numbers(rt: HostRuntime) {
    let rows = [
        ("0", Some(0)),
        ("0000000012", Some(12)),
        ("9999999999", Some(9_999_999_999)),
        ("0x0", Some(0)),
        ("0xffffffff", Some(4_294_967_295)),
        ("0x00aBcDeF", Some(11_259_375)),
        ("", None),
        ("00000000001", None),
        ("0x", None),
        ("0x000000001", None),
        ("0X1", None),
        ("0x1g", None),
        ("x1", None),
        ("12a", None),
        ("-1", None),
        ("+1", None),
        ("1_000", None),
        (" 1", None),
    ];
    for (word, value) in rows {
        assert_eq!(rt; number(word.as_bytes()), value, "at {word}");
    }
}

#[test]
fn numbers_are_written(rt: HostRuntime) {
    // (text, expected)
    let rows = [
        (Digits::decimal(0), "0"),
        (Digits::decimal(9), "9"),
        (Digits::decimal(10), "10"),
        (Digits::decimal(99), "99"),
        (Digits::decimal(100), "100"),
        (Digits::decimal(1_005), "1005"),
        (Digits::decimal(u64::MAX), "18446744073709551615"),
        (Digits::two_decimal(0), "00"),
        (Digits::two_decimal(7), "07"),
        (Digits::two_decimal(31), "31"),
        (Digits::hexadecimal(0x8000_00b4, 8), "800000b4"),
        (Digits::hexadecimal(0xffff_8082, 4), "8082"),
        (Digits::hexadecimal(0x0000_0300, 3), "300"),
        (Digits::hexadecimal(0x000f_edc9, 5), "fedc9"),
        (Digits::hexadecimal(0xa5, 2), "a5"),
        (Digits::hexadecimal(0xa5, 0), ""),
    ];
    for (text, expected) in rows {
        assert_eq!(rt; text.as_str(), expected);
    }
}
