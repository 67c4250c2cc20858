use fields::{Fields, parse_decimal};

#[test]
fn reads_plain_numbers_only(rt: HostRuntime) {
    assert_eq!(rt; parse_decimal(b"0"), Some(0));
    assert_eq!(rt; parse_decimal(b"65535"), Some(65_535));
    assert_eq!(rt;
        parse_decimal(b"9999999999999999999"),
        Some(9_999_999_999_999_999_999)
    );
    assert_eq!(rt; parse_decimal(b"10000000000000000000"), None);
    assert_eq!(rt; parse_decimal(b""), None);
    assert_eq!(rt; parse_decimal(b"07"), None);
    assert_eq!(rt; parse_decimal(b"-7"), None);
    assert_eq!(rt; parse_decimal(b"7A"), None);
}

#[test]
fn reads_a_line_field_by_field(rt: HostRuntime) {
    let mut fields = Fields::new(b"peek 255 00F  ");
    assert_eq!(rt; fields.word(), Some(b"peek".as_slice()));
    assert_eq!(rt; fields.number(255), Some(255));
    assert_eq!(rt; fields.digits(3), Some(15));
    assert!(rt; !fields.is_done());
    assert_eq!(rt; fields.number(9), None);
    assert_eq!(rt; fields.digits(0), Some(0));
    assert!(rt; fields.is_done());
    assert_eq!(rt; fields.word(), None);
}
