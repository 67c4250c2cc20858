use text::hex::{digit_value, parse_hex};
use text::lines::split_line;

#[test]
fn reads_digits_at_the_edges(rt: HostRuntime) {
    assert_eq!(rt; digit_value(b'0'), Some(0));
    assert_eq!(rt; digit_value(b'9'), Some(9));
    assert_eq!(rt; digit_value(b'A'), Some(10));
    assert_eq!(rt; digit_value(b'F'), Some(15));
    for byte in b"/:@Gaf \n" {
        assert_eq!(rt; digit_value(*byte), None);
    }
}

#[test]
fn reads_up_to_sixteen_digits(rt: HostRuntime) {
    assert_eq!(rt; parse_hex(b""), Some(0));
    assert_eq!(rt; parse_hex(b"FFFFFFFFFFFFFFFF"), Some(u64::MAX));
    assert_eq!(rt; parse_hex(b"00000000000000000"), None);
    assert_eq!(rt; parse_hex(b"1f"), None);
}

#[test]
fn splits_at_line_ends(rt: HostRuntime) {
    assert_eq!(rt; split_line(b""), None);
    let (none, ab) = (b"".as_slice(), b"ab".as_slice());
    assert_eq!(rt; split_line(b"\nab"), Some((none, ab)));
    assert_eq!(rt; split_line(ab), Some((ab, none)));
}
