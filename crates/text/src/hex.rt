// Upper-case hexadecimal digits.
ghost use Rattle.std.specs.Prelude.{◌≡◌, ◌^◌, ◌<◌, IfSome, length};
ghost use Rattle.text.specs.Hex.{digit_value, hex_number, DigitsRead};
ghost use Rattle.std.proofs.Common.{rules};

use crate::digits::{Digits, number_in};

pub struct Hexadecimal;

impl Digits for Hexadecimal {
    ghost BASE = { 16 };

    ghost MOST = { 16 };

    ghost value = { digit_value };

    ghost fits = { Prim.search rules };

    const BASE: u64 = 16;

    const MOST: usize = 16;

    fn value(byte: u8) -> Option<u8> {
        digit_value(byte)
    }
}

// The value of an upper-case hexadecimal digit.
pub fn digit_value(byte: u8) -> Option<u8>
    ensures value { result ≡ digit_value byte }
    ensures small { IfSome result (λ d. d < 16) }
{
    match byte {
        b'0'..=b'9' => Some(byte - b'0'),
        b'A'..=b'F' => Some(byte - b'A' + 10),
        _ => None,
    }
}

// The number that at most sixteen upper-case hexadecimal digits write. What is written so reads back.
pub fn parse_hex(digits: &[u8]) -> Option<u64>
    ensures value { result ≡ hex_number digits.now }
    ensures below { IfSome result (λ n. n < 16 ^ length digits.now) }
    ensures back { DigitsRead }
{
    number_in::<Hexadecimal>(digits)
}
