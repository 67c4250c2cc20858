// Decimal numbers without sign or leading zeros.
ghost use Rattle.std.specs.Prelude.{◌≡◌};
ghost use Rattle.fields.specs.Decimals.{figure, is_plain, decimal_number};
ghost use Rattle.std.proofs.Common.{rules};

use text::digits::{Digits, number_in};

pub struct Decimal;

impl Digits for Decimal {
    ghost BASE = { 10 };

    ghost MOST = { 19 };

    ghost value = { figure };

    ghost fits = { Prim.search rules };

    const BASE: u64 = 10;

    const MOST: usize = 19;

    fn value(byte: u8) -> Option<u8> {
        match byte {
            b'0'..=b'9' => Some(byte - b'0'),
            _ => None,
        }
    }
}

// The number that at most nineteen figures write; no zero stands before another figure.
pub fn parse_decimal(figures: &[u8]) -> Option<u64>
    ensures { result ≡ decimal_number figures.now }
{
    if !is_plain(figures) {
        return None;
    }
    number_in::<Decimal>(figures)
}

// Whether there is a figure, and no zero before another.
fn is_plain(figures: &[u8]) -> bool
    ensures { result ≡ is_plain figures.now }
{
    match figures {
        [] => false,
        [_] => true,
        [first, ..] => *first != b'0',
    }
}
