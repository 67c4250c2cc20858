ghost use Rattle.std.specs.Prelude.{◌≡◌, ◌/◌, ◌%◌, ◌^◌, ◌<◌, ◌≤◌, IfSome, Some};
ghost use Rattle.wire.specs.Formats.{narrow, check, whole, OneBit};
ghost use Rattle.wire.specs.Words.{upper, packed, reads, acknowledges, acknowledgement};

use super::Word;
use crate::bits::{join, low};

// The largest prime below 2^16.
const MODULUS: u64 = 65_521;

impl Word {
    // The acknowledgement of a label.
    pub fn acknowledge(label: u8) -> Word
        ensures { result ≡ acknowledgement label }
    {
        bare(label)
    }

    // Whether it acknowledges its label, and so carries no record.
    pub fn is_acknowledgement(self) -> bool
        ensures { result ≡ acknowledges self }
    {
        self.kind == 0 && self.payload == 0
    }

    // The 64 bits that go over the wire. They read back.
    pub fn pack(self) -> u64
        ensures value { result ≡ packed self }
        ensures back { reads result ≡ Some self }
    {
        let v = self.upper_bits();
        join(v, 16, check_of(v))
    }

    // What 64 bits carry, if they are whole. What is read has no other packing.
    pub fn read(bits: u64) -> Option<Word>
        ensures value { result ≡ reads bits }
        ensures once { IfSome result (λ w. packed w ≡ bits) }
    {
        if !is_whole(bits) {
            return None;
        }
        Some(Word {
            label: label_in(bits),
            kind: kind_in(bits),
            payload: payload_in(bits),
        })
    }

    fn upper_bits(self) -> u64
        ensures value { result ≡ upper self }
        ensures bound { result < 2 ^ 48 }
    {
        join(
            join(self.label as u64, 4, self.kind as u64),
            36,
            self.payload,
        )
    }
}

// Whether the check field is the one that the upper bits give. One changed bit is always seen.
pub fn is_whole(bits: u64) -> bool
    ensures value { result ≡ whole narrow bits }
    ensures detects { OneBit narrow }
{
    low(bits, 16) == check_of(bits >> 16)
}

fn label_in(bits: u64) -> u8
    ensures { result ≡ bits / 2 ^ 56 % 2 ^ 8 }
{
    (bits >> 56) as u8
}

fn kind_in(bits: u64) -> u8
    ensures { result ≡ bits / 2 ^ 52 % 2 ^ 4 }
{
    low(bits >> 52, 4) as u8
}

fn payload_in(bits: u64) -> u64
    ensures { result ≡ bits / 2 ^ 16 % 2 ^ 36 }
{
    low(bits >> 16, 36)
}

fn bare(label: u8) -> Word
    ensures label { result.label ≡ label }
    ensures kind { result.kind ≡ 0 }
    ensures payload { result.payload ≡ 0 }
{
    Word {
        label,
        kind: 0,
        payload: 0,
    }
}

fn check_of(v: u64) -> u64
    ensures value { result ≡ check narrow v }
    ensures bound { result ≤ 65521 }
{
    MODULUS - v % MODULUS
}
