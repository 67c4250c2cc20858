// Shifts and masks, with what they do to numbers.
ghost use Rattle.std.specs.Prelude.{◌≡◌, ◌+◌, ◌*◌, ◌%◌, ◌^◌, ◌<◌, bit_and, bit_or};

// The low bits of a number.
pub fn low(x: u64, bits: u32) -> u64
    ensures { result ≡ x % 2 ^ bits }
{
    if bits >= 64 {
        return x;
    }
    masked(x, (1 << bits) - 1)
}

// The low bits of a number with another number above them, as far as 64 bits hold it.
pub fn join(high: u64, bits: u32, x: u64) -> u64
    ensures { result ≡ (high * 2 ^ bits + x % 2 ^ bits) % 2 ^ 64 }
{
    if bits >= 64 {
        return x;
    }
    stacked(high, bits, low(x, bits))
}

fn masked(x: u64, mask: u64) -> u64
    ensures { result ≡ bit_and x mask }
{
    x & mask
}

fn stacked(high: u64, bits: u32, below: u64) -> u64
    requires { bits < 64 }
    ensures { result ≡ bit_or (high * 2 ^ bits % 2 ^ 64) below }
{
    high << bits | below
}
