// Numbers in digits of any base, the most significant digit first.
ghost use Rattle.std.specs.Prelude.{◌≡◌, ℕ, ◌^◌, ◌<◌, ◌≤◌, Option, IfSome, length};
ghost use Rattle.text.specs.Digits.{number_from, number_in};

// The digits of a base, and how many of them a number may have.
pub trait Digits {
    ghost BASE: { ℕ };

    ghost MOST: { ℕ };

    ghost value: { ℕ → Option ℕ };

    const BASE: u64;

    const MOST: usize;

    // What a byte is worth as a digit.
    fn value(byte: u8) -> Option<u8>
        ensures value { result ≡ value byte }
        ensures small { IfSome result (λ d. d < BASE) };

    // no number of so many digits needs more than 64 bits
    ghost fits: { BASE ^ MOST ≤ 2 ^ 64 };
}

// The number that digits write, if they are digits and not too many.
pub fn number_in<D: Digits>(digits: &[u8]) -> Option<u64>
    ensures value { result ≡ number_in D.value D.BASE D.MOST digits.now }
    ensures below { IfSome result (λ n. n < D.BASE ^ length digits.now) }
{
    if digits.len() > D::MOST {
        return None;
    }
    folded::<D>(digits)
}

fn folded<D: Digits>(digits: &[u8]) -> Option<u64>
    requires { length digits.now ≤ D.MOST }
    ensures value { result ≡ number_from D.value D.BASE 0 digits.now }
    ensures below { IfSome result (λ n. n < D.BASE ^ length digits.now) }
{
    let mut number: u64 = 0;
    for byte in digits {
        let digit = D::value(*byte)?;
        number = number * D::BASE + digit as u64;
    }
    Some(number)
}
