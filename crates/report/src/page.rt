// A page that is written from its start.
ghost use Rattle.std.specs.Prelude.{◌≡◌, ◌<◌, ◌≤◌, [], ◌∷◌, length, decimal};
ghost use Rattle.text.specs.Hex.{hex_digit, hex_digits};
ghost use Rattle.report.specs.Pages.{HasRoom, Put};

// The page's bytes, and how many of them are written. `fmt::Write` does not serve here: its error could not be ruled out,
// and a report has an exact answer for every script.
#[derive(Drop)]
pub(crate) struct Page<'a> {
    bytes: &'a mut [u8],
    length: usize,
}

impl<'a> Page<'a> {
    pub(crate) fn new(bytes: &'a mut [u8]) -> Page<'a>
        ensures reference { result.bytes.ghost_name ≡ bytes.entry.ghost_name }
        ensures bytes { result.bytes.now ≡ bytes.old }
        ensures length { result.length ≡ 0 }
    {
        Page { bytes, length: 0 }
    }

    // How many bytes are written.
    pub(crate) fn length(&self) -> usize
        ensures { result ≡ self.now.length }
    {
        self.length
    }

    pub(crate) fn put_byte(&mut self, byte: u8)
        requires { HasRoom self.old 1 }
        ensures { Put self.old (byte ∷ []) self.new }
    {
        self.bytes[self.length] = byte;
        self.length += 1;
    }

    pub(crate) fn put_text(&mut self, text: &[u8])
        requires { HasRoom self.old (length text.now) }
        ensures { Put self.old text.now self.new }
    {
        let end = self.length + text.len();
        self.bytes[self.length..end].copy_from_slice(text);
        self.length = end;
    }

    #[tactic(auto, using(crate::proofs::Writing::one_long, crate::proofs::Writing::one_longer))]
    pub(crate) fn put_decimal(&mut self, n: u16)
        requires { HasRoom self.old (length (decimal n)) }
        ensures { Put self.old (decimal n) self.new }
    {
        if n < 10 {
            return self.put_byte(b'0' + n as u8);
        }
        self.put_decimal(n / 10);
        self.put_byte(b'0' + (n % 10) as u8);
    }

    // The last digits of a number in hexadecimal, so many of them. They go to the page together, since by a call of `put_byte`
    // for each a report takes a twentieth longer. By its place, since `iter_mut().rev()` leaves no fact of the digits.
    pub(crate) fn put_hex<const COUNT: usize>(&mut self, x: u64)
        requires { HasRoom self.old COUNT }
        ensures { Put self.old (hex_digits COUNT x) self.new }
    {
        let mut digits = [0; COUNT];
        let mut rest = x;
        for place in (0..COUNT).rev() {
            digits[place] = hex_digit((rest % 16) as u8);
            rest /= 16;
        }
        self.put_text(&digits);
    }
}

fn hex_digit(d: u8) -> u8
    requires { d < 16 }
    ensures { result ≡ hex_digit d }
{
    if d < 10 { b'0' + d } else { 55 + d }
}
