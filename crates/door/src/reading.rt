ghost use Rattle.std.specs.Prelude.{◌≡◌};
ghost use Rattle.door.specs.ReadingCalls.{reading_parts, sided_reading};

pub mod calls;

use readings::{Reading, Side};
use wire::Refusal;

// A reading, its side a number as C has it: axle 1 to 12; side 0 left, 1 right; force in units of 10 newtons; pressure in hundredths of
// a bar.
#[repr(C)]
#[derive(Clone, Copy)]
pub struct ReadingParts {
    pub axle: u8,
    pub side: u8,
    pub force: u16,
    pub pressure: u16,
}

impl From<Reading> for ReadingParts {
    ghost from_gives = { λ reading parts. parts ≡ reading_parts reading };

    fn from(reading: Reading) -> ReadingParts {
        ReadingParts {
            axle: reading.axle(),
            side: reading.side().bit() as u8,
            force: (reading.force_newtons() / 10) as u16,
            pressure: reading.pressure_centibar(),
        }
    }
}

// Refused `code` where a part is out of range.
impl TryFrom<&ReadingParts> for Reading {
    type Error = Refusal;

    ghost try_from_gives = { λ parts reading. reading ≡ sided_reading parts.now };

    fn try_from(parts: &ReadingParts) -> Result<Reading, Refusal> {
        let side = match parts.side {
            0 => Side::Left,
            1 => Side::Right,
            _ => return Err(Refusal::Code),
        };
        Reading::new(parts.axle, side, parts.force, parts.pressure)
    }
}
