ghost use Rattle.std.specs.Prelude.{◌≡◌, ◌*◌, ◌≤◌, true};
ghost use Rattle.records.specs.Kinds.{or_code};
ghost use Rattle.readings.specs.Ranges.{in_range};
ghost use Rattle.readings.specs.Readings.{reading_of, side_bit, side_of, at_rest};

use super::{Reading, Side};
use wire::Refusal;

impl Side {
    // 0 left, 1 right.
    pub fn bit(self) -> u64
        ensures { result ≡ side_bit self }
    {
        self as u64
    }

    // The side of a bit; any number but 0 is right, which no derive gives.
    pub fn of_bit(bit: u64) -> Side
        ensures { result ≡ side_of bit }
    {
        match bit {
            0 => Side::Left,
            _ => Side::Right,
        }
    }
}

impl Reading {
    // Force in units of 10 newtons, pressure in hundredths of a bar; refused `code` where one is out of range.
    pub fn new(axle: u8, side: Side, force: u16, pressure: u16) -> Result<Reading, Refusal>
        ensures { result ≡ or_code (reading_of axle side force pressure) }
    {
        if !in_range(axle as u64, force as u64, pressure as u64) {
            return Err(Refusal::Code);
        }
        Ok(Reading {
            axle,
            side,
            force,
            pressure,
        })
    }

    // Axle 1, left, nothing measured: the reading that a new link of readings holds.
    pub fn at_rest() -> Reading
        ensures { result ≡ at_rest }
    {
        Reading {
            axle: 1,
            side: Side::Left,
            force: 0,
            pressure: 0,
        }
    }

    // From 1 to 12.
    pub fn axle(&self) -> u8
        ensures { result ≡ self.now.axle }
    {
        self.axle
    }

    pub fn side(&self) -> Side
        ensures { result ≡ self.now.side }
    {
        self.side
    }

    // The braking force, a multiple of 10.
    pub fn force_newtons(&self) -> u32
        ensures { result ≡ self.now.force * 10 }
    {
        self.force as u32 * 10
    }

    // The brake pressure in hundredths of a bar.
    pub fn pressure_centibar(&self) -> u16
        ensures { result ≡ self.now.pressure }
    {
        self.pressure
    }
}

pub(crate) fn in_range(axle: u64, force: u64, pressure: u64) -> bool
    ensures value { result ≡ in_range axle force pressure }
    ensures bound { result ≡ true → axle ≤ 12 }
{
    axle >= 1 && axle <= 12 && force <= 6000 && pressure <= 1500
}
