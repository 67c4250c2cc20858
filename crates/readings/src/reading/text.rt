ghost use Rattle.std.specs.Prelude.{Some};
ghost use Rattle.readings.specs.ReadingText.{reading_text, side_text};

use super::{Reading, Side};
use std::fmt;

impl fmt::Display for Side {
    ghost output = { λ s. Some (side_text s) };

    fn fmt<W: fmt::Write>(&self, f: &mut fmt::Formatter<W>) -> fmt::Result {
        match self {
            Side::Left => f.write_str("left"),
            Side::Right => f.write_str("right"),
        }
    }
}

// A reading in newtons and bar.
impl fmt::Display for Reading {
    ghost output = { λ r. Some (reading_text r) };

    fn fmt<W: fmt::Write>(&self, f: &mut fmt::Formatter<W>) -> fmt::Result {
        let axle = self.axle;
        let side = self.side;
        let newtons = self.force_newtons();
        let pressure = self.pressure;
        write!(
            f,
            "axle {axle} {side}, {newtons} N, {}.{}{} bar",
            pressure / 100,
            pressure / 10 % 10,
            pressure % 10
        )
    }
}
