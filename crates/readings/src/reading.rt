ghost use Rattle.std.specs.Prelude.{◌≡◌, true};
ghost use Rattle.readings.specs.Ranges.{in_range};

pub mod kind;
pub mod text;
pub mod values;

// The side of an axle that a reading was taken on, by the bit that stands for it in a payload.
#[derive(Clone, Copy, PartialEq, Eq, Debug)]
pub enum Side {
    Left = 0,
    Right = 1,
}

// One measurement at a wheel: axle 1 to 12, force in units of 10 newtons, pressure in hundredths of a bar.
#[derive(Clone, Copy, PartialEq, Eq, Debug)]
pub struct Reading {
    axle: u8,
    side: Side,
    force: u16,
    pressure: u16,
    ghost measurable: { in_range axle force pressure ≡ true },
}
