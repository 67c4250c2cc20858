ghost use Rattle.std.specs.Prelude.{◌≡◌, ◌%◌, ◌^◌};
ghost use Rattle.readings.specs.Readings.{reading_payload, reading_reads};
ghost use Rattle.readings.specs.ReadingLaws as laws;
ghost use Rattle.std.proofs.Common.{rules};

use super::values::in_range;
use super::{Reading, Side};
use records::kind::RecordKind;
use wire::Refusal;
use wire::bits::{join, low};

// The kind of readings.
#[derive(Clone, Copy)]
pub struct Readings;

impl RecordKind for Readings {
    type Record = Reading;

    ghost NUMBER = { 2 };

    ghost LETTER = { 71 };

    ghost payload = { λ k r. reading_payload r };

    ghost reads = { λ k p. reading_reads p };

    const NUMBER: u8 = 2;

    const LETTER: u8 = b'G';

    ghost numbered = { Prim.search rules };

    ghost small = { λ k r. laws.small r };

    ghost short = { λ k p r e. laws.short p r e };

    ghost back = { λ k r. laws.back r };

    ghost once = { λ k p r e. laws.once p r e };

    fn pack(&self, r: &Reading) -> u64 {
        let wheel = join(r.axle as u64, 1, r.side.bit());
        let force = join(wheel, 16, r.force as u64);
        join(join(force, 12, r.pressure as u64), 3, 0)
    }

    fn unpack(&self, p: u64) -> Result<Reading, Refusal> {
        let axle = p >> 32;
        let force = low(p >> 15, 16);
        let pressure = low(p >> 3, 12);
        if spare_in(p) != 0 || !in_range(axle, force, pressure) {
            return Err(Refusal::Code);
        }
        Ok(Reading {
            axle: axle as u8,
            side: Side::of_bit(low(p >> 31, 1)),
            force: force as u16,
            pressure: pressure as u16,
        })
    }
}

// The bits of a payload that no field of a reading takes.
fn spare_in(p: u64) -> u64
    ensures { result ≡ p % 2 ^ 3 }
{
    low(p, 3)
}
