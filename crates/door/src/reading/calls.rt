// Readings and their payloads.
ghost use Rattle.std.specs.Prelude.{◌≡◌};
ghost use Rattle.wire.specs.Refusals.{answer_of};
ghost use Rattle.door.specs.Outputs.{after};
ghost use Rattle.door.specs.ReadingCalls.{packed_reading, unpacked_reading};

use super::ReadingParts;
use crate::status::give;
use readings::{Reading, Readings};
use records::RecordKind;

// The payload of a reading. Refused `code` where a part is out of range.
#[unsafe(no_mangle)]
pub extern "C" fn gelmuska_reading_pack(parts: &ReadingParts, payload: &mut u64) -> u32
    ensures status { result ≡ answer_of (packed_reading parts.now) }
    ensures payload { payload.new ≡ after (packed_reading parts.now) payload.old }
{
    let reading = Reading::try_from(parts);
    give(reading.map(|reading| Readings.pack(&reading)), payload)
}

// The reading that a payload is. Refused `code` where it is none.
#[unsafe(no_mangle)]
pub extern "C" fn gelmuska_reading_unpack(payload: u64, parts: &mut ReadingParts) -> u32
    ensures status { result ≡ answer_of (unpacked_reading payload) }
    ensures parts { parts.new ≡ after (unpacked_reading payload) parts.old }
{
    give(Readings.unpack(payload).map(ReadingParts::from), parts)
}
