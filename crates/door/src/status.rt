// What a call answers and what it writes.
ghost use Rattle.std.specs.Prelude.{◌≡◌};
ghost use Rattle.wire.specs.Refusals.{answer_of};
ghost use Rattle.door.specs.Outputs.{after};

use wire::{Refusal, answer_number};

// Gives out what was found and answers 0; or answers the number of the refusal.
pub(crate) fn give<T: Copy>(found: Result<T, Refusal>, out: &mut T) -> u32
    ensures status { result ≡ answer_of found }
    ensures out { out.new ≡ after found out.old }
{
    let status = answer_number(&found);
    if let Ok(value) = found {
        *out = value;
    }
    status as u32
}
