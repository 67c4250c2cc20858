// Exchanges on a new link: a first try of the library, and a measure of its speed.
ghost use Rattle.std.specs.Prelude.{◌≡◌};
ghost use Rattle.wire.specs.Refusals.{answer_of};
ghost use Rattle.door.specs.Outputs.{after};
ghost use Rattle.door.specs.RoundCalls.{observer_on, observed_on};

use super::ObserverParts;
use crate::status::give;
use commands::{Command, Commands};
use ends::Observer;
use exercise::exercise;
use setups::{first_back, first_forward, second_back, second_forward};
use wire::Refusal;

// Makes a link of commands over a standard set-up, 1 or 2 (a number, as C has it), with so many labels; offers it the command to stop
// and performs a round, so many times. Refused `size` where there is no such set-up, and as the check of the link refuses.
#[unsafe(no_mangle)]
pub extern "C" fn gelmuska_rounds(
    setup: u8,
    labels: u16,
    rounds: u32,
    observer: &mut ObserverParts,
) -> u32
    ensures status { result ≡ answer_of (observed_on setup labels rounds) }
    ensures observer { observer.new ≡ after (observed_on setup labels rounds) observer.old }
{
    let seen = on_setup(setup, labels, rounds);
    give(seen.map(ObserverParts::from), observer)
}

fn on_setup(setup: u8, labels: u16, rounds: u32) -> Result<Observer, Refusal>
    ensures { result ≡ observer_on setup labels rounds }
{
    match setup {
        1 => exercise(
            Commands,
            Command::stop(),
            labels,
            first_forward(),
            first_back(),
            rounds,
        ),
        2 => exercise(
            Commands,
            Command::stop(),
            labels,
            second_forward(),
            second_back(),
            rounds,
        ),
        _ => Err(Refusal::Size),
    }
}
