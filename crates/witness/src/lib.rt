// The promise that a link recovers is about something: links that are handed over past their check, and what they go through.
#![tactic(auto)]

ghost use Rattle.std.specs.Prelude.{◌≡◌, true, false, ◌&&◌, [], ◌∷◌, if◌then◌else◌, Ok, Err, nat_le};
ghost use Rattle.wire.specs.declared.refusal.Refusal.TheVariants.{Labels};
ghost use Rattle.link.specs.States.{state_of};
ghost use Rattle.shapes.specs.Stacks.{ring_shape};
ghost use Rattle.model.specs.Models.{shaped_state};
ghost use Rattle.witness.specs.Scripts.{in_step, out_of_step, out_of_step_calls};
ghost use Rattle.commands.specs.Commands.{stop_command};
ghost use Rattle.witness.specs.Witnesses.{CameBy};

use commands::{Command, Commands};
use link::Link;
use link::state::making::check;
use model::{Call, Fault, disturb, hand_over, make, run};
use queues::Ring;
use setups::{first_back, first_forward};
use wire::Refusal;

// The first standard set-up passes its check with 4 labels and more, up to 256.
pub fn check_first(labels: u16) -> Result<(), Refusal>
    ensures { result ≡ (if nat_le 4 labels && nat_le labels 256 then Ok tt else Err Labels) }
{
    check(&first_forward(), &first_back(), labels)
}

// A link of the first standard set-up, with 4 labels.
fn new_first() -> Link<Ring, Ring, Commands>
    ensures { shaped_state ring_shape ring_shape (state_of result) ≡ in_step stop_command }
{
    make(Commands, 4, first_forward(), first_back(), Command::stop())
}

// A link in step from the start: its first exchange leaves it clean.
pub fn in_step() -> Link<Ring, Ring, Commands>
    ensures { CameBy 1 1 (true ∷ []) (state_of result) }
{
    let mut link = new_first();
    hand_over(&mut link);
    run(&mut link, &[Call::Offer(Command::stop()), Call::Round]);
    link
}

// A link over rings of 2 and 1, with 5 labels, each place of its channels taken by a word under a label that the sender is about
// to use: two words that carry the command to stop, under the labels 2 and 3, and the acknowledgement of label 1.
fn new_astray() -> Link<Ring, Ring, Commands>
    ensures { shaped_state ring_shape ring_shape (state_of result) ≡ out_of_step stop_command }
{
    let mut link = make(Commands, 5, Ring::new(2), Ring::new(1), Command::stop());
    disturb(
        &mut link,
        &[
            Fault::PutForward(0x0211000000002EF1),
            Fault::PutForward(0x0311000000004DE2),
            Fault::PutBack(0x0100000000001EF1),
        ],
    );
    link
}

// The calls that keep it out of step as long as can be.
fn astray_calls(stop: Command) -> [Call<Command>; 12]
    ensures { result ≡ out_of_step_calls stop }
{
    [
        // the acknowledgement of label 1 completes an exchange of which nothing was heard
        Call::Offer(stop),
        Call::Settle,
        // the word under label 2 is taken for the one that is sent, which stays behind
        Call::Offer(stop),
        Call::Hear,
        Call::Send,
        Call::Settle,
        // the word under label 3 is taken for one that is not sent at all
        Call::Offer(stop),
        Call::Hear,
        Call::Settle,
        // the word that stayed behind is heard and its acknowledgement is stale; then all is in step
        Call::Offer(stop),
        Call::Round,
        Call::Round,
    ]
}

// Three exchanges, as many as there are places on both channels, leave the link unclean; the fourth leaves it clean.
pub fn out_of_step() -> Link<Ring, Ring, Commands>
    ensures { CameBy 2 1 (false ∷ false ∷ false ∷ true ∷ []) (state_of result) }
{
    let mut link = new_astray();
    hand_over(&mut link);
    run(&mut link, &astray_calls(Command::stop()));
    link
}
