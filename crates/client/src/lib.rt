// A client of the link, written from outside: what it promises is proved from the contracts of the link's public calls alone.
#![tactic(auto)]

ghost use Rattle.std.specs.Prelude.{◌≡◌, ◌+◌, ◌<◌, ◌≤◌, IfOk, OnOk};
ghost use Rattle.recovery.specs.Check.{checked_link};
ghost use Rattle.channel.specs.Behaviours.{behaviour_of};
ghost use Rattle.link.specs.Makings.{observed_anew};
ghost use Rattle.link.specs.States.{state_of};
ghost use Rattle.codec.specs.Words.{words_of};
ghost use Rattle.client.specs.Places.{places_of};
ghost use Rattle.client.specs.Turns.{verdict_of, Turns, Exchanged, AllDelivered};

use channel::Channel;
use link::{Link, Observer};
use records::RecordKind;
use wire::Refusal;

// Takes over a link and offers a record before each of some rounds. Refused as the link's check is, and then nothing changes.
// Once it has completed two exchanges more than both channels have places, the link has been clean, and the observer names
// the first exchange that left it so. Where it ends idle, what was accepted since then was delivered, each once, in order.
pub fn exchange<F: Channel, B: Channel, R: RecordKind>(
    link: &mut Link<F, B, R>,
    r: R::Record,
    rounds: u32,
) -> Result<Observer, Refusal>
    ensures answer { verdict_of result ≡ checked_link (words_of R.RecordKind) (behaviour_of F.Channel) (behaviour_of B.Channel) 256 (state_of link.old) }
    ensures turns { Exchanged (words_of R.RecordKind) (behaviour_of F.Channel) (behaviour_of B.Channel) r rounds (state_of link.old) result (state_of link.new) }
    ensures first { IfOk result (λ o. places_of (behaviour_of F.Channel) (behaviour_of B.Channel) link.old + 2 ≤ o.completed → (0 < o.first) × (o.first ≤ places_of (behaviour_of F.Channel) (behaviour_of B.Channel) link.old + 2)) }
    ensures delivered { OnOk result (AllDelivered (words_of R.RecordKind) (behaviour_of F.Channel) (behaviour_of B.Channel) (observed_anew (state_of link.old)) (state_of link.new)) }
{
    link.check()?;
    link.handover();
    perform(link, r, rounds);
    Ok(link.observer())
}

// Offers a record before each round, whether or not one is under way.
fn perform<F: Channel, B: Channel, R: RecordKind>(
    link: &mut Link<F, B, R>,
    r: R::Record,
    rounds: u32,
)
    ensures { Turns (words_of R.RecordKind) (behaviour_of F.Channel) (behaviour_of B.Channel) r (state_of link.old) rounds (state_of link.new) }
{
    for done in 0..rounds {
        let _ = link.offer(r);
        let _ = link.round();
    }
}
