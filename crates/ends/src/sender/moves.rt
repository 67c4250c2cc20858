// What a sender does, one thing at a time.
ghost use Rattle.std.specs.Prelude.{◌≡◌, not, ◌==◌};
ghost use Rattle.ends.specs.Senders.{is_idle, decided};
ghost use Rattle.ends.specs.declared.sender.State.TheVariants.{Idle, UnderWay};

use super::{Sender, State};
use wire::Refusal;

impl<T: Copy> Sender<T> {
    // A sender at rest, with label 0.
    pub fn new(r: T) -> Sender<T>
        ensures { result ≡ record { label = 0; state = Idle; in_hand = r } }
    {
        Sender {
            label: 0,
            state: State::Idle,
            in_hand: r,
        }
    }

    // Whether an exchange is under way.
    pub fn is_busy(&self) -> bool
        ensures { result ≡ not (is_idle self.now.state) }
    {
        self.state == State::UnderWay
    }

    // A record comes in hand under a label, and is under way.
    pub fn take_in_hand(&mut self, label: u8, r: T)
        ensures { self.new ≡ record { label = label; state = UnderWay; in_hand = r } }
    {
        *self = Sender {
            label,
            state: State::UnderWay,
            in_hand: r,
        };
    }

    // The exchange is over.
    pub fn rest(&mut self)
        ensures { self.new ≡ record { label = self.old.label; state = Idle; in_hand = self.old.in_hand } }
    {
        self.state = State::Idle;
    }
}

// Under way and with the sender's own label, an acknowledgement completes the exchange; any other is stale.
pub fn decide(state: State, label: u8, own: u8) -> Result<(), Refusal>
    ensures { result ≡ decided state (label == own) }
{
    match (state, label) {
        (State::UnderWay, l) if l == own => Ok(()),
        _ => Err(Refusal::Stale),
    }
}
