// Whether a link is clean.
ghost use Rattle.std.specs.Prelude.{◌≡◌};
ghost use Rattle.channel.specs.Behaviours.{behaviour_of};
ghost use Rattle.recovery.specs.State.{clean};
ghost use Rattle.codec.specs.Words.{words_of};
ghost use Rattle.link.specs.States.{state_of};

use super::Link;
use channel::Channel;
use records::RecordKind;

impl<F: Channel, B: Channel, R: RecordKind> Link<F, B, R> {
    // Whether the sender is idle, the receiver has its label, and so has every word in sight that is not spoilt.
    pub fn is_clean(&self) -> bool
        ensures { result ≡ clean (words_of R.RecordKind) (behaviour_of F.Channel) (behaviour_of B.Channel) (state_of self.now) }
    {
        let label = self.config.read_label(self.sender.label);
        !self.sender.is_busy()
            && self.config.read_label(self.receiver.label) == label
            && self.config.words_carry(&self.forward, label)
            && self.config.acks_carry(&self.back, label)
    }
}
