// The labels of the words on a channel, as the end at its far side reads them.
ghost use Rattle.std.specs.Prelude.{◌≡◌, ℕ, Option};
ghost use Rattle.recovery.specs.Codec.{word_label};
ghost use Rattle.recovery.specs.State.{fits, all_fit, in_sight};
ghost use Rattle.channel.specs.Behaviours.{behaviour_of};
ghost use Rattle.codec.specs.Words.{words_of, read_ack};
ghost use Rattle.codec.specs.Readings.{Computes};

use crate::config::Config;
use channel::Channel;
use records::RecordKind;

// Whether a word is spoilt or carries this label, by the label that is read from it.
fn word_fits<L: Fn(u64) -> Option<u8>>(label: u8, bits: u64, label_in: &L) -> bool
    requires { L.IsAlwaysCallable label_in.now }
    ensures { (read : ℕ → Option ℕ) → Computes (L.post label_in.now) read → result ≡ fits label (read bits) }
{
    label_in(bits).is_none_or(|other| other == label)
}

// Whether every word in sight is spoilt or carries this label, by the label that is read from each. A channel shows its words by their
// positions, and a peek may refuse: `all` over the positions would say the same with a closure in a closure.
fn words_fit<C: Channel, L: Fn(u64) -> Option<u8>>(channel: &C, label: u8, label_in: L) -> bool
    requires { L.IsAlwaysCallable label_in }
    ensures { (read : ℕ → Option ℕ) → Computes (L.post label_in) read → result ≡ all_fit read label (in_sight ((behaviour_of C.Channel).means channel.now)) }
{
    for at in 0..channel.load() {
        if let Ok(bits) = channel.peek(at) {
            if !word_fits(label, bits, &label_in) {
                return false;
            }
        }
    }
    true
}

impl<R: RecordKind> Config<R> {
    // Whether every word in sight on a forward channel is spoilt or carries this label.
    pub fn words_carry<C: Channel>(&self, channel: &C, label: u8) -> bool
        ensures { result ≡ all_fit (word_label (words_of R.RecordKind self.now)) label (in_sight ((behaviour_of C.Channel).means channel.now)) }
    {
        words_fit(
            channel,
            label,
            |bits| self.read_word(bits).map(|message| message.0),
        )
    }
}

impl<R> Config<R> {
    // Whether every word in sight on a back channel is spoilt or acknowledges this label.
    pub fn acks_carry<C: Channel>(&self, channel: &C, label: u8) -> bool
        ensures { result ≡ all_fit (read_ack self.now.labels) label (in_sight ((behaviour_of C.Channel).means channel.now)) }
    {
        words_fit(channel, label, |bits| self.read_ack(bits))
    }
}
