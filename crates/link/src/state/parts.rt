// The parts of a call: the one thing that it changes in the link.
ghost use Rattle.std.specs.Prelude.{◌≡◌, ◌%◌, ◌==◌};
ghost use Rattle.wire.specs.Words.{acknowledgement, packed};
ghost use Rattle.recovery.specs.Changes.{over, offered, delivered, rested};
ghost use Rattle.codec.specs.Words.{words_of, send_word};
ghost use Rattle.link.specs.Makings.{observed_anew};
ghost use Rattle.link.specs.States.{state_of};

use super::Link;
use channel::Channel;
use codec::ack_word;
use ends::Observer;
use records::RecordKind;
use wire::Refusal;

impl<F: Channel, B: Channel, R: RecordKind> Link<F, B, R> {
    // The label moves on by one, and the record is in hand and under way.
    pub(super) fn take_in_hand(&mut self, r: R::Record)
        ensures { state_of self.new ≡ offered (words_of R.RecordKind) (state_of self.old) r }
    {
        let label = self.config.next_label(self.sender.label);
        self.sender.take_in_hand(label, r);
    }

    // The word of the record in hand.
    pub(super) fn word_in_hand(&self) -> u64
        ensures { result ≡ send_word R.RecordKind.NUMBER (R.RecordKind.payload self.now.config.kind) (self.now.sender.label % self.now.config.labels) self.now.sender.in_hand }
    {
        let label = self.config.read_label(self.sender.label);
        self.config.send_word(label, &self.sender.in_hand)
    }

    pub(super) fn put_word(&mut self, word: u64) -> Result<(), Refusal>
        ensures put { F.Channel.puts self.old.forward word result self.new.forward }
        ensures rest { state_of self.new ≡ over (state_of self.old) self.new.forward self.old.back }
    {
        self.forward.put(word)
    }

    // Whether a word's label is the receiver's, as it is read.
    pub(super) fn is_repeat(&self, label: u8) -> bool
        ensures { result ≡ (label == self.now.receiver.label % self.now.config.labels) }
    {
        label == self.config.read_label(self.receiver.label)
    }

    // Puts the acknowledgement of a label on the back channel.
    pub(super) fn reply(&mut self, label: u8) -> Result<(), Refusal>
        ensures put { B.Channel.puts self.old.back (packed (acknowledgement label)) result self.new.back }
        ensures rest { state_of self.new ≡ over (state_of self.old) self.old.forward self.new.back }
    {
        self.back.put(ack_word(label))
    }

    // The receiver adopts a label and holds its record.
    pub(super) fn deliver(&mut self, label: u8, r: R::Record)
        ensures { state_of self.new ≡ delivered (state_of self.old) label r self.old.forward self.old.back }
    {
        self.receiver.adopt(label, r);
    }

    // The sender comes to rest.
    pub(super) fn rest(&mut self)
        ensures { state_of self.new ≡ rested (state_of self.old) self.old.back self.old.observer }
    {
        self.sender.rest();
    }

    // A unit of time passes on both channels.
    pub(super) fn pass_time(&mut self)
        ensures forward { F.Channel.ticks self.old.forward self.new.forward }
        ensures back { B.Channel.ticks self.old.back self.new.back }
        ensures rest { state_of self.new ≡ over (state_of self.old) self.new.forward self.new.back }
    {
        self.forward.tick();
        self.back.tick();
    }

    // The observer counts from nothing again.
    pub(super) fn count_anew(&mut self)
        ensures { state_of self.new ≡ observed_anew (state_of self.old) }
    {
        self.observer = Observer::new();
    }
}
