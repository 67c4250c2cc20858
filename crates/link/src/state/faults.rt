// Fault calls: what a brown-out may do to the ends and the wire. An accepted one starts the observer anew. Each channel has calls of
// its own, since the two are of two types: one call with a side as an argument would be a match over both. So has each part of an end.
ghost use Rattle.std.specs.Prelude.{◌≡◌, Ok};
ghost use Rattle.link.specs.Faults.{with_sender, with_receiver, RawForward, RawBack, DiscardForward, DiscardBack, Inflicted};
ghost use Rattle.channel.specs.Behaviours.{behaviour_of};
ghost use Rattle.link.specs.States.{state_of};

use super::Link;
use crate::calls::Fault;
use channel::Channel;
use ends::State;
use records::RecordKind;
use wire::Refusal;

impl<F: Channel, B: Channel, R: RecordKind> Link<F, B, R> {
    pub fn set_sender_label(&mut self, label: u8) -> Result<(), Refusal>
        ensures answer { result ≡ Ok tt }
        ensures after { state_of self.new ≡ with_sender (state_of self.old) (record { label = label; state = self.old.sender.state; in_hand = self.old.sender.in_hand }) }
    {
        self.sender.label = label;
        self.count_anew();
        Ok(())
    }

    pub fn set_receiver_label(&mut self, label: u8) -> Result<(), Refusal>
        ensures answer { result ≡ Ok tt }
        ensures after { state_of self.new ≡ with_receiver (state_of self.old) (record { label = label; delivered = self.old.receiver.delivered }) }
    {
        self.receiver.label = label;
        self.count_anew();
        Ok(())
    }

    pub fn set_state(&mut self, state: State) -> Result<(), Refusal>
        ensures answer { result ≡ Ok tt }
        ensures after { state_of self.new ≡ with_sender (state_of self.old) (record { label = self.old.sender.label; state = state; in_hand = self.old.sender.in_hand }) }
    {
        self.sender.state = state;
        self.count_anew();
        Ok(())
    }

    pub fn set_in_hand(&mut self, r: R::Record) -> Result<(), Refusal>
        ensures answer { result ≡ Ok tt }
        ensures after { state_of self.new ≡ with_sender (state_of self.old) (record { label = self.old.sender.label; state = self.old.sender.state; in_hand = r }) }
    {
        self.sender.in_hand = r;
        self.count_anew();
        Ok(())
    }

    // Puts any word on the forward channel; refused `full` as the put is.
    pub fn put_forward(&mut self, word: u64) -> Result<(), Refusal>
        ensures { RawForward (behaviour_of F.Channel) (state_of self.old) word result (state_of self.new) }
    {
        self.forward.put(word)?;
        self.count_anew();
        Ok(())
    }

    // Puts any word on the back channel; refused `full` as the put is.
    pub fn put_back(&mut self, word: u64) -> Result<(), Refusal>
        ensures { RawBack (behaviour_of B.Channel) (state_of self.old) word result (state_of self.new) }
    {
        self.back.put(word)?;
        self.count_anew();
        Ok(())
    }

    // Takes the forward channel's oldest word and lets it go; refused `silent` as the take is.
    pub fn discard_forward(&mut self) -> Result<(), Refusal>
        ensures { DiscardForward (behaviour_of F.Channel) (state_of self.old) result (state_of self.new) }
    {
        self.forward.take()?;
        self.count_anew();
        Ok(())
    }

    // Takes the back channel's oldest word and lets it go; refused `silent` as the take is.
    pub fn discard_back(&mut self) -> Result<(), Refusal>
        ensures { DiscardBack (behaviour_of B.Channel) (state_of self.old) result (state_of self.new) }
    {
        self.back.take()?;
        self.count_anew();
        Ok(())
    }

    // The fault call that a value stands for.
    pub fn inflict(&mut self, fault: Fault<R::Record>) -> Result<(), Refusal>
        ensures { Inflicted (behaviour_of F.Channel) (behaviour_of B.Channel) (state_of self.old) fault result (state_of self.new) }
    {
        match fault {
            Fault::SenderLabel(label) => self.set_sender_label(label),
            Fault::ReceiverLabel(label) => self.set_receiver_label(label),
            Fault::SenderState(state) => self.set_state(state),
            Fault::InHand(r) => self.set_in_hand(r),
            Fault::PutForward(word) => self.put_forward(word),
            Fault::PutBack(word) => self.put_back(word),
            Fault::DiscardForward => self.discard_forward(),
            Fault::DiscardBack => self.discard_back(),
        }
    }
}
