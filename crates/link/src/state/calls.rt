// The six calls of a link. Each performs one step of a run.
ghost use Rattle.std.specs.Prelude.{◌≡◌};
ghost use Rattle.recovery.specs.Steps.{Offer, Send, Hear, Settle, Ticks, Round};
ghost use Rattle.codec.specs.Words.{words_of};
ghost use Rattle.channel.specs.Behaviours.{behaviour_of};
ghost use Rattle.link.specs.States.{state_of};

use super::Link;
use channel::Channel;
use ends::decide;
use records::RecordKind;
use wire::Refusal;

impl<F: Channel, B: Channel, R: RecordKind> Link<F, B, R> {
    // Takes a record in hand under the next label; refused `busy` while an exchange is under way.
    #[tactic(auto, using(recovery::specs::Steps::busy, crate::proofs::Performed::busy_state, crate::proofs::Performed::offer_done))]
    pub fn offer(&mut self, r: R::Record) -> Result<(), Refusal>
        ensures { Offer (words_of R.RecordKind) (behaviour_of F.Channel) (behaviour_of B.Channel) (state_of self.old) r result (state_of self.new) }
    {
        if self.sender.is_busy() {
            return Err(Refusal::Busy);
        }
        self.take_in_hand(r);
        Ok(())
    }

    // Puts the word of the record in hand on the forward channel; refused `idle` when none is under way.
    #[tactic(auto, using(recovery::specs::Steps::idle, crate::proofs::Performed::idle_state))]
    pub fn send(&mut self) -> Result<(), Refusal>
        ensures { Send (words_of R.RecordKind) (behaviour_of F.Channel) (behaviour_of B.Channel) (state_of self.old) result (state_of self.new) }
    {
        if !self.sender.is_busy() {
            return Err(Refusal::Idle);
        }
        let word = self.word_in_hand();
        self.put_word(word)
    }

    // Takes a word from the forward channel and acknowledges it; a new label is adopted and its record delivered.
    // Answers what was heard, and what the reply's put answered.
    pub fn hear(&mut self) -> (Result<(), Refusal>, Result<(), Refusal>)
        ensures { Hear (words_of R.RecordKind) (behaviour_of F.Channel) (behaviour_of B.Channel) (state_of self.old) result.0 result.1 (state_of self.new) }
    {
        let Ok(word) = self.forward.take() else {
            return (Err(Refusal::Silent), Err(Refusal::Silent));
        };
        let Some((label, r)) = self.config.read_word(word) else {
            return (Err(Refusal::Spoilt), Err(Refusal::Silent));
        };
        let reply = self.reply(label);
        if self.is_repeat(label) {
            return (Err(Refusal::Repeat), reply);
        }
        self.deliver(label, r);
        (Ok(()), reply)
    }

    // Takes an acknowledgement from the back channel. Under way and with the sender's label, it completes the exchange.
    pub fn settle(&mut self) -> Result<(), Refusal>
        ensures { Settle (words_of R.RecordKind) (behaviour_of F.Channel) (behaviour_of B.Channel) (state_of self.old) result (state_of self.new) }
    {
        let Ok(word) = self.back.take() else {
            return Err(Refusal::Silent);
        };
        let Some(label) = self.config.read_ack(word) else {
            return Err(Refusal::Spoilt);
        };
        let own = self.config.read_label(self.sender.label);
        decide(self.sender.state, label, own)?;
        self.rest();
        self.observer = self.observer.after_exchange(self.is_clean());
        Ok(())
    }

    // One unit of time passes on both channels.
    pub fn tick(&mut self) -> Result<(), Refusal>
        ensures { Ticks (words_of R.RecordKind) (behaviour_of F.Channel) (behaviour_of B.Channel) (state_of self.old) result (state_of self.new) }
    {
        self.pass_time();
        Ok(())
    }

    // Send, hear, settle and tick, in that order. Answers send's, hear's two and settle's answer.
    #[tactic(auto, using(recovery::specs::Steps::in_turn))]
    pub fn round(
        &mut self,
    ) -> (
        Result<(), Refusal>,
        (Result<(), Refusal>, Result<(), Refusal>),
        Result<(), Refusal>,
    )
        ensures { Round (words_of R.RecordKind) (behaviour_of F.Channel) (behaviour_of B.Channel) (state_of self.old) result.0 result.1.0 result.1.1 result.2 (state_of self.new) }
    {
        let sent = self.send();
        let heard = self.hear();
        let settled = self.settle();
        let _ = self.tick();
        (sent, heard, settled)
    }
}
