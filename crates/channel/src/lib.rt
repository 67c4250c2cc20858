// A channel: words on their way from one end of a wire to the other.
#![tactic(auto)]

ghost use Rattle.std.specs.Prelude.{◌≡◌, ℕ, Bool, List, length, Result};
ghost use Rattle.wire.specs.declared.refusal.Refusal.{Refusal};
ghost use Rattle.wire.specs.Refusals.{Answer};
ghost use Rattle.channel.specs.Meaning.{behaviour, answered, peeked};
ghost use Rattle.channel.specs.Rules.{ChannelRules};

use wire::Refusal;

// Every channel says by ghost members of its own what it means, so that each can be read and shown alone.
pub trait Channel {
    // the words held, the oldest first
    ghost contents: { Self → List ℕ };

    ghost capacity: { Self → ℕ };

    ghost delay: { Self → ℕ };

    // how many ticks the oldest word still waits
    ghost wait: { Self → ℕ };

    // how many words may still be lost
    ghost losses: { Self → ℕ };

    ghost is_open: { Self → Bool };

    // which state a call leaves, exactly
    ghost puts: { Self → ℕ → Answer → Self → Type 0 };

    ghost takes: { Self → Result ℕ Refusal → Self → Type 0 };

    ghost ticks: { Self → Self → Type 0 };

    // the channel rules, shown of the parts above
    ghost rules: { ChannelRules (behaviour contents capacity delay wait losses is_open puts takes ticks) };

    fn capacity(&self) -> u16
        ensures { result ≡ answered (capacity self.now) };

    fn delay(&self) -> u16
        ensures { result ≡ answered (delay self.now) };

    fn losses(&self) -> u16
        ensures { result ≡ answered (losses self.now) };

    // How many words it holds.
    fn load(&self) -> u16
        ensures { result ≡ answered (length (contents self.now)) };

    fn is_open(&self) -> bool
        ensures { result ≡ is_open self.now };

    // The word at a position, 0 being the oldest; refused `place` from the load on.
    fn peek(&self, at: u16) -> Result<u64, Refusal>
        ensures { result ≡ peeked (contents self.now) at };

    // Refused `full` exactly if closed.
    fn put(&mut self, word: u64) -> Result<(), Refusal>
        ensures { puts self.old word result self.new };

    // The oldest word; refused `silent` exactly if there is none or it still waits.
    fn take(&mut self) -> Result<u64, Refusal>
        ensures { takes self.old result self.new };

    // One unit of time passes.
    fn tick(&mut self)
        ensures { ticks self.old self.new };
}
