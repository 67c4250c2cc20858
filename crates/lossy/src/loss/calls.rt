ghost use Rattle.std.specs.Prelude.{◌≡◌, ◌+◌};
ghost use Rattle.lossy.specs.Patterns.{top_bit, bit_count};
ghost use Rattle.lossy.specs.Losses.{LossPut, LossTake, LossTick};
ghost use Rattle.lossy.specs.LossRules.{loss_rules};

use super::Loss;
use channel::Channel;
use wire::Refusal;

impl<C> Loss<C> {
    // A layer that loses the words at the ones of the pattern, the highest bit being the first word's.
    pub fn new(pattern: u64, below: C) -> Loss<C>
        ensures pattern { result.pattern ≡ pattern }
        ensures below { result.below ≡ below }
    {
        Loss { pattern, below }
    }

    // What is left of the pattern.
    pub fn pattern(&self) -> u64
        ensures { result ≡ self.now.pattern }
    {
        self.pattern // its highest bit comes next
    }

    // The channel below.
    pub fn below(&self) -> &C
        ensures { result.now ≡ self.now.below }
    {
        &self.below
    }

    // Whether the next word is lost.
    fn is_next_lost(&self) -> bool
        ensures { result ≡ top_bit self.now.pattern }
    {
        self.pattern >= 1 << 63
    }

    // How many words the pattern still loses.
    fn own_losses(&self) -> u16
        ensures { result ≡ bit_count 64 self.now.pattern }
    {
        self.pattern.count_ones() as u16
    }
}

impl<C: Channel> Channel for Loss<C> {
    ghost contents = { λ s. C.Channel.contents s.below };

    ghost capacity = { λ s. C.Channel.capacity s.below };

    ghost delay = { λ s. C.Channel.delay s.below };

    ghost wait = { λ s. C.Channel.wait s.below };

    ghost losses = { λ s. bit_count 64 s.pattern + C.Channel.losses s.below };

    ghost is_open = { λ s. C.Channel.is_open s.below };

    ghost puts = { λ s. LossPut (C.Channel.is_open s.below) (top_bit s.pattern) C.Channel.puts s };

    ghost takes = { LossTake C.Channel.takes };

    ghost ticks = { LossTick C.Channel.ticks };

    ghost rules = { loss_rules C.Channel.rules };

    fn capacity(&self) -> u16 {
        self.below.capacity()
    }

    fn delay(&self) -> u16 {
        self.below.delay()
    }

    fn losses(&self) -> u16 {
        self.own_losses().saturating_add(self.below.losses())
    }

    fn load(&self) -> u16 {
        self.below.load()
    }

    fn is_open(&self) -> bool {
        self.below.is_open()
    }

    fn peek(&self, at: u16) -> Result<u64, Refusal> {
        self.below.peek(at)
    }

    fn put(&mut self, word: u64) -> Result<(), Refusal> {
        if !self.below.is_open() {
            return Err(Refusal::Full);
        }
        let lost = self.is_next_lost();
        self.pattern <<= 1;
        if lost {
            return Ok(());
        }
        self.below.put(word)
    }

    fn take(&mut self) -> Result<u64, Refusal> {
        self.below.take()
    }

    fn tick(&mut self) {
        self.below.tick();
    }
}
