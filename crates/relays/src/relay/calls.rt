ghost use Rattle.std.specs.Prelude.{◌≡◌, ◌+◌, ◌-◌, ◌≤◌, ◌++◌, length};
ghost use Rattle.channel.specs.Meaning.{answered, peeked};
ghost use Rattle.relays.specs.Relays.{relay_wait, RelayPut, RelayTake, RelayTick};
ghost use Rattle.relays.specs.RelayRules.{relay_rules};

use super::Relay;
use channel::Channel;
use wire::Refusal;

impl<U, L> Relay<U, L> {
    // The upper channel, then the lower.
    pub fn new(upper: U, lower: L) -> Relay<U, L>
        ensures upper { result.upper ≡ upper }
        ensures lower { result.lower ≡ lower }
    {
        Relay { upper, lower }
    }

    // The channel that words enter.
    pub fn upper(&self) -> &U
        ensures { result.now ≡ self.now.upper }
    {
        &self.upper
    }

    // The channel that words leave.
    pub fn lower(&self) -> &L
        ensures { result.now ≡ self.now.lower }
    {
        &self.lower
    }
}

impl<U: Channel, L: Channel> Relay<U, L> {
    // How many words both hold.
    fn both_loads(&self) -> u16
        ensures { result ≡ answered (length (L.Channel.contents self.now.lower) + length (U.Channel.contents self.now.upper)) }
    {
        self.upper.load().saturating_add(self.lower.load())
    }

    // The word at a position past the lower's words.
    fn peek_upper(&self, at: u16) -> Result<u64, Refusal>
        requires { length (L.Channel.contents self.now.lower) ≤ at }
        ensures { result ≡ peeked (U.Channel.contents self.now.upper) (at - length (L.Channel.contents self.now.lower)) }
    {
        self.upper.peek(at - self.lower.load())
    }
}

impl<U: Channel, L: Channel> Channel for Relay<U, L> {
    ghost contents = { λ s. L.Channel.contents s.lower ++ U.Channel.contents s.upper };

    ghost capacity = { λ s. U.Channel.capacity s.upper + L.Channel.capacity s.lower };

    ghost delay = { λ s. U.Channel.delay s.upper + L.Channel.delay s.lower + 1 };

    ghost wait = { λ s. relay_wait (L.Channel.contents s.lower) (U.Channel.contents s.upper) (L.Channel.wait s.lower) (U.Channel.wait s.upper) (L.Channel.delay s.lower) };

    ghost losses = { λ s. U.Channel.losses s.upper + L.Channel.losses s.lower };

    ghost is_open = { λ s. U.Channel.is_open s.upper };

    ghost puts = { RelayPut U.Channel.puts };

    ghost takes = { RelayTake L.Channel.takes };

    ghost ticks = { RelayTick U.Channel.takes U.Channel.ticks L.Channel.is_open L.Channel.puts L.Channel.ticks };

    ghost rules = { relay_rules U.Channel.rules L.Channel.rules };

    fn capacity(&self) -> u16 {
        self.upper.capacity().saturating_add(self.lower.capacity())
    }

    fn delay(&self) -> u16 {
        self.upper
            .delay()
            .saturating_add(self.lower.delay())
            .saturating_add(1)
    }

    fn losses(&self) -> u16 {
        self.upper.losses().saturating_add(self.lower.losses())
    }

    fn load(&self) -> u16 {
        self.both_loads()
    }

    fn is_open(&self) -> bool {
        self.upper.is_open()
    }

    // The lower is asked first, and not for its load, which may be more than it can answer. By a match: that the position is
    // past the lower's words is known only where the lower refuses, and no proof was found of it inside a closure of `or_else`.
    fn peek(&self, at: u16) -> Result<u64, Refusal> {
        match self.lower.peek(at) {
            Ok(word) => Ok(word),
            Err(_) => self.peek_upper(at),
        }
    }

    fn put(&mut self, word: u64) -> Result<(), Refusal> {
        self.upper.put(word)
    }

    fn take(&mut self) -> Result<u64, Refusal> {
        self.lower.take()
    }

    fn tick(&mut self) {
        self.upper.tick();
        self.lower.tick();
        if self.lower.is_open() {
            if let Ok(word) = self.upper.take() {
                let _ = self.lower.put(word);
            }
        }
    }
}
