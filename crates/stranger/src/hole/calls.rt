ghost use Rattle.std.specs.Prelude.{◌≡◌, None};
ghost use Rattle.stranger.specs.Holes.{hole_means, hole_behaviour};
ghost use Rattle.stranger.specs.HoleRules.{hole_rules};

use super::Pigeonhole;
use channel::Channel;
use wire::Refusal;

impl Pigeonhole {
    // An empty one, of this delay and with so many leaks.
    pub fn new(delay: u16, leaks: u16) -> Pigeonhole
        ensures word { result.word ≡ None }
        ensures wait { result.wait ≡ 0 }
        ensures delay { result.delay ≡ delay }
        ensures leaks { result.leaks ≡ leaks }
    {
        Pigeonhole {
            word: None,
            wait: 0,
            delay,
            leaks,
        }
    }
}

impl Channel for Pigeonhole {
    ghost contents = { λ s. (hole_means s).contents };

    ghost capacity = { λ s. (hole_means s).capacity };

    ghost delay = { λ s. (hole_means s).delay };

    ghost wait = { λ s. (hole_means s).wait };

    ghost losses = { λ s. (hole_means s).losses };

    ghost is_open = { λ s. (hole_means s).is_open };

    ghost puts = { hole_behaviour.puts };

    ghost takes = { hole_behaviour.takes };

    ghost ticks = { hole_behaviour.ticks };

    ghost rules = { hole_rules };

    fn capacity(&self) -> u16 {
        1 // one place
    }

    fn delay(&self) -> u16 {
        self.delay
    }

    fn losses(&self) -> u16 {
        self.leaks // each loses one word
    }

    fn load(&self) -> u16 {
        self.word.is_some() as u16
    }

    fn is_open(&self) -> bool {
        self.word.is_none()
    }

    fn peek(&self, at: u16) -> Result<u64, Refusal> {
        self.word.filter(|_| at == 0).ok_or(Refusal::Place)
    }

    fn put(&mut self, word: u64) -> Result<(), Refusal> {
        if self.word.is_some() {
            return Err(Refusal::Full);
        }
        self.word = Some(word);
        self.wait = self.delay;
        Ok(())
    }

    fn take(&mut self) -> Result<u64, Refusal> {
        match self.word {
            Some(word) if self.wait == 0 => {
                self.word = None;
                Ok(word)
            }
            _ => Err(Refusal::Silent),
        }
    }

    fn tick(&mut self) {
        if self.word.is_none() {
            return;
        }
        if self.leaks > 0 {
            self.word = None;
            self.leaks -= 1;
        } else {
            self.wait = self.wait.saturating_sub(1);
        }
    }
}
