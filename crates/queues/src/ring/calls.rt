ghost use Rattle.std.specs.Prelude.{◌≡◌, [], if◌then◌else◌, Ok, Err};
ghost use Rattle.wire.specs.declared.refusal.Refusal.TheVariants.{Size};
ghost use Rattle.queues.specs.Rings.{ring_fits, ring_capacity, ring_words, ring_means, ring_behaviour};
ghost use Rattle.queues.specs.RingRules.{ring_rules};

use super::Ring;
use crate::queue::Queue;
use channel::Channel;
use wire::Refusal;

impl Ring {
    // Whether a ring can have this capacity; refused `size` outside 1 to 64.
    pub fn check(capacity: u16) -> Result<(), Refusal>
        ensures { result ≡ (if ring_fits capacity then Ok tt else Err Size) }
    {
        if capacity >= 1 && capacity <= 64 {
            Ok(())
        } else {
            Err(Refusal::Size)
        }
    }

    // An empty ring of this capacity, or of capacity 1 where `check` refuses it.
    pub fn new(capacity: u16) -> Ring
        ensures words { ring_words result ≡ [] }
        ensures capacity { result.queue.capacity ≡ ring_capacity capacity }
    {
        let capacity = if Ring::check(capacity).is_ok() {
            capacity as usize
        } else {
            1
        };
        Ring {
            queue: Queue::new(capacity),
        }
    }
}

impl Channel for Ring {
    ghost contents = { λ s. (ring_means s).contents };

    ghost capacity = { λ s. (ring_means s).capacity };

    ghost delay = { λ s. (ring_means s).delay };

    ghost wait = { λ s. (ring_means s).wait };

    ghost losses = { λ s. (ring_means s).losses };

    ghost is_open = { λ s. (ring_means s).is_open };

    ghost puts = { ring_behaviour.puts };

    ghost takes = { ring_behaviour.takes };

    ghost ticks = { ring_behaviour.ticks };

    ghost rules = { ring_rules };

    fn capacity(&self) -> u16 {
        self.queue.capacity() as u16
    }

    fn delay(&self) -> u16 {
        0 // a word is due at once
    }

    fn losses(&self) -> u16 {
        0 // it loses nothing
    }

    fn load(&self) -> u16 {
        self.queue.count() as u16
    }

    fn is_open(&self) -> bool {
        self.queue.has_room()
    }

    #[tactic(auto, using(crate::proofs::Peeks::looks))]
    fn peek(&self, at: u16) -> Result<u64, Refusal> {
        self.queue.get(at as usize).ok_or(Refusal::Place)
    }

    fn put(&mut self, word: u64) -> Result<(), Refusal> {
        if self.queue.has_room() {
            self.queue.push(word);
            Ok(())
        } else {
            Err(Refusal::Full)
        }
    }

    fn take(&mut self) -> Result<u64, Refusal> {
        self.queue.pop().ok_or(Refusal::Silent)
    }

    fn tick(&mut self) {}
}
