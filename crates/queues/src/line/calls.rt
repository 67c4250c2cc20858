ghost use Rattle.std.specs.Prelude.{◌≡◌, [], if◌then◌else◌, Ok, Err};
ghost use Rattle.wire.specs.declared.refusal.Refusal.TheVariants.{Size};
ghost use Rattle.queues.specs.Lines.{line_fits, line_capacity, line_delay, line_words, line_dues, line_means, line_behaviour};
ghost use Rattle.queues.specs.LineRules.{line_rules};

use super::ticks::LAST;
use super::{DelayLine, Timed};
use crate::queue::Queue;
use crate::ring::Ring;
use channel::Channel;
use wire::Refusal;

impl DelayLine {
    // Whether a line can have this capacity and this delay; refused `size` outside 1 to 64 and 0 to 15.
    pub fn check(capacity: u16, delay: u16) -> Result<(), Refusal>
        ensures { result ≡ (if line_fits capacity delay then Ok tt else Err Size) }
    {
        Ring::check(capacity)?;
        if delay <= 15 {
            Ok(())
        } else {
            Err(Refusal::Size)
        }
    }

    // An empty line of this capacity and delay, or of capacity 1 and delay 0 where `check` refuses them.
    pub fn new(capacity: u16, delay: u16) -> DelayLine
        ensures words { line_words result ≡ [] }
        ensures dues { line_dues result ≡ [] }
        ensures capacity { result.queue.capacity ≡ line_capacity capacity delay }
        ensures delay { result.delay ≡ line_delay capacity delay }
    {
        let (capacity, delay) = if DelayLine::check(capacity, delay).is_ok() {
            (capacity as usize, delay)
        } else {
            (1, 0)
        };
        DelayLine {
            queue: Queue::new(capacity),
            ticks: 0,
            delay,
        }
    }
}

impl Channel for DelayLine {
    ghost contents = { λ s. (line_means s).contents };

    ghost capacity = { λ s. (line_means s).capacity };

    ghost delay = { λ s. (line_means s).delay };

    ghost wait = { λ s. (line_means s).wait };

    ghost losses = { λ s. (line_means s).losses };

    ghost is_open = { λ s. (line_means s).is_open };

    ghost puts = { line_behaviour.puts };

    ghost takes = { line_behaviour.takes };

    ghost ticks = { line_behaviour.ticks };

    ghost rules = { line_rules };

    fn capacity(&self) -> u16 {
        self.queue.capacity() as u16
    }

    fn delay(&self) -> u16 {
        self.delay
    }

    fn losses(&self) -> u16 {
        0 // it loses nothing
    }

    fn load(&self) -> u16 {
        self.queue.count() as u16
    }

    fn is_open(&self) -> bool {
        self.queue.has_room()
    }

    #[tactic(auto, using(crate::proofs::Peeks::looks))]
    fn peek(&self, at: u16) -> Result<u64, Refusal> {
        self.queue
            .get(at as usize)
            .map(|item| item.word)
            .ok_or(Refusal::Place)
    }

    fn put(&mut self, word: u64) -> Result<(), Refusal> {
        if self.queue.has_room() {
            self.queue.push(Timed {
                word,
                ready: self.ticks + self.delay,
            });
            Ok(())
        } else {
            Err(Refusal::Full)
        }
    }

    #[tactic(auto, using(crate::proofs::Dues::soon_rest))]
    fn take(&mut self) -> Result<u64, Refusal> {
        let item = self
            .queue
            .get(0)
            .filter(|item| item.ready <= self.ticks)
            .ok_or(Refusal::Silent)?;
        self.queue.pop();
        Ok(item.word)
    }

    #[tactic(auto, using(crate::proofs::Dues::soon_later, crate::proofs::Dues::dues_later))]
    fn tick(&mut self) {
        if self.ticks == LAST {
            self.restart();
        }
        self.ticks += 1;
    }
}
