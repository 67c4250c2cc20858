// The count of the ticks, and how it begins again at its end.
ghost use Rattle.std.specs.Prelude.{◌≡◌, map};
ghost use Rattle.queues.specs.Buffers.{held};
ghost use Rattle.queues.specs.Lines.{line_words, line_dues, sooner, SameLine};

use super::{DelayLine, Timed};
use crate::queue::Queue;

// The largest count: the longest delay later is still a number of 16 bits.
pub(super) const LAST: u16 = 65520;

impl Timed {
    // The word so many ticks sooner, at 0 the soonest.
    fn sooner(self, ticks: u16) -> Timed
        ensures { result ≡ sooner ticks self }
    {
        Timed {
            ready: self.ready.saturating_sub(ticks),
            ..self
        }
    }
}

impl Queue<Timed> {
    // Makes every word so many ticks sooner.
    fn advance(&mut self, ticks: u16)
        ensures items { held self.new ≡ map (sooner ticks) (held self.old) }
        ensures capacity { self.new.capacity ≡ self.old.capacity }
    {
        for item in self.items.iter_mut() {
            *item = item.sooner(ticks);
        }
    }
}

impl DelayLine {
    // Counts the ticks from 0 again.
    #[tactic(auto, using(crate::proofs::Dues::words_sooner, crate::proofs::Dues::dues_sooner))]
    pub(super) fn restart(&mut self)
        ensures words { line_words self.new ≡ line_words self.old }
        ensures dues { line_dues self.new ≡ line_dues self.old }
        ensures ticks { self.new.ticks ≡ 0 }
        ensures same { SameLine self.old self.new }
    {
        self.queue.advance(self.ticks);
        self.ticks = 0;
    }
}
