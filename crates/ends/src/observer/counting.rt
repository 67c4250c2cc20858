// What an observer counts.
ghost use Rattle.std.specs.Prelude.{◌≡◌};
ghost use Rattle.ends.specs.Observers.{unobserved, counted, observed};

use super::Observer;

impl Observer {
    // Nothing observed yet.
    pub fn new() -> Observer
        ensures { result ≡ unobserved }
    {
        Observer {
            completed: 0,
            first: 0,
        }
    }

    // The observer after one more completed exchange, which left the link clean or not.
    pub fn after_exchange(self, clean: bool) -> Observer
        ensures { result ≡ observed clean self }
    {
        let completed = next_count(self.completed);
        let first = if clean && self.first == 0 {
            completed
        } else {
            self.first
        };
        Observer { completed, first }
    }
}

// The next count; it stops at the largest number.
fn next_count(n: u16) -> u16
    ensures { result ≡ counted n }
{
    n.saturating_add(1)
}
