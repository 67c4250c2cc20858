ghost use Rattle.std.specs.Prelude.{◌+◌, ◌≤◌, All};
ghost use Rattle.queues.specs.Buffers.{held};

use crate::queue::Queue;

pub mod calls;
mod ticks;

// A word, and the tick from which on it comes out.
#[derive(Clone, Copy, Default)]
struct Timed {
    word: u64,
    ready: u16,
}

// A queue of words, and the count of the ticks: a word comes out once the count has reached its own.
#[derive(Drop)]
pub struct DelayLine {
    queue: Queue<Timed>,
    ticks: u16,
    delay: u16,
    ghost limited: { delay ≤ 15 },
    ghost countable: { ticks ≤ 65520 },
    ghost soon: { All (λ item. item.ready ≤ ticks + delay) (held queue) },
}
