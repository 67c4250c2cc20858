ghost use Rattle.std.specs.Prelude.{◌≤◌};

pub mod calls;

// One place for a word, which waits there for the delay. While there are leaks left, a tick loses the word. The wait stands beside the
// word, so that it is at most the delay whether or not there is a word.
#[derive(Drop)]
pub struct Pigeonhole {
    word: Option<u64>,
    wait: u16,
    delay: u16,
    leaks: u16,
    ghost soon: { wait ≤ delay },
}
