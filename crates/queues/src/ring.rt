use crate::queue::Queue;

pub mod calls;

// A queue of words.
#[derive(Drop)]
pub struct Ring {
    queue: Queue<u64>,
}
