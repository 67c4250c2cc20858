ghost use Rattle.std.specs.Prelude.{◌≡◌, ◌<◌, ◌≤◌, length};

mod calls;

// Items in a circular buffer: `load` items from the place `head` on, the oldest first; after the last place comes the first. It is an
// array with its load beside it, since channels are of fixed memory, and the oldest item goes out without moving the others.
#[derive(Drop)]
pub(crate) struct Queue<T> {
    pub(crate) items: [T; 64],
    head: usize,
    load: usize,
    capacity: usize,
    ghost sized: { length items ≡ 64 },
    ghost inside: { head < 64 },
    ghost within: { load ≤ capacity },
    ghost least: { 1 ≤ capacity },
    ghost most: { capacity ≤ 64 },
}
