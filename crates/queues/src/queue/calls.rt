// A queue's calls on the list of its items.
ghost use Rattle.std.specs.Prelude.{◌≡◌, ◌<◌, ◌≤◌, [], ◌∷◌, ◌++◌, length, nat_lt, slice_get};
ghost use Rattle.queues.specs.Buffers.{held, rest};

use super::Queue;

impl<T: Copy + Default> Queue<T> {
    // An empty queue of this capacity.
    pub(crate) fn new(capacity: usize) -> Queue<T>
        requires least { 1 ≤ capacity }
        requires most { capacity ≤ 64 }
        ensures items { held result ≡ [] }
        ensures capacity { result.capacity ≡ capacity }
    {
        Queue {
            items: [T::default(); 64],
            head: 0,
            load: 0,
            capacity,
        }
    }

    // How many items it has room for.
    pub(crate) fn capacity(&self) -> usize
        ensures { result ≡ self.now.capacity }
    {
        self.capacity
    }

    // How many items it holds.
    pub(crate) fn count(&self) -> usize
        ensures { result ≡ length (held self.now) }
    {
        self.load
    }

    // Whether there is room for an item.
    pub(crate) fn has_room(&self) -> bool
        ensures { result ≡ nat_lt (length (held self.now)) self.now.capacity }
    {
        self.load < self.capacity
    }

    // The item at a position, 0 being the oldest's.
    pub(crate) fn get(&self, position: usize) -> Option<T>
        ensures { result ≡ slice_get (held self.now) position }
    {
        if position < self.load {
            Some(self.items[(self.head + position) % 64])
        } else {
            None
        }
    }

    // Puts an item behind the others.
    #[tactic(auto, using(crate::proofs::Windows::window_push))]
    pub(crate) fn push(&mut self, item: T)
        requires { length (held self.old) < self.old.capacity }
        ensures items { held self.new ≡ held self.old ++ (item ∷ []) }
        ensures capacity { self.new.capacity ≡ self.old.capacity }
    {
        self.items[(self.head + self.load) % 64] = item;
        self.load += 1;
    }

    // Takes the oldest item out.
    #[tactic(auto, using(crate::proofs::Windows::window_pop))]
    pub(crate) fn pop(&mut self) -> Option<T>
        ensures oldest { result ≡ slice_get (held self.old) 0 }
        ensures items { held self.new ≡ rest (held self.old) }
        ensures capacity { self.new.capacity ≡ self.old.capacity }
    {
        if self.load == 0 {
            return None;
        }
        let item = self.items[self.head];
        self.head = (self.head + 1) % 64;
        self.load -= 1;
        Some(item)
    }
}
