pub mod moves;

// Whether the sender has an exchange under way.
#[derive(Clone, Copy, PartialEq, Eq, Debug)]
pub enum State {
    Idle,
    UnderWay,
}

// The sending end. A label is stored as any byte, and read as its remainder by the label count. The record in hand stands beside the
// state, and not in it: it is there, and is read, while the sender is idle too.
#[derive(Clone, Copy)]
pub struct Sender<T> {
    pub label: u8,
    pub state: State,
    pub in_hand: T,
}
