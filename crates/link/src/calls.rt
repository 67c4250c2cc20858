// Calls on a link, and faults, as values.
use ends::State;

// One of the six calls, an offer with its record.
#[derive(Clone, Copy)]
pub enum Call<T> {
    Offer(T),
    Send,
    Hear,
    Settle,
    Tick,
    Round,
}

// One of the fault calls, with what it sets or puts.
#[derive(Clone, Copy)]
pub enum Fault<T> {
    SenderLabel(u8),
    ReceiverLabel(u8),
    SenderState(State),
    InHand(T),
    PutForward(u64),
    PutBack(u64),
    DiscardForward,
    DiscardBack,
}
