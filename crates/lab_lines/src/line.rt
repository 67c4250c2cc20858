// What a line of the lab asks for.
pub mod parse;

use link::{Call, State};
use script::Kind;

// Which of a link's channels.
#[derive(Clone, Copy)]
pub enum Side {
    Forward,
    Back,
}

// Which channels a link is made of; the five pairs stand in the table of the lab.
#[derive(Clone, Copy)]
pub enum Pair {
    Losses,
    Rings,
    DelayLines,
    Relays,
    LossOverRelay,
}

// What a channel of the pair is made with: two patterns, two sizes, and two more sizes that are mostly delays.
#[derive(Clone, Copy)]
pub struct Sizes {
    pub x: u64,
    pub y: u64,
    pub a: u16,
    pub b: u16,
    pub c: u16,
    pub d: u16,
}

// A link to be made.
#[derive(Clone, Copy)]
pub struct Making {
    pub pair: Pair,
    pub kind: Kind,
    pub labels: u16,
    pub sizes: Sizes,
}

// What a line asks of one channel.
#[derive(Clone, Copy)]
pub enum OnChannel {
    Ask,
    Peek(u16),
    Put(u64),
    Discard,
}

// What a line sets at the ends. The link's own faults do not serve: a record comes by its payload, which may be none, and what is put
// on a channel or discarded is asked of a side.
#[derive(Clone, Copy)]
pub enum Fault {
    SenderLabel(u8),
    ReceiverLabel(u8),
    State(State),
    Hand(u64),
}

// What can be read of a link.
#[derive(Clone, Copy)]
pub enum Question {
    Check,
    Clean,
    Observer,
    Ends,
}

// What a line asks of the link that there is.
#[derive(Clone, Copy)]
pub enum Order {
    Channel(Side, OnChannel),
    Fault(Fault),
    // an offer by its payload
    Call(Call<u64>),
    // so many offers and rounds in a row
    Spin(u16),
    Handover,
    Question(Question),
}

#[derive(Clone, Copy)]
pub enum Line {
    Link(Making),
    Order(Order),
}
