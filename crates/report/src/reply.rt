pub mod put;

use wire::Refusal;

// What a line of a script is answered.
#[derive(Clone, Copy)]
pub enum Reply {
    // a letter, which is the byte that is written, and what a call answered
    One(u8, Result<(), Refusal>),
    // what was heard, what the reply's put answered, and the payload of the record that the receiver then holds
    Hear {
        heard: Result<(), Refusal>,
        reply: Result<(), Refusal>,
        payload: u64,
    },
    // what a round's send answered, its hear with the payload that the receiver then holds, and its settle
    Round {
        sent: Result<(), Refusal>,
        heard: Result<(), Refusal>,
        reply: Result<(), Refusal>,
        settled: Result<(), Refusal>,
        payload: u64,
    },
}
