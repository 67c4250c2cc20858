// What a line of the lab is answered, as text.
ghost use Rattle.std.specs.Prelude.{Some};
ghost use Rattle.lab_lines.specs.Replies.{round_text};

use link::{Observer, State};
use std::fmt;
use wire::{Refusal, answer_number};

// What a channel answers when asked.
#[derive(Clone, Copy)]
pub struct Questions {
    pub capacity: u16,
    pub delay: u16,
    pub losses: u16,
    pub load: u16,
    pub open: bool,
}

// The two ends of a link; records by their payloads.
#[derive(Clone, Copy)]
pub struct Ends {
    pub sender: u8,
    pub state: State,
    pub in_hand: u64,
    pub receiver: u8,
    pub delivered: u64,
}

// What a round answered: send's, hear's two, settle's.
#[derive(Clone, Copy)]
pub struct Round {
    pub sent: Result<(), Refusal>,
    pub heard: Result<(), Refusal>,
    pub reply: Result<(), Refusal>,
    pub settled: Result<(), Refusal>,
}

#[derive(Clone, Copy)]
pub enum Reply {
    // what a call answered, under the name of its line
    One(&'static str, Result<(), Refusal>),
    Ask(Questions),
    Peek(Result<u64, Refusal>),
    // what was heard, and what the reply's put answered
    Hear(Result<(), Refusal>, Result<(), Refusal>),
    Round(Round),
    Clean(bool),
    // the observer's numbers, under the name of the line
    Observed(&'static str, Observer),
    Ends(Ends),
    // a line of no listed form
    Unknown,
}

impl fmt::Display for Questions {
    fn fmt<W: fmt::Write>(&self, f: &mut fmt::Formatter<W>) -> fmt::Result {
        write!(f, "ask {} {} {}", self.capacity, self.delay, self.losses)?;
        write!(f, " {} {}", self.load, self.open as u8)
    }
}

impl fmt::Display for Round {
    ghost output = { λ r. Some (round_text r) };

    fn fmt<W: fmt::Write>(&self, f: &mut fmt::Formatter<W>) -> fmt::Result {
        write!(
            f,
            "round {} {} {} {}",
            answer_number(&self.sent),
            answer_number(&self.heard),
            answer_number(&self.reply),
            answer_number(&self.settled)
        )
    }
}

impl fmt::Display for Ends {
    fn fmt<W: fmt::Write>(&self, f: &mut fmt::Formatter<W>) -> fmt::Result {
        write!(f, "ends {} {}", self.sender, self.state as u8)?;
        write!(
            f,
            " {:09X} {} {:09X}",
            self.in_hand, self.receiver, self.delivered
        )
    }
}

impl fmt::Display for Reply {
    fn fmt<W: fmt::Write>(&self, f: &mut fmt::Formatter<W>) -> fmt::Result {
        match *self {
            Reply::One(name, answer) => write!(f, "{name} {}", answer_number(&answer)),
            Reply::Ask(questions) => write!(f, "{questions}"),
            Reply::Peek(Ok(word)) => write!(f, "peek 0 {word:016X}"),
            Reply::Peek(Err(refusal)) => write!(f, "peek {}", refusal.number()),
            Reply::Hear(heard, reply) => write!(
                f,
                "hear {} {}",
                answer_number(&heard),
                answer_number(&reply)
            ),
            Reply::Round(round) => write!(f, "{round}"),
            Reply::Clean(clean) => write!(f, "clean {}", clean as u8),
            Reply::Observed(name, seen) => write!(f, "{name} {} {}", seen.completed, seen.first),
            Reply::Ends(ends) => write!(f, "{ends}"),
            Reply::Unknown => write!(f, "? 12"),
        }
    }
}
