pub mod decode;
pub mod shown;

use commands::Command;
use readings::Reading;

// What a word carries under its label.
#[derive(Clone, Copy, PartialEq, Eq, Debug)]
pub enum Content {
    Acknowledgement,
    Command(Command),
    Reading(Reading),
}

#[derive(Clone, Copy, PartialEq, Eq, Debug)]
pub struct Message {
    pub label: u8,
    pub content: Content,
}

// Why a line of a capture carries nothing. Kinds are by their numbers: a word may have any of sixteen, most of which have no name, and
// what is no record is found by code that is generic in the kind.
#[derive(Clone, Copy, PartialEq, Eq, Debug)]
pub enum Fault {
    NoWord,
    NotWhole,
    UnknownKind(u8),
    NoRecord(u8),
}
