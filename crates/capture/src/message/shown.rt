ghost use Rattle.std.specs.Prelude.{Some};
ghost use Rattle.capture.specs.Texts.{content_text, fault_text, message_text};

use super::{Content, Fault, Message};
use std::fmt;

impl fmt::Display for Content {
    ghost output = { λ c. Some (content_text c) };

    fn fmt<W: fmt::Write>(&self, f: &mut fmt::Formatter<W>) -> fmt::Result {
        match self {
            Content::Acknowledgement => f.write_str("acknowledgement"),
            Content::Command(command) => write!(f, "command, {command}"),
            Content::Reading(reading) => write!(f, "reading, {reading}"),
        }
    }
}

impl fmt::Display for Message {
    ghost output = { λ m. Some (message_text m) };

    fn fmt<W: fmt::Write>(&self, f: &mut fmt::Formatter<W>) -> fmt::Result {
        let label = self.label;
        let content = self.content;
        write!(f, "label {label}: {content}")
    }
}

impl fmt::Display for Fault {
    ghost output = { λ e. Some (fault_text e) };

    fn fmt<W: fmt::Write>(&self, f: &mut fmt::Formatter<W>) -> fmt::Result {
        match self {
            Fault::NoWord => f.write_str("no word"),
            Fault::NotWhole => f.write_str("not whole"),
            Fault::UnknownKind(kind) => write!(f, "unknown kind {kind}"),
            Fault::NoRecord(kind) => write!(f, "no record of kind {kind}"),
        }
    }
}
