ghost use Rattle.std.specs.Prelude.{◌≡◌, Some};
ghost use Rattle.capture.specs.Tallies.{none_yet, noted, tally_text};

use super::Tally;
use crate::message::{Content, Fault, Message};
use std::fmt;

impl Tally {
    // Nothing counted yet.
    pub fn new() -> Tally
        ensures { result ≡ none_yet }
    {
        Tally {
            records: 0,
            acknowledgements: 0,
            unreadable: 0,
        }
    }

    // The counts after one more line.
    pub fn after(self, found: Result<Message, Fault>) -> Tally
        ensures { result ≡ noted self found }
    {
        match found {
            Ok(
                Message {
                    content: Content::Acknowledgement,
                    ..
                },
            ) => Tally {
                acknowledgements: self.acknowledgements.saturating_add(1),
                ..self
            },
            Ok(_) => Tally {
                records: self.records.saturating_add(1),
                ..self
            },
            Err(_) => Tally {
                unreadable: self.unreadable.saturating_add(1),
                ..self
            },
        }
    }
}

impl fmt::Display for Tally {
    ghost output = { λ t. Some (tally_text t) };

    fn fmt<W: fmt::Write>(&self, f: &mut fmt::Formatter<W>) -> fmt::Result {
        let records = self.records;
        let acknowledgements = self.acknowledgements;
        let unreadable = self.unreadable;
        write!(
            f,
            "{records} records, {acknowledgements} acknowledgements, {unreadable} unreadable"
        )
    }
}
