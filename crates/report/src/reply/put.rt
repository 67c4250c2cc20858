// The text of an answer, on a page.
ghost use Rattle.std.specs.Prelude.{◌≡◌, ◌+◌, ◌≤◌};
ghost use Rattle.report.specs.Pages.{HasRoom, Put};
ghost use Rattle.report.specs.Replies.{number_text, record_text, reply_text, reply_room, sound_text};

use super::Reply;
use crate::page::Page;
use ends::Observer;
use wire::{Refusal, answer_number};

impl Page<'_> {
    // A line of the report.
    pub(crate) fn put_reply(&mut self, reply: Reply)
        requires { HasRoom self.old (reply_room reply) }
        ensures text { Put self.old (reply_text reply) self.new }
        ensures short { self.new.length ≤ self.old.length + reply_room reply }
    {
        match reply {
            Reply::One(letter, answer) => {
                self.put_byte(letter);
                self.put_number(answer);
            }
            Reply::Hear {
                heard,
                reply,
                payload,
            } => {
                self.put_byte(b'h');
                self.put_number(heard);
                self.put_number(reply);
                self.put_record(heard, payload);
            }
            Reply::Round {
                sent,
                heard,
                reply,
                settled,
                payload,
            } => {
                self.put_byte(b'r');
                self.put_number(sent);
                self.put_number(heard);
                self.put_number(reply);
                self.put_number(settled);
                self.put_record(heard, payload);
            }
        }
        self.put_byte(b'\n');
    }

    // The number of an answer behind a space. Nearly every line has one, so that its bytes go to the page together: by a call of
    // `put_byte` for each, or by `put_decimal`, a report of short lines takes a quarter longer.
    fn put_number(&mut self, answer: Result<(), Refusal>)
        requires { HasRoom self.old 3 }
        ensures text { Put self.old (number_text answer) self.new }
        ensures short { self.new.length ≤ self.old.length + 3 }
    {
        let number = answer_number(&answer);
        if number < 10 {
            self.put_text(&[b' ', b'0' + number]);
        } else {
            self.put_text(&[b' ', b'0' + number / 10, b'0' + number % 10]);
        }
    }

    // After a delivery, the nine digits of the record behind a space.
    fn put_record(&mut self, heard: Result<(), Refusal>, payload: u64)
        requires { HasRoom self.old 10 }
        ensures text { Put self.old (record_text heard payload) self.new }
        ensures short { self.new.length ≤ self.old.length + 10 }
    {
        if heard.is_ok() {
            self.put_byte(b' ');
            self.put_hex::<9>(payload);
        }
    }

    // The last line of the report.
    #[tactic(auto, using(crate::proofs::Writing::five_long))]
    pub(crate) fn put_sound(&mut self, observer: Observer)
        requires { HasRoom self.old 21 }
        ensures text { Put self.old (sound_text observer) self.new }
        ensures short { self.new.length ≤ self.old.length + 21 }
    {
        self.put_text(b"sound ");
        self.put_decimal(observer.first);
        self.put_text(b" of ");
        self.put_decimal(observer.completed);
        self.put_byte(b'\n');
    }
}
