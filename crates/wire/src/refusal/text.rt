ghost use Rattle.std.specs.Prelude.{◌≡◌, ◌≤◌, Some};
ghost use Rattle.wire.specs.Refusals.{number_of, name_of, answer_of};

use super::Refusal;
use std::fmt;

impl Refusal {
    // The table's number.
    pub fn number(self) -> u8
        ensures { result ≡ number_of self }
    {
        self as u8
    }

    // The table's word for it.
    pub fn name(self) -> &'static str
        ensures { result.now ≡ name_of self }
    {
        match self {
            Refusal::Size => "size",
            Refusal::Span => "span",
            Refusal::Labels => "labels",
            Refusal::Busy => "busy",
            Refusal::Idle => "idle",
            Refusal::Full => "full",
            Refusal::Silent => "silent",
            Refusal::Spoilt => "spoilt",
            Refusal::Repeat => "repeat",
            Refusal::Stale => "stale",
            Refusal::Code => "code",
            Refusal::Script => "script",
            Refusal::Place => "place",
            Refusal::Page => "page",
        }
    }
}

// An answer by the table's number: 0 where it is no refusal.
pub fn answer_number<T>(answer: &Result<T, Refusal>) -> u8
    ensures value { result ≡ answer_of answer.now }
    ensures within { result ≤ 14 }
{
    match answer {
        Ok(_) => 0,
        Err(refusal) => refusal.number(),
    }
}

impl fmt::Display for Refusal {
    ghost output = { λ r. Some (name_of r) };

    fn fmt<W: fmt::Write>(&self, f: &mut fmt::Formatter<W>) -> fmt::Result {
        f.write_str(self.name())
    }
}
