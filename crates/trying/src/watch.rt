// What is promised of a link after its handover, watched call by call.
ghost use Rattle.std.specs.Prelude.{◌≡◌, ◌<◌, ◌≤◌, true, is_ok, is_some, Some};
ghost use Rattle.trying.specs.Watching.{watching};
ghost use Rattle.trying.specs.declared.watch.Completion.TheVariants.{Unclean};

use link::Observer;
use std::fmt;

// How an exchange was completed: whether the link was clean right then, where that could be asked. In words, since an option of an
// option of a flag says none of the three.
#[derive(Clone, Copy)]
pub enum Completion {
    Clean,
    Unclean,
    Unasked,
}

// What a call did: a record accepted or delivered, by its payload; an exchange completed; and whether the call was a round.
#[derive(Clone, Copy)]
pub struct Seen {
    pub accepted: Option<u64>,
    pub delivered: Option<u64>,
    pub completed: Option<Completion>,
    pub round: bool,
}

pub const NOTHING: Seen = Seen {
    accepted: None,
    delivered: None,
    completed: None,
    round: false,
};

// A promise that did not come true.
#[derive(Clone, Copy)]
pub enum Broken {
    FirstClean,
    CleanAgain,
    Order,
    Rounds,
    Check,
}

impl fmt::Display for Broken {
    fn fmt<W: fmt::Write>(&self, f: &mut fmt::Formatter<W>) -> fmt::Result {
        let text = match *self {
            Broken::FirstClean => "no clean exchange in time",
            Broken::CleanAgain => "an unclean exchange after a clean one",
            Broken::Order => "records delivered are not the records accepted",
            Broken::Rounds => "an exchange took too many rounds",
            Broken::Check => "the link's check refuses it",
        };
        f.write_str(text)
    }
}

// An exchange under way: the rounds performed, and those that complete it for sure.
#[derive(Clone, Copy)]
pub struct Exchange {
    rounds: u64,
    promised: u64,
}

// Of one link since its handover.
#[derive(Clone, Copy)]
pub struct Watch {
    // by this exchange the link was clean once
    latest: u64,
    exchange: Option<Exchange>,
    // since the first clean exchange: how many records were accepted and delivered, and the payload accepted last
    accepted: u64,
    delivered: u64,
    last: u64,
    // the longest exchange so far, in rounds
    longest: u64,
}

impl Watch {
    // At the handover; an exchange may be under way there.
    pub fn new(latest: u64, is_under_way: bool, promised: u64) -> Watch
        ensures { result ≡ watching latest is_under_way promised }
    {
        let exchange = Exchange {
            rounds: 0,
            promised,
        };
        Watch {
            latest,
            exchange: is_under_way.then_some(exchange),
            accepted: 0,
            delivered: 0,
            last: 0,
            longest: 0,
        }
    }

    pub fn longest(&self) -> u64
        ensures { result ≡ self.now.longest }
    {
        self.longest
    }

    // One call further: what it did, and the observer before and after it. A new exchange is promised so many rounds.
    pub fn note(
        &mut self,
        seen: Seen,
        before: Observer,
        after: Observer,
        promised: u64,
    ) -> Result<(), Broken> {
        if before.first != 0 {
            self.note_order(seen)?;
        }
        if seen.completed.is_some() {
            self.note_completion(seen, before, after)?;
        }
        self.note_time(seen, promised)
    }

    // From the first clean exchange on the records delivered are those accepted; only the last may be missing, while it is under way.
    fn note_order(&mut self, seen: Seen) -> Result<(), Broken>
        ensures time { (self.new.latest ≡ self.old.latest) × (self.new.longest ≡ self.old.longest) }
        ensures order { is_ok result ≡ true → is_some seen.completed ≡ true → self.new.delivered ≡ self.new.accepted }
    {
        if let Some(payload) = seen.accepted {
            self.accepted = self.accepted.saturating_add(1);
            self.last = payload;
        }
        if let Some(payload) = seen.delivered {
            self.delivered = self.delivered.saturating_add(1);
            if payload != self.last || self.delivered != self.accepted {
                return Err(Broken::Order);
            }
        }
        if seen.completed.is_some() && self.delivered != self.accepted {
            return Err(Broken::Order);
        }
        Ok(())
    }

    // One of the first exchanges leaves the link clean, and so does each one after it.
    fn note_completion(&self, seen: Seen, before: Observer, after: Observer) -> Result<(), Broken>
        ensures first { is_ok result ≡ true → self.now.latest ≤ after.completed → (0 < after.first) × (after.first ≤ self.now.latest) }
        ensures again { is_ok result ≡ true → seen.completed ≡ Some Unclean → before.first ≡ 0 }
    {
        let first = after.first as u64;
        if after.completed as u64 >= self.latest && (first == 0 || first > self.latest) {
            return Err(Broken::FirstClean);
        }
        match seen.completed {
            Some(Completion::Unclean) if before.first != 0 => Err(Broken::CleanAgain),
            _ => Ok(()),
        }
    }

    // An exchange under way is completed within its rounds.
    fn note_time(&mut self, seen: Seen, promised: u64) -> Result<(), Broken> {
        if let Some(exchange) = &mut self.exchange {
            exchange.rounds = exchange.rounds.saturating_add(seen.round as u64);
            self.longest = self.longest.max(exchange.rounds);
            if seen.completed.is_some() {
                self.exchange = None;
            } else if exchange.rounds >= exchange.promised {
                return Err(Broken::Rounds);
            }
        }
        if seen.accepted.is_some() {
            self.exchange = Some(Exchange {
                rounds: 0,
                promised,
            });
        }
        Ok(())
    }
}
