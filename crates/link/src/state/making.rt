// Checking, making and handing over a link.
ghost use Rattle.std.specs.Prelude.{◌≡◌, Ok};
ghost use Rattle.recovery.specs.Check.{in_span, checked, checked_link};
ghost use Rattle.recovery.specs.Findings.{Recovers};
ghost use Rattle.codec.specs.Words.{words_of};
ghost use Rattle.link.specs.Makings.{Made, observed_anew};
ghost use Rattle.channel.specs.Behaviours.{behaviour_of};
ghost use Rattle.link.specs.States.{state_of};

use super::Link;
use channel::Channel;
use codec::{Config, MOST_LABELS};
use ends::{Observer, Receiver, Sender};
use records::RecordKind;
use wire::Refusal;

// Whether a link can be made of two channels and a label count: refused `span` if a delay or a number of losses left
// is above 100, then `labels` if there are fewer labels than places on both channels and two more, or too many.
pub fn check<F: Channel, B: Channel>(forward: &F, back: &B, labels: u16) -> Result<(), Refusal>
    ensures { result ≡ checked 256 labels ((behaviour_of F.Channel).means forward.now) ((behaviour_of B.Channel).means back.now) }
{
    if !in_span(forward) || !in_span(back) {
        return Err(Refusal::Span);
    }
    let places = forward.capacity() as u32 + back.capacity() as u32;
    if (labels as u32) < places + 2 || labels > MOST_LABELS {
        return Err(Refusal::Labels);
    }
    Ok(())
}

// Whether a channel's delay and its losses left are at most 100.
fn in_span<C: Channel>(channel: &C) -> bool
    ensures { result ≡ in_span ((behaviour_of C.Channel).means channel.now) }
{
    channel.delay() <= 100 && channel.losses() <= 100
}

impl<F: Channel, B: Channel, R: RecordKind> Link<F, B, R> {
    // A new link: both labels 0, idle, and the same record at both ends. It never refuses. What it is made of comes one by one: a struct
    // of the five would be the link.
    pub fn new(kind: R, labels: u16, forward: F, back: B, first: R::Record) -> Link<F, B, R>
        ensures { Made kind labels forward back first (state_of result) }
    {
        Link {
            config: Config::new(kind, labels),
            sender: Sender::new(first),
            receiver: Receiver::new(first),
            forward,
            back,
            observer: Observer::new(),
        }
    }

    // What `check` answers for the channels and the label count of this link.
    pub fn check(&self) -> Result<(), Refusal>
        ensures { result ≡ checked_link (words_of R.RecordKind) (behaviour_of F.Channel) (behaviour_of B.Channel) 256 (state_of self.now) }
    {
        check(&self.forward, &self.back, self.config.labels())
    }

    // From here on the observer counts anew, and nothing else changes. A link past its check recovers from here.
    pub fn handover(&mut self)
        ensures after { state_of self.new ≡ observed_anew (state_of self.old) }
        ensures recovers { checked_link (words_of R.RecordKind) (behaviour_of F.Channel) (behaviour_of B.Channel) 256 (state_of self.new) ≡ Ok tt → Recovers (words_of R.RecordKind) (behaviour_of F.Channel) (behaviour_of B.Channel) (state_of self.new) }
    {
        self.count_anew();
    }
}
