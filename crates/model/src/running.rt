// Calls on a link over channels that have shapes.
ghost use Rattle.std.specs.Prelude.{◌≡◌};
ghost use Rattle.codec.specs.Words.{words_of};
ghost use Rattle.channel.specs.Behaviours.{behaviour_of};
ghost use Rattle.link.specs.States.{state_of};
ghost use Rattle.recovery.specs.Runs.{Run};
ghost use Rattle.model.specs.Models.{model_of};
ghost use Rattle.model.specs.Sequences.{after, after_all, events, events_all};

use crate::computed::{hear, offer, round, send, settle, tick};
use link::{Call, Link};
use records::RecordKind;
use shapes::Shaped;

// One call, whatever it answers: what it leaves, and the run that it is.
pub fn perform<F: Shaped, B: Shaped, R: RecordKind>(link: &mut Link<F, B, R>, call: Call<R::Record>)
    ensures after { model_of F.Shaped.shape B.Shaped.shape link.new ≡ after (words_of R.RecordKind) (model_of F.Shaped.shape B.Shaped.shape link.old) call }
    ensures run { Run (words_of R.RecordKind) (behaviour_of F.Channel) (behaviour_of B.Channel) (state_of link.old) (events (words_of R.RecordKind) (model_of F.Shaped.shape B.Shaped.shape link.old) call) (state_of link.new) }
{
    match call {
        Call::Offer(r) => {
            let _ = offer(link, r);
        }
        Call::Send => {
            let _ = send(link);
        }
        Call::Hear => {
            let _ = hear(link);
        }
        Call::Settle => {
            let _ = settle(link);
        }
        Call::Tick => {
            let _ = tick(link);
        }
        Call::Round => {
            let _ = round(link);
        }
    }
}

// These calls, one after another: what they leave, and the run that they are.
pub fn run<F: Shaped, B: Shaped, R: RecordKind>(link: &mut Link<F, B, R>, calls: &[Call<R::Record>])
    ensures after { model_of F.Shaped.shape B.Shaped.shape link.new ≡ after_all (words_of R.RecordKind) (model_of F.Shaped.shape B.Shaped.shape link.old) calls.now }
    ensures run { Run (words_of R.RecordKind) (behaviour_of F.Channel) (behaviour_of B.Channel) (state_of link.old) (events_all (words_of R.RecordKind) (model_of F.Shaped.shape B.Shaped.shape link.old) calls.now) (state_of link.new) }
{
    for call in calls {
        perform(link, *call);
    }
}
