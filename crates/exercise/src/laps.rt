ghost use Rattle.std.specs.Prelude.{◌≡◌};
ghost use Rattle.codec.specs.Words.{words_of};
ghost use Rattle.model.specs.Models.{model_of};
ghost use Rattle.exercise.specs.Laps.{lap, laps as laps_of, exercised};

use ends::Observer;
use link::{Link, check};
use model::{Call, make, perform};
use records::RecordKind;
use shapes::Shaped;
use wire::Refusal;

// Makes a link, and offers it the record and performs a round, so many times. Answers the observer afterwards, or what the check
// of the link refuses. The link is of the five that `Link::new` takes.
pub fn exercise<F: Shaped + Drop, B: Shaped + Drop, R: RecordKind + Drop>(
    kind: R,
    record: R::Record,
    labels: u16,
    forward: F,
    back: B,
    rounds: u32,
) -> Result<Observer, Refusal>
    ensures { result ≡ exercised (words_of R.RecordKind) kind labels (F.Shaped.shape forward) (B.Shaped.shape back) «record» rounds }
{
    check(&forward, &back, labels)?;
    let mut link = make(kind, labels, forward, back, record);
    repeat(&mut link, record, rounds);
    Ok(link.observer())
}

// An offer and a round, so many times.
fn repeat<F: Shaped, B: Shaped, R: RecordKind>(
    link: &mut Link<F, B, R>,
    record: R::Record,
    rounds: u32,
)
    ensures { model_of F.Shaped.shape B.Shaped.shape link.new ≡ laps_of (words_of R.RecordKind) rounds (model_of F.Shaped.shape B.Shaped.shape link.old) «record» }
{
    for _turn in 0..rounds {
        exchange(link, record);
    }
}

// An offer and a round.
fn exchange<F: Shaped, B: Shaped, R: RecordKind>(link: &mut Link<F, B, R>, record: R::Record)
    ensures { model_of F.Shaped.shape B.Shaped.shape link.new ≡ lap (words_of R.RecordKind) (model_of F.Shaped.shape B.Shaped.shape link.old) «record» }
{
    perform(link, Call::Offer(record));
    perform(link, Call::Round);
}
