// Making a link of channels that have shapes, and handing it over.
ghost use Rattle.std.specs.Prelude.{◌≡◌, Ok};
ghost use Rattle.recovery.specs.Check.{checked_link};
ghost use Rattle.recovery.specs.Findings.{Recovers};
ghost use Rattle.codec.specs.Words.{words_of};
ghost use Rattle.channel.specs.Behaviours.{behaviour_of};
ghost use Rattle.link.specs.States.{state_of};
ghost use Rattle.shapes.specs.Moves.{shape_behaviour};
ghost use Rattle.model.specs.Models.{model_of};
ghost use Rattle.model.specs.Makings.{new_of};
ghost use Rattle.model.specs.Faults.{handover_of};

use link::Link;
use records::RecordKind;
use shapes::Shaped;

// A new link, with the same record at both ends, of the five that `Link::new` takes.
pub fn make<F: Shaped, B: Shaped, R: RecordKind>(
    kind: R,
    labels: u16,
    forward: F,
    back: B,
    first: R::Record,
) -> Link<F, B, R>
    ensures { model_of F.Shaped.shape B.Shaped.shape result ≡ new_of kind labels (F.Shaped.shape forward) (B.Shaped.shape back) first }
{
    Link::new(kind, labels, forward, back, first)
}

// The observer counts anew. A link past its check recovers from here.
pub fn hand_over<F: Shaped, B: Shaped, R: RecordKind>(link: &mut Link<F, B, R>)
    ensures after { model_of F.Shaped.shape B.Shaped.shape link.new ≡ handover_of (model_of F.Shaped.shape B.Shaped.shape link.old) }
    ensures recovers { checked_link (words_of R.RecordKind) shape_behaviour shape_behaviour 256 (model_of F.Shaped.shape B.Shaped.shape link.new) ≡ Ok tt → Recovers (words_of R.RecordKind) (behaviour_of F.Channel) (behaviour_of B.Channel) (state_of link.new) }
{
    link.handover();
}
