// The six calls on a link over channels that have shapes: each answers and leaves what is computed of the shapes, and is a run.
ghost use Rattle.std.specs.Prelude.{◌≡◌};
ghost use Rattle.recovery.specs.Runs.{Run};
ghost use Rattle.codec.specs.Words.{words_of};
ghost use Rattle.channel.specs.Behaviours.{behaviour_of};
ghost use Rattle.link.specs.States.{state_of};
ghost use Rattle.link.specs.declared.calls.Call.TheVariants.{Offer, Send, Hear, Settle, Tick, Round};
ghost use Rattle.model.specs.Models.{model_of};
ghost use Rattle.model.specs.Calls.{offer_of, send_of, hear_of, settle_of, tick_of, round_of};
ghost use Rattle.model.specs.Sequences.{events};

use link::Link;
use records::RecordKind;
use shapes::Shaped;
use wire::Refusal;

// Offers a record.
pub fn offer<F: Shaped, B: Shaped, R: RecordKind>(
    link: &mut Link<F, B, R>,
    r: R::Record,
) -> Result<(), Refusal>
    ensures answer { result ≡ (offer_of (words_of R.RecordKind) (model_of F.Shaped.shape B.Shaped.shape link.old) r).answer }
    ensures after { model_of F.Shaped.shape B.Shaped.shape link.new ≡ (offer_of (words_of R.RecordKind) (model_of F.Shaped.shape B.Shaped.shape link.old) r).after }
    ensures run { Run (words_of R.RecordKind) (behaviour_of F.Channel) (behaviour_of B.Channel) (state_of link.old) (events (words_of R.RecordKind) (model_of F.Shaped.shape B.Shaped.shape link.old) (Offer r)) (state_of link.new) }
{
    link.offer(r)
}

// Sends the record in hand.
pub fn send<F: Shaped, B: Shaped, R: RecordKind>(link: &mut Link<F, B, R>) -> Result<(), Refusal>
    ensures answer { result ≡ (send_of (words_of R.RecordKind) (model_of F.Shaped.shape B.Shaped.shape link.old)).answer }
    ensures after { model_of F.Shaped.shape B.Shaped.shape link.new ≡ (send_of (words_of R.RecordKind) (model_of F.Shaped.shape B.Shaped.shape link.old)).after }
    ensures run { Run (words_of R.RecordKind) (behaviour_of F.Channel) (behaviour_of B.Channel) (state_of link.old) (events (words_of R.RecordKind) (model_of F.Shaped.shape B.Shaped.shape link.old) Send) (state_of link.new) }
{
    link.send()
}

// Hears a word. Answers what was heard, and what the reply's put answered.
pub fn hear<F: Shaped, B: Shaped, R: RecordKind>(
    link: &mut Link<F, B, R>,
) -> (Result<(), Refusal>, Result<(), Refusal>)
    ensures heard { result.0 ≡ (hear_of (words_of R.RecordKind) (model_of F.Shaped.shape B.Shaped.shape link.old)).heard }
    ensures reply { result.1 ≡ (hear_of (words_of R.RecordKind) (model_of F.Shaped.shape B.Shaped.shape link.old)).reply }
    ensures after { model_of F.Shaped.shape B.Shaped.shape link.new ≡ (hear_of (words_of R.RecordKind) (model_of F.Shaped.shape B.Shaped.shape link.old)).after }
    ensures run { Run (words_of R.RecordKind) (behaviour_of F.Channel) (behaviour_of B.Channel) (state_of link.old) (events (words_of R.RecordKind) (model_of F.Shaped.shape B.Shaped.shape link.old) Hear) (state_of link.new) }
{
    link.hear()
}

// Settles an acknowledgement.
pub fn settle<F: Shaped, B: Shaped, R: RecordKind>(link: &mut Link<F, B, R>) -> Result<(), Refusal>
    ensures answer { result ≡ (settle_of (words_of R.RecordKind) (model_of F.Shaped.shape B.Shaped.shape link.old)).answer }
    ensures after { model_of F.Shaped.shape B.Shaped.shape link.new ≡ (settle_of (words_of R.RecordKind) (model_of F.Shaped.shape B.Shaped.shape link.old)).after }
    ensures run { Run (words_of R.RecordKind) (behaviour_of F.Channel) (behaviour_of B.Channel) (state_of link.old) (events (words_of R.RecordKind) (model_of F.Shaped.shape B.Shaped.shape link.old) Settle) (state_of link.new) }
{
    link.settle()
}

// Ticks both channels.
pub fn tick<F: Shaped, B: Shaped, R: RecordKind>(link: &mut Link<F, B, R>) -> Result<(), Refusal>
    ensures answer { result ≡ (tick_of (words_of R.RecordKind) (model_of F.Shaped.shape B.Shaped.shape link.old)).answer }
    ensures after { model_of F.Shaped.shape B.Shaped.shape link.new ≡ (tick_of (words_of R.RecordKind) (model_of F.Shaped.shape B.Shaped.shape link.old)).after }
    ensures run { Run (words_of R.RecordKind) (behaviour_of F.Channel) (behaviour_of B.Channel) (state_of link.old) (events (words_of R.RecordKind) (model_of F.Shaped.shape B.Shaped.shape link.old) Tick) (state_of link.new) }
{
    link.tick()
}

// Send, hear, settle and tick. Answers send's, hear's two and settle's answer.
pub fn round<F: Shaped, B: Shaped, R: RecordKind>(
    link: &mut Link<F, B, R>,
) -> (
    Result<(), Refusal>,
    (Result<(), Refusal>, Result<(), Refusal>),
    Result<(), Refusal>,
)
    ensures sent { result.0 ≡ (round_of (words_of R.RecordKind) (model_of F.Shaped.shape B.Shaped.shape link.old)).sent }
    ensures heard { result.1.0 ≡ (round_of (words_of R.RecordKind) (model_of F.Shaped.shape B.Shaped.shape link.old)).heard }
    ensures reply { result.1.1 ≡ (round_of (words_of R.RecordKind) (model_of F.Shaped.shape B.Shaped.shape link.old)).reply }
    ensures settled { result.2 ≡ (round_of (words_of R.RecordKind) (model_of F.Shaped.shape B.Shaped.shape link.old)).settled }
    ensures after { model_of F.Shaped.shape B.Shaped.shape link.new ≡ (round_of (words_of R.RecordKind) (model_of F.Shaped.shape B.Shaped.shape link.old)).after }
    ensures run { Run (words_of R.RecordKind) (behaviour_of F.Channel) (behaviour_of B.Channel) (state_of link.old) (events (words_of R.RecordKind) (model_of F.Shaped.shape B.Shaped.shape link.old) Round) (state_of link.new) }
{
    link.round()
}
