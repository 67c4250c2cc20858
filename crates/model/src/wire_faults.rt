// The fault calls on the channels of a link, where these have shapes: each answers and leaves what is computed of the shapes. Each
// channel has calls of its own, as on the link.
ghost use Rattle.std.specs.Prelude.{◌≡◌};
ghost use Rattle.model.specs.Models.{model_of};
ghost use Rattle.model.specs.Faults.{raw_forward_of, raw_back_of, discard_forward_of, discard_back_of};

use link::Link;
use records::RecordKind;
use shapes::Shaped;
use wire::Refusal;

// Puts any word on the forward channel.
pub fn put_forward<F: Shaped, B: Shaped, R: RecordKind>(
    link: &mut Link<F, B, R>,
    word: u64,
) -> Result<(), Refusal>
    ensures answer { result ≡ (raw_forward_of (model_of F.Shaped.shape B.Shaped.shape link.old) word).answer }
    ensures after { model_of F.Shaped.shape B.Shaped.shape link.new ≡ (raw_forward_of (model_of F.Shaped.shape B.Shaped.shape link.old) word).after }
{
    link.put_forward(word)
}

// Puts any word on the back channel.
pub fn put_back<F: Shaped, B: Shaped, R: RecordKind>(
    link: &mut Link<F, B, R>,
    word: u64,
) -> Result<(), Refusal>
    ensures answer { result ≡ (raw_back_of (model_of F.Shaped.shape B.Shaped.shape link.old) word).answer }
    ensures after { model_of F.Shaped.shape B.Shaped.shape link.new ≡ (raw_back_of (model_of F.Shaped.shape B.Shaped.shape link.old) word).after }
{
    link.put_back(word)
}

// Takes the forward channel's oldest word and lets it go.
pub fn discard_forward<F: Shaped, B: Shaped, R: RecordKind>(
    link: &mut Link<F, B, R>,
) -> Result<(), Refusal>
    ensures answer { result ≡ (discard_forward_of (model_of F.Shaped.shape B.Shaped.shape link.old)).answer }
    ensures after { model_of F.Shaped.shape B.Shaped.shape link.new ≡ (discard_forward_of (model_of F.Shaped.shape B.Shaped.shape link.old)).after }
{
    link.discard_forward()
}

// Takes the back channel's oldest word and lets it go.
pub fn discard_back<F: Shaped, B: Shaped, R: RecordKind>(
    link: &mut Link<F, B, R>,
) -> Result<(), Refusal>
    ensures answer { result ≡ (discard_back_of (model_of F.Shaped.shape B.Shaped.shape link.old)).answer }
    ensures after { model_of F.Shaped.shape B.Shaped.shape link.new ≡ (discard_back_of (model_of F.Shaped.shape B.Shaped.shape link.old)).after }
{
    link.discard_back()
}
