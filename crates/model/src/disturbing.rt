// Faults on a link over channels that have shapes.
ghost use Rattle.std.specs.Prelude.{◌≡◌};
ghost use Rattle.model.specs.Models.{model_of};
ghost use Rattle.model.specs.Disturbances.{disturbed, disturbed_all};

use link::{Fault, Link};
use records::RecordKind;
use shapes::Shaped;

// One fault call, whatever it answers.
pub fn inflict<F: Shaped, B: Shaped, R: RecordKind>(
    link: &mut Link<F, B, R>,
    fault: Fault<R::Record>,
)
    ensures { model_of F.Shaped.shape B.Shaped.shape link.new ≡ disturbed (model_of F.Shaped.shape B.Shaped.shape link.old) fault }
{
    let _ = link.inflict(fault);
}

// These faults, one after another.
pub fn disturb<F: Shaped, B: Shaped, R: RecordKind>(
    link: &mut Link<F, B, R>,
    faults: &[Fault<R::Record>],
)
    ensures { model_of F.Shaped.shape B.Shaped.shape link.new ≡ disturbed_all (model_of F.Shaped.shape B.Shaped.shape link.old) faults.now }
{
    for fault in faults {
        inflict(link, *fault);
    }
}
