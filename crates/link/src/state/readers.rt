// What can be read of a link.
ghost use Rattle.std.specs.Prelude.{◌≡◌};

use super::Link;
use ends::{Observer, Receiver, Sender};
use records::RecordKind;

impl<F, B, R: RecordKind> Link<F, B, R> {
    // The payload of the record that the receiver holds.
    pub fn held(&self) -> u64
        ensures { result ≡ R.RecordKind.payload self.now.config.kind self.now.receiver.delivered }
    {
        self.kind().pack(&self.receiver.delivered)
    }

    pub fn kind(&self) -> &R
        ensures { result.now ≡ self.now.config.kind }
    {
        self.config.kind()
    }

    // How many labels there are.
    pub fn labels(&self) -> u16
        ensures { result ≡ self.now.config.labels }
    {
        self.config.labels()
    }

    // The sender's label byte as stored, its state, and its record in hand.
    pub fn sender(&self) -> &Sender<R::Record>
        ensures { result.now ≡ self.now.sender }
    {
        &self.sender
    }

    // The receiver's label byte as stored, and the record delivered last.
    pub fn receiver(&self) -> &Receiver<R::Record>
        ensures { result.now ≡ self.now.receiver }
    {
        &self.receiver
    }

    pub fn forward(&self) -> &F
        ensures { result.now ≡ self.now.forward }
    {
        &self.forward
    }

    pub fn back(&self) -> &B
        ensures { result.now ≡ self.now.back }
    {
        &self.back
    }

    // How many exchanges were completed, and which of them first left the link clean.
    pub fn observer(&self) -> Observer
        ensures { result ≡ self.now.observer }
    {
        self.observer
    }
}
