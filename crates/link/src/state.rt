pub mod calls;
pub mod cleanness;
pub mod faults;
pub mod making;
mod parts;
pub mod readers;

use codec::Config;
use ends::{Observer, Receiver, Sender};
use records::RecordKind;

// A sender, a receiver, a channel each way between them, and an observer that counts completed exchanges. In contracts it is the record
// of these, which clients name, and `state_of` it is the state that steps and runs are over.
#[derive(Drop)]
pub struct Link<F, B, R: RecordKind> {
    config: Config<R>,
    sender: Sender<R::Record>,
    receiver: Receiver<R::Record>,
    forward: F,
    back: B,
    observer: Observer,
}
