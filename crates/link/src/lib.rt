// The link: two ends, two channels, and the calls that carry records from one to the other.
#![tactic(auto)]

pub mod calls;
pub mod state;

pub use calls::{Call, Fault};
pub use codec::Config;
pub use ends::{Observer, Receiver, Sender, State};
pub use state::Link;
pub use state::making::check;
