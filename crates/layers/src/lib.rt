// The layers over any channels, under one name: words lost by a pattern, and two channels in a row.
#![tactic(auto)]

pub use lossy::{Loss, loss};
pub use relays::{Relay, relay};
