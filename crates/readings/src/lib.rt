// Readings: what a bench measures.
#![tactic(auto)]

pub mod reading;

pub use reading::kind::Readings;
pub use reading::{Reading, Side};
