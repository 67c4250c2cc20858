// A layer that joins any two channels in a row.
#![tactic(auto)]

pub mod relay;

pub use relay::Relay;
