// Channels of fixed memory: a ring, and a delay line.
#![tactic(auto)]

pub mod line;
mod queue;
pub mod ring;

pub use line::DelayLine;
pub use ring::Ring;
