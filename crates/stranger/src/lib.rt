// A channel that is none of ours: it is written with nothing but the public interface of `channel`, to show that
// whoever brings a channel of his own can show the rules of it.
#![tactic(auto)]

pub mod hole;

pub use hole::Pigeonhole;
