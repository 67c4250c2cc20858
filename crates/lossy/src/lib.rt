// A layer over any channel that loses words by a pattern.
#![tactic(auto)]

pub mod loss;

pub use loss::Loss;
