// Trials: links that start in any state, any calls on them, and whether what is promised comes true.
#![tactic(auto)]

pub mod dice;
pub mod start;
pub mod table;
pub mod trial;
pub mod watch;

pub use codec::MOST_LABELS;
pub use dice::Dice;
pub use table::Row;
pub use watch::Broken;
