// The words of a link: how its labels and records are written, and what any word reads as at either end.
#![tactic(auto)]

pub mod config;
mod reading;

pub use config::Config;
pub use config::labels::MOST_LABELS;
pub use config::words::ack_word;
