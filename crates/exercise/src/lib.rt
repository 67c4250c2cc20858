// So many exchanges on a new link: a first try of a link, and a measure of its speed.
#![tactic(auto)]

pub mod laps;

pub use laps::exercise;
