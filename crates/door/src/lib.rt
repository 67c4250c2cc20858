// The door for programs in C and Rust: functions over numbers and bytes. Each answers 0 or the number of a refusal. What it
// finds goes out through its last parameters; a refused call leaves them as they were. Kinds, codes, sides and set-ups are numbers, and
// the two sorts of record have calls of their own, as C needs it.
#![tactic(auto)]

pub mod command;
pub mod reading;
pub mod reports;
pub mod rounds;
mod status;
pub mod words;
