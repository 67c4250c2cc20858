// Commands: what a console asks of a bench.
#![tactic(auto)]

pub mod command;
pub mod table;

pub use command::kind::Commands;
pub use command::{Action, Command};
