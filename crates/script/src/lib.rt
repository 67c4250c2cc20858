// Scripts for the bench: what their lines ask for.
#![tactic(auto)]

pub mod line;
pub mod order;
pub mod start;

pub use line::parse_line;
pub use order::Order;
pub use start::parse::{kind_of, parse_start};
pub use start::{Kind, Setup, Start};
