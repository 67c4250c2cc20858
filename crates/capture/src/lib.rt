// A capture of the wire: lines of sixteen hexadecimal digits, and what their words carry.
#![tactic(auto)]

pub mod listing;
pub mod message;
pub mod tally;

pub use listing::report;
pub use message::decode::decode;
pub use message::{Content, Fault, Message};
pub use tally::Tally;
