// The two ends of a link, and the observer that counts its exchanges.
#![tactic(auto)]

pub mod observer;
pub mod receiver;
pub mod sender;

pub use observer::Observer;
pub use receiver::Receiver;
pub use sender::moves::decide;
pub use sender::{Sender, State};
