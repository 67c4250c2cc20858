// Bench cases that another program made: scripts with what it says of them, and whether our report says the same.
#![tactic(auto)]

pub mod agreement;
pub mod case;
pub mod header;

pub use agreement::agrees;
pub use case::split::{Cases, split_case};
pub use case::{Case, Expected};
