// The lab: lines that ask a link for what no script of the bench reaches, and the answer of each.
#![tactic(auto)]

mod calls;
pub mod line;
mod reply;
pub mod serving;

pub use serving::answers;
