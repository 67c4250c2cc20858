// The report of a script: a line for each line, written to a page.
#![tactic(auto)]

mod page;
pub mod reply;
pub mod reporting;
mod run;
mod start;
mod turn;

pub use reply::Reply;
pub use reporting::report;
