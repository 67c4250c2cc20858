// The link over channels that have shapes: what calls and faults do to it is computed, to the last word.
#![tactic(auto)]

pub mod computed;
pub mod disturbing;
pub mod making;
pub mod running;
pub mod wire_faults;

pub use disturbing::{disturb, inflict};
pub use link::{Call, Fault};
pub use making::{hand_over, make};
pub use running::{perform, run};
