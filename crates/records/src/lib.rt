// The interface of record kinds: what the payload of a word means.
#![tactic(auto)]

pub mod kind;

pub use kind::RecordKind;
