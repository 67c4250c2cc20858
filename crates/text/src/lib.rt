// Texts that people and programs exchange: digits, lines, and parts that a byte divides.
#![tactic(auto)]

pub mod digits;
pub mod hex;
pub mod lines;
pub mod parts;
