// The fields of a line, which single spaces divide: decimal numbers, numbers of hexadecimal digits, and words.
#![tactic(auto)]

pub mod cursor;
pub mod decimal;

pub use cursor::Fields;
pub use decimal::parse_decimal;
