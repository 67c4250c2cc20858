// The wire: the words that carry records and acknowledgements, and why a call is refused.
#![tactic(auto)]

pub mod bits;
pub mod refusal;
pub mod word;

pub use refusal::Refusal;
pub use refusal::text::answer_number;
pub use word::Word;
pub use word::codec::is_whole;
