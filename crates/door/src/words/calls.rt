// Words of 64 bits with their check.
ghost use Rattle.std.specs.Prelude.{◌≡◌};
ghost use Rattle.wire.specs.Refusals.{answer_of};
ghost use Rattle.door.specs.Outputs.{after};
ghost use Rattle.door.specs.WordCalls.{packed_word, read_word};

use super::WordParts;
use crate::status::give;
use wire::{Refusal, Word};

// The 64 bits that carry these parts. Refused `code` where the kind or the payload does not fit its field.
#[unsafe(no_mangle)]
pub extern "C" fn gelmuska_word_pack(parts: &WordParts, word: &mut u64) -> u32
    ensures status { result ≡ answer_of (packed_word parts.now) }
    ensures word { word.new ≡ after (packed_word parts.now) word.old }
{
    give(Word::try_from(parts).map(Word::pack), word)
}

// What 64 bits carry. Refused `spoilt` where they are not whole.
#[unsafe(no_mangle)]
pub extern "C" fn gelmuska_word_read(word: u64, parts: &mut WordParts) -> u32
    ensures status { result ≡ answer_of (read_word word) }
    ensures parts { parts.new ≡ after (read_word word) parts.old }
{
    let found = Word::read(word).ok_or(Refusal::Spoilt);
    give(found.map(WordParts::from), parts)
}
