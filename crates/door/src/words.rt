ghost use Rattle.std.specs.Prelude.{◌≡◌};
ghost use Rattle.wire.specs.Words.{packed};
ghost use Rattle.door.specs.Outputs.{found_as};
ghost use Rattle.door.specs.WordCalls.{packed_word, word_parts};

pub mod calls;

use wire::{Refusal, Word};

// The largest kind and the largest payload that a word has room for.
const MOST_KIND: u8 = 15;

const MOST_PAYLOAD: u64 = 0xF_FFFF_FFFF;

// What a word of the wire carries besides its check, in numbers as C has them: a kind of 4 bits and a payload of 36.
#[repr(C)]
#[derive(Clone, Copy)]
pub struct WordParts {
    pub label: u8,
    pub kind: u8,
    pub payload: u64,
}

impl From<Word> for WordParts {
    ghost from_gives = { λ word parts. parts ≡ word_parts word };

    fn from(word: Word) -> WordParts {
        WordParts {
            label: word.label,
            kind: word.kind,
            payload: word.payload,
        }
    }
}

// Refused `code` where the kind or the payload does not fit its field.
impl TryFrom<&WordParts> for Word {
    type Error = Refusal;

    ghost try_from_gives = { λ parts word. found_as packed word ≡ packed_word parts.now };

    fn try_from(parts: &WordParts) -> Result<Word, Refusal> {
        if parts.kind > MOST_KIND {
            return Err(Refusal::Code);
        }
        if parts.payload > MOST_PAYLOAD {
            return Err(Refusal::Code);
        }
        Ok(Word {
            label: parts.label,
            kind: parts.kind,
            payload: parts.payload,
        })
    }
}
