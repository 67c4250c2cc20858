// The words of a link, and what a word reads as at either end.
ghost use Rattle.std.specs.Prelude.{◌≡◌, ◌<◌};
ghost use Rattle.wire.specs.Words.{word_of, acknowledgement, packed};
ghost use Rattle.codec.specs.Words.{read_word, read_ack, send_word};

use super::Config;
use records::RecordKind;
use wire::Word;

impl<R> Config<R> {
    // The label that a word acknowledges, or nothing where it is spoilt.
    pub fn read_ack(&self, bits: u64) -> Option<u8>
        ensures { result ≡ read_ack self.now.labels bits }
    {
        let word = Word::read(bits)?;
        if word.label as u16 >= self.labels || !word.is_acknowledgement() {
            return None;
        }
        Some(word.label)
    }
}

impl<R: RecordKind> Config<R> {
    // The word of a record under a label.
    pub fn send_word(&self, label: u8, r: &R::Record) -> u64
        ensures { result ≡ send_word R.RecordKind.NUMBER (R.RecordKind.payload self.now.kind) label r.now }
    {
        Word {
            label,
            kind: R::NUMBER,
            payload: self.kind.pack(r),
        }
        .pack()
    }

    // The label and the record that a word carries, or nothing where it is spoilt.
    pub fn read_word(&self, bits: u64) -> Option<(u8, R::Record)>
        ensures { result ≡ read_word self.now.labels R.RecordKind.NUMBER (R.RecordKind.reads self.now.kind) bits }
    {
        let word = Word::read(bits)?;
        if word.label as u16 >= self.labels || word.kind != R::NUMBER {
            return None;
        }
        let r = self.kind.unpack(word.payload).ok()?;
        Some((word.label, r))
    }
}

// The word that acknowledges a label.
pub fn ack_word(label: u8) -> u64
    ensures { result ≡ packed (acknowledgement label) }
{
    Word::acknowledge(label).pack()
}
