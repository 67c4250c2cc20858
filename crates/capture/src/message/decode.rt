ghost use Rattle.std.specs.Prelude.{◌≡◌, length};
ghost use Rattle.capture.specs.Decoding.{bits_of, record_in, content_of, decoded, RecordsDecode};

use super::{Content, Fault, Message};
use commands::Commands;
use readings::Readings;
use records::RecordKind;
use text::hex::parse_hex;
use wire::Word;

// What a line carries. The sixteen digits of a packed record decode to that record and its label.
pub fn decode(line: &[u8]) -> Result<Message, Fault>
    ensures value { result ≡ decoded line.now }
    ensures records { RecordsDecode }
{
    message_in(line)
}

fn message_in(line: &[u8]) -> Result<Message, Fault>
    ensures { result ≡ decoded line.now }
{
    let bits = bits_of(line).ok_or(Fault::NoWord)?;
    let word = Word::read(bits).ok_or(Fault::NotWhole)?;
    Ok(Message {
        label: word.label,
        content: content_of(word)?,
    })
}

// The 64 bits that a line of sixteen digits writes.
fn bits_of(line: &[u8]) -> Option<u64>
    ensures { result ≡ bits_of line.now }
{
    if line.len() != 16 {
        return None;
    }
    parse_hex(line)
}

fn content_of(word: Word) -> Result<Content, Fault>
    ensures { result ≡ content_of word }
{
    if word.is_acknowledgement() {
        return Ok(Content::Acknowledgement);
    }
    match word.kind {
        Commands::NUMBER => record_in(&Commands, word).map(Content::Command),
        Readings::NUMBER => record_in(&Readings, word).map(Content::Reading),
        kind => Err(Fault::UnknownKind(kind)),
    }
}

// The record in a word of this kind.
fn record_in<R: RecordKind>(kind: &R, word: Word) -> Result<R::Record, Fault>
    ensures { result ≡ record_in R.RecordKind.NUMBER (R.RecordKind.reads kind.now word.payload) }
{
    kind.unpack(word.payload)
        .map_err(|_| Fault::NoRecord(R::NUMBER))
}
