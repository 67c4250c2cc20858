ghost use Rattle.std.specs.Prelude.{◌≡◌};
ghost use Rattle.script.specs.Starts.{setup_of, kind_of, label_count, start_from, start_of};

use super::{Kind, Setup, Start};
use commands::Commands;
use readings::Readings;
use records::RecordKind;
use text::hex::parse_hex;
use wire::Refusal;

// The link that a first line asks for; refused `script` where it has another form.
pub fn parse_start(line: &[u8]) -> Result<Start, Refusal>
    ensures { result ≡ start_of line.now }
{
    match line {
        [b'P', b' ', setup, b' ', letter, b' ', high, low] => start_from(
            *setup,
            *letter,
            [*high, *low],
        ),
        _ => Err(Refusal::Script),
    }
}

// By the set-up's digit, the kind's letter, and the two digits of the label count.
fn start_from(setup: u8, letter: u8, digits: [u8; 2]) -> Result<Start, Refusal>
    ensures { result ≡ start_from (setup_of setup) (kind_of letter) (label_count digits) }
{
    let setup = setup_of(setup).ok_or(Refusal::Script)?;
    let kind = kind_of(letter).ok_or(Refusal::Script)?;
    let labels = label_count(digits).ok_or(Refusal::Script)?;
    Ok(Start {
        setup,
        kind,
        labels,
    })
}

fn setup_of(digit: u8) -> Option<Setup>
    ensures { result ≡ setup_of digit }
{
    match digit as char {
        '1' => Some(Setup::First),
        '2' => Some(Setup::Second),
        _ => None,
    }
}

// The kind of a letter: each kind declares its own.
pub fn kind_of(letter: u8) -> Option<Kind>
    ensures { result ≡ kind_of letter }
{
    match letter {
        Commands::LETTER => Some(Kind::Commands),
        Readings::LETTER => Some(Kind::Readings),
        _ => None,
    }
}

// How many labels two digits ask for: 00 is 256.
fn label_count(digits: [u8; 2]) -> Option<u16>
    ensures { result ≡ label_count digits }
{
    match parse_hex(&digits)? {
        0 => Some(256),
        n => u16::try_from(n).ok(),
    }
}
