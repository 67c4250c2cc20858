// A start: both ends and the wire in any state, as a brown-out may leave them.
ghost use Rattle.std.specs.Prelude.{◌≡◌, ◌/◌, ◌%◌, ◌^◌};
ghost use Rattle.records.specs.Kinds.{or_code};
ghost use Rattle.readings.specs.Readings.{reading_of};
ghost use Rattle.readings.specs.declared.reading.Side.TheVariants.{Left};

use crate::dice::Dice;
use channel::Channel;
use link::{Link, State};
use readings::{Reading, Readings, Side};
use records::RecordKind;
use wire::bits::low;
use wire::{Refusal, Word};

// How a start is made up: of anything, or of old words whose labels follow the sender's, which keep a link unclean longest.
#[derive(Clone, Copy)]
pub enum Style {
    Anything,
    OldWords,
}

// The reading that carries a serial number; it comes again after 9,007,501.
pub fn numbered(serial: u64) -> Result<Reading, Refusal>
    ensures { result ≡ or_code (reading_of 2 Left (serial % 6001) (serial / 6001 % 1501)) }
{
    let force = serial % 6001;
    let pressure = serial / 6001 % 1501;
    Reading::new(2, Side::Left, force as u16, pressure as u16)
}

// Puts both ends and the wire of a link into a state by chance.
pub fn disturb<F: Channel, B: Channel>(
    link: &mut Link<F, B, Readings>,
    dice: &mut Dice,
    style: Style,
) {
    let label = byte(dice.throw());
    let _ = link.set_sender_label(label);
    let _ = link.set_receiver_label(byte(dice.throw()));
    match style {
        Style::Anything => fill_anyhow(link, dice),
        Style::OldWords => fill_in_turn(link, dice, label),
    }
    if dice.below(2) == 0 {
        let _ = link.set_state(State::UnderWay);
    }
    if let Ok(reading) = numbered(dice.throw()) {
        let _ = link.set_in_hand(reading);
    }
}

// Words of every sort, with ticks between them so that they spread.
fn fill_anyhow<F: Channel, B: Channel>(link: &mut Link<F, B, Readings>, dice: &mut Dice) {
    let labels = link.labels() as u64;
    let places = link.forward().capacity() as u64 + link.back().capacity() as u64;
    for _ in 0..dice.below(2 * places + 2) {
        let word = any_word(dice, labels);
        match dice.below(3) {
            0 => {
                let _ = link.tick();
            }
            1 => {
                let _ = link.put_back(word);
            }
            _ => {
                let _ = link.put_forward(word);
            }
        }
    }
}

// Acknowledgements of the sender's next labels on the back channel, and words of those after them on the forward one.
fn fill_in_turn<F: Channel, B: Channel>(
    link: &mut Link<F, B, Readings>,
    dice: &mut Dice,
    label: u8,
) {
    let labels = (link.labels() as u64).max(1);
    let back = link.back().capacity() as u64;
    let next = label as u64 + 1;
    for i in 0..back {
        let _ = link.put_back(Word::acknowledge(byte((next + i) % labels)).pack());
        if dice.below(2) == 0 {
            let _ = link.tick();
        }
    }
    for i in 0..link.forward().capacity() as u64 {
        let _ = link.put_forward(record_word(byte((next + back + i) % labels), dice.throw()));
        if dice.below(2) == 0 {
            let _ = link.tick();
        }
    }
}

// A record, an acknowledgement, a whole word with one bit changed, or any bits.
fn any_word(dice: &mut Dice, labels: u64) -> u64 {
    let label = byte(dice.below(labels));
    match dice.below(8) {
        0 => dice.throw(),
        1 => record_word(label, dice.throw()) ^ 1u64.rotate_left(low(dice.throw(), 6) as u32),
        2..=4 => Word::acknowledge(label).pack(),
        _ => record_word(label, dice.throw()),
    }
}

// The word of a reading under a label.
fn record_word(label: u8, serial: u64) -> u64 {
    let payload = numbered(serial).map_or(0, |reading| low(Readings.pack(&reading), 36));
    Word {
        label,
        kind: Readings::NUMBER,
        payload,
    }
    .pack()
}

fn byte(x: u64) -> u8
    ensures { result ≡ x % 2 ^ 8 }
{
    low(x, 8) as u8
}
