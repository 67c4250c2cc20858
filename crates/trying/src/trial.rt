// Trials of one stack of channels: starts by chance, calls by chance, and what is promised of them.
ghost use Rattle.std.specs.Prelude.{◌≡◌, ◌+◌, ◌*◌, ◌^◌, ◌<◌};
ghost use Rattle.channel.specs.Meaning.{answered};

use crate::dice::Dice;
use crate::start::{Style, disturb, numbered};
use crate::table::Row;
use crate::watch::{Broken, Completion, NOTHING, Seen, Watch};
use channel::Channel;
use link::{Call, Link, State};
use readings::Readings;
use records::RecordKind;

// A start ends after so many calls, though exchanges be missing.
const MOST_CALLS: u64 = 50_000;

// So many exchanges are watched after the one that is clean for sure.
const MORE_EXCHANGES: u64 = 6;

// How often each call is made in a start.
#[derive(Clone, Copy)]
struct Pace {
    shares: [(Call<()>, u64); 6],
}

impl Pace {
    // Every start has its own: some send seldom, some hear or settle seldom, some perform hardly a round.
    fn any(dice: &mut Dice) -> Pace {
        Pace {
            shares: [
                (Call::Offer(()), 1 + dice.below(8)),
                (Call::Send, dice.below(8)),
                (Call::Hear, dice.below(8)),
                (Call::Settle, dice.below(8)),
                (Call::Tick, dice.below(4)),
                (Call::Round, 1 + dice.below(8)),
            ],
        }
    }

    // A call by chance.
    fn any_call(&self, dice: &mut Dice) -> Call<()> {
        let all = self
            .shares
            .iter()
            .fold(0u64, |sum, (_, share)| sum.saturating_add(*share));
        let mut thrown = dice.below(all);
        for (call, share) in self.shares {
            if thrown < share {
                return call;
            }
            thrown -= share;
        }
        Call::Round
    }
}

impl Row {
    // One start more: a new link over these channels in a state by chance, handed over, and calls by chance. A promise that is
    // broken is noted.
    pub fn try_start<F: Channel + Drop, B: Channel + Drop>(
        &mut self,
        forward: F,
        back: B,
        dice: &mut Dice,
    )
        ensures labels { self.new.labels ≡ self.old.labels }
        ensures starts { self.old.starts + 1 < 2 ^ 64 → self.new.starts ≡ self.old.starts + 1 }
    {
        let style = if self.starts % 2 == 0 {
            Style::Anything
        } else {
            Style::OldWords
        };
        self.starts = self.starts.saturating_add(1);
        if let Err(broken) = try_link(forward, back, style, dice, self) {
            self.broken = Some((self.starts, broken));
        }
    }
}

// A link of so many labels over these channels, in a state by chance.
fn try_link<F: Channel + Drop, B: Channel + Drop>(
    forward: F,
    back: B,
    style: Style,
    dice: &mut Dice,
    row: &mut Row,
) -> Result<(), Broken>
    ensures kept { (row.new.labels ≡ row.old.labels) × (row.new.starts ≡ row.old.starts) }
{
    let first = numbered(0).map_err(|_| Broken::Check)?;
    let mut link = Link::new(Readings, row.labels, forward, back, first);
    disturb(&mut link, dice, style);
    link.check().map_err(|_| Broken::Check)?;
    link.handover();
    watch_calls(&mut link, dice, row)
}

// Calls until enough exchanges were completed.
fn watch_calls<F: Channel, B: Channel>(
    link: &mut Link<F, B, Readings>,
    dice: &mut Dice,
    row: &mut Row,
) -> Result<(), Broken>
    ensures kept { (row.new.labels ≡ row.old.labels) × (row.new.starts ≡ row.old.starts) }
{
    let latest = link.forward().capacity() as u64 + link.back().capacity() as u64 + 2;
    let is_under_way = matches!(link.sender().state, State::UnderWay);
    let promised = rounds_promised(link);
    row.latest_promised = latest;
    row.longest_promised = row.longest_promised.max(promised);
    let pace = Pace::any(dice);
    let mut watch = Watch::new(latest, is_under_way, promised);
    for serial in 0..MOST_CALLS {
        let before = link.observer();
        let seen = perform(link, pace.any_call(dice), serial);
        let after = link.observer();
        row.calls = row.calls.saturating_add(1);
        row.exchanges = row
            .exchanges
            .saturating_add(seen.completed.is_some() as u64);
        row.latest = row.latest.max(after.first as u64);
        let found = watch.note(seen, before, after, rounds_promised(link));
        row.longest = row.longest.max(watch.longest());
        found?;
        if after.completed as u64 >= latest + MORE_EXCHANGES {
            return Ok(());
        }
    }
    Ok(())
}

// One call, and what it did. An offer's record has the serial number.
fn perform<F: Channel, B: Channel>(
    link: &mut Link<F, B, Readings>,
    call: Call<()>,
    serial: u64,
) -> Seen {
    match call {
        Call::Offer(()) => offer(link, serial),
        Call::Send => {
            let _ = link.send();
            NOTHING
        }
        Call::Hear => {
            let (heard, _) = link.hear();
            Seen {
                delivered: heard.ok().map(|()| link.held()),
                ..NOTHING
            }
        }
        Call::Settle => Seen {
            completed: link.settle().ok().map(|()| completion(link)),
            ..NOTHING
        },
        Call::Tick => {
            let _ = link.tick();
            NOTHING
        }
        Call::Round => {
            let (_, (heard, _), settled) = link.round();
            Seen {
                delivered: heard.ok().map(|()| link.held()),
                completed: settled.ok().map(|()| Completion::Unasked),
                round: true,
                ..NOTHING
            }
        }
    }
}

fn offer<F: Channel, B: Channel>(link: &mut Link<F, B, Readings>, serial: u64) -> Seen {
    let Ok(reading) = numbered(serial) else {
        return NOTHING;
    };
    if link.offer(reading).is_err() {
        return NOTHING;
    }
    Seen {
        accepted: Some(Readings.pack(&reading)),
        ..NOTHING
    }
}

// An exchange that was completed just now.
fn completion<F: Channel, B: Channel>(link: &Link<F, B, Readings>) -> Completion {
    if link.is_clean() {
        Completion::Clean
    } else {
        Completion::Unclean
    }
}

// The rounds that complete an exchange for sure, by the losses left now: one for each of them and one more, times what is needed
// where nothing is lost.
fn rounds_promised<F: Channel, B: Channel>(link: &Link<F, B, Readings>) -> u64
    ensures { result ≡ (answered (F.Channel.losses link.now.forward) + answered (B.Channel.losses link.now.back) + 1) * ((answered (F.Channel.capacity link.now.forward) + 2) * (answered (F.Channel.delay link.now.forward) + 1) + (answered (B.Channel.capacity link.now.back) + 1) * (answered (B.Channel.delay link.now.back) + 1)) }
{
    let forward = link.forward();
    let back = link.back();
    let losses = forward.losses() as u64 + back.losses() as u64;
    let there = (forward.capacity() as u64 + 2) * (forward.delay() as u64 + 1);
    let again = (back.capacity() as u64 + 1) * (back.delay() as u64 + 1);
    scaled(losses, there + again)
}

// The rounds for each loss and once more; within these bounds the product fits.
fn scaled(losses: u64, rounds: u64) -> u64
    requires { (losses < 2 ^ 18) × (rounds < 2 ^ 34) }
    ensures { result ≡ (losses + 1) * rounds }
{
    (losses + 1) * rounds
}
