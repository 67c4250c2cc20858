// Trials of the recovery promise: stacks of channels, starts by chance, calls by chance, and a table of what was found. The
// arguments are a seed and a number of starts for each stack.
#![tactic(auto)]

use channel::Channel;
use lossy::Loss;
use queues::{DelayLine, Ring};
use relays::Relay;
use setups::{first_back, first_forward, second_back, second_forward};
use std::{env, io};
use trying::{Dice, MOST_LABELS, Row};

// A run of more starts says on standard error how far it is.
const LONG: u64 = 10_000;

// What is asked for: a seed, and the starts of each stack.
#[derive(Clone, Copy)]
struct Settings {
    seed: u64,
    starts: u64,
}

// The trials so far.
#[derive(Clone, Copy)]
struct Series {
    dice: Dice,
    starts: u64,
    broken: u64,
}

fn main(rt: HostRuntime) -> io::Result<()> {
    let settings = read_settings(&rt)?;
    println!(rt;
        "seed {}, {} starts of each stack, with as few labels as it may have and with 256",
        settings.seed, settings.starts
    )?;
    println!(rt; "")?;
    println!(rt;
        "stack                     labels  starts     calls  exchanges  first clean  longest in rounds"
    )?;
    let mut series = Series {
        dice: Dice::new(settings.seed),
        starts: settings.starts,
        broken: 0,
    };
    show_set_ups(&rt, &mut series)?;
    show_queues(&rt, &mut series)?;
    show_layers(&rt, &mut series)?;
    println!(rt; "")?;
    match series.broken {
        0 => println!(rt; "no promise broken"),
        broken => println!(rt; "promises broken: {broken}"),
    }
}

fn show_set_ups(rt: &HostRuntime, series: &mut Series) -> io::Result<()> {
    show(
        rt,
        "first set-up",
        || (first_forward(), first_back()),
        series,
    )?;
    show(
        rt,
        "second set-up",
        || (second_forward(), second_back()),
        series,
    )
}

fn show_queues(rt: &HostRuntime, series: &mut Series) -> io::Result<()> {
    // for rings of 2 and 1 a start is known that stays unclean longest
    show(rt, "rings", || (Ring::new(2), Ring::new(1)), series)?;
    show(
        rt,
        "delay lines",
        || (DelayLine::new(4, 3), DelayLine::new(2, 15)),
        series,
    )
}

// Relays in relays, and losses above a relay and inside it.
fn show_layers(rt: &HostRuntime, series: &mut Series) -> io::Result<()> {
    let relay_in_relay = || {
        let forward = Relay::new(Relay::new(Ring::new(2), DelayLine::new(2, 2)), Ring::new(1));
        let back = Relay::new(Ring::new(1), Relay::new(DelayLine::new(2, 1), Ring::new(2)));
        (forward, back)
    };
    show(rt, "relay in relay", relay_in_relay, series)?;
    let loss_over_relay = || {
        let upper = Relay::new(Ring::new(4), DelayLine::new(3, 4));
        let forward = Loss::new(0xFFF0_0000_FF00_F0AA, upper);
        (
            forward,
            Loss::new(0xAAAA_5555_0F0F_00FF, DelayLine::new(3, 2)),
        )
    };
    show(rt, "loss over relay", loss_over_relay, series)?;
    let loss_in_relay_in_loss = || {
        let upper = Loss::new(0x0F0F_0000_0000_0001, DelayLine::new(5, 2));
        let lower = Relay::new(Ring::new(3), DelayLine::new(2, 3));
        let forward = Loss::new(0x8888_8888_0000_FFFF, Relay::new(upper, lower));
        let back = Loss::new(0xCCCC_0000_0000_0000, Ring::new(6));
        (forward, Relay::new(back, Ring::new(3)))
    };
    show(rt, "loss in relay in loss", loss_in_relay_in_loss, series)
}

// The arguments, or a short run where they are missing or no numbers.
fn read_settings(rt: &HostRuntime) -> io::Result<Settings> {
    let mut arguments = env::args(rt)?;
    let _ = arguments.next();
    let seed = number(arguments.next(), 1);
    let starts = number(arguments.next(), 1000);
    Ok(Settings { seed, starts })
}

fn number(argument: Option<String>, otherwise: u64) -> u64 {
    argument
        .and_then(|text| text.as_str().parse::<u64>().ok())
        .unwrap_or(otherwise)
}

// The rows of a stack, whose channels are new at each start: with as few labels as it may have, and with as many.
fn show<S: Fn() -> (F, B), F: Channel + Drop, B: Channel + Drop>(
    rt: &HostRuntime,
    name: &str,
    stack: S,
    series: &mut Series,
) -> io::Result<()>
    requires { S.IsAlwaysCallable stack }
{
    let (forward, back) = stack();
    let least = forward
        .capacity()
        .saturating_add(back.capacity())
        .saturating_add(2);
    show_row(rt, name, &stack, least, series)?;
    show_row(rt, name, &stack, MOST_LABELS, series)
}

fn show_row<S: Fn() -> (F, B), F: Channel + Drop, B: Channel + Drop>(
    rt: &HostRuntime,
    name: &str,
    stack: &S,
    labels: u16,
    series: &mut Series,
) -> io::Result<()>
    requires { S.IsAlwaysCallable stack.now }
{
    if series.starts > LONG {
        eprintln!(rt; "{name}, {labels} labels")?;
    }
    let row = try_stack(stack, labels, series);
    println!(rt; "{name:<25} {row}")?;
    if let Some((start, broken)) = row.broken {
        series.broken = series.broken.saturating_add(1);
        println!(rt; "    broken at start {start}: {broken}")?;
    }
    Ok(())
}

// The starts of a stack with so many labels. The first promise that is broken ends them.
fn try_stack<S: Fn() -> (F, B), F: Channel + Drop, B: Channel + Drop>(
    stack: &S,
    labels: u16,
    series: &mut Series,
) -> Row
    requires { S.IsAlwaysCallable stack.now }
{
    let mut row = Row {
        labels,
        ..Row::default()
    };
    for _ in 0..series.starts {
        let (forward, back) = stack();
        row.try_start(forward, back, &mut series.dice);
        if row.broken.is_some() {
            break;
        }
    }
    row
}
