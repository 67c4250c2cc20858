use crate::steps::{Step, run};
use lossy::Loss;
use queues::{DelayLine, Ring};
use relays::Relay;

#[test]
fn one_word_a_tick(rt: HostRuntime) {
    run(
        &rt,
        Relay::new(Ring::new(2), Ring::new(2)),
        &[
            Step::Numbers(4, 1, 0),
            Step::PutAll(7, 9),
            Step::Full(9),
            Step::Wait(1),
            Step::See(0, 7),
            Step::See(1, 8),
            Step::Past(2),
            Step::Take(7),
            Step::Silent,
        ],
    )
}

// A closed lower takes nothing more, and what the upper holds stays.
#[test]
fn closed_below(rt: HostRuntime) {
    run(
        &rt,
        Relay::new(Ring::new(1), Ring::new(1)),
        &[
            Step::Put(7),
            Step::Tick,
            Step::Put(8),
            Step::Tick,
            Step::Open(false),
            Step::Load(2),
            Step::Take(7),
            Step::Wait(1),
            Step::Take(8),
        ],
    )
}

// What moves down can be lost on its way.
#[test]
fn lost_on_the_way(rt: HostRuntime) {
    run(
        &rt,
        Relay::new(Ring::new(1), Loss::new(1 << 63, Ring::new(1))),
        &[
            Step::Put(7),
            Step::Losses(1),
            Step::Load(1),
            Step::Tick,
            Step::Load(0),
            Step::Losses(0),
        ],
    )
}

// The delay is the longest that a word can wait; this one is ready a tick before.
#[test]
fn relay_in_relay(rt: HostRuntime) {
    run(
        &rt,
        Relay::new(Relay::new(Ring::new(1), DelayLine::new(1, 1)), Ring::new(1)),
        &[
            Step::Numbers(3, 3, 0),
            Step::Put(7),
            Step::Wait(2),
            Step::Take(7),
            Step::Load(0),
        ],
    )
}

// Loss over relay over loss.
#[test]
fn layers_in_layers(rt: HostRuntime) {
    run(
        &rt,
        Loss::new(
            1 << 63,
            Relay::new(Loss::new(1 << 63, Ring::new(2)), DelayLine::new(2, 0)),
        ),
        &[
            Step::Numbers(4, 1, 2),
            Step::PutAll(7, 9),
            Step::Load(0),
            Step::Losses(0),
            Step::Put(9),
            Step::Tick,
            Step::Take(9),
        ],
    )
}

#[test]
fn parts(rt: HostRuntime) {
    let wire = Relay::new(7, true);
    assert_eq!(rt; *wire.upper(), 7);
    assert_eq!(rt; *wire.lower(), true);
}
