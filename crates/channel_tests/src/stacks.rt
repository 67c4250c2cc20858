use crate::steps::{Step, run};
use lossy::Loss;
use queues::Ring;
use relays::Relay;
use setups::{first_back, first_forward, second_back, second_forward};
use stranger::Pigeonhole;

#[test]
fn first_pair(rt: HostRuntime) {
    run(&rt, first_forward(), &[Step::Numbers(1, 0, 0)]);
    run(&rt, first_back(), &[Step::Numbers(1, 0, 0)])
}

// The first and the third word are lost; the second comes out after two ticks.
#[test]
fn second_forward_runs(rt: HostRuntime) {
    run(
        &rt,
        second_forward(),
        &[
            Step::Numbers(5, 2, 2),
            Step::PutAll(1, 5),
            Step::Losses(0),
            Step::Wait(2),
            Step::Take(2),
            Step::Wait(1),
            Step::Take(4),
        ],
    )
}

#[test]
fn second_back_runs(rt: HostRuntime) {
    run(
        &rt,
        second_back(),
        &[
            Step::Numbers(3, 0, 1),
            Step::PutAll(1, 4),
            Step::Losses(0),
            Step::Take(1),
            Step::Take(3),
        ],
    )
}

// A stranger's channel, alone and in our layers.
#[test]
fn pigeonhole(rt: HostRuntime) {
    run(
        &rt,
        Pigeonhole::new(300, 1),
        &[
            Step::Put(7),
            Step::Full(8),
            Step::Tick,
            Step::Load(0),
            Step::Losses(0),
            Step::Put(9),
            Step::Wait(300),
            Step::Take(9),
        ],
    )
}

#[test]
fn pigeonhole_in_layers(rt: HostRuntime) {
    run(
        &rt,
        Loss::new(1 << 63, Relay::new(Ring::new(1), Pigeonhole::new(1, 0))),
        &[
            Step::Numbers(2, 2, 1),
            Step::PutAll(7, 9),
            Step::Wait(2),
            Step::Take(8),
        ],
    )
}
