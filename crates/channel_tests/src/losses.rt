use crate::steps::{Step, run};
use lossy::Loss;
use queues::Ring;

#[test]
fn first_bit(rt: HostRuntime) {
    run(
        &rt,
        Loss::new(1 << 63, Ring::new(2)),
        &[
            Step::Losses(1),
            Step::Put(7),
            Step::Load(0),
            Step::Losses(0),
            Step::Put(8),
            Step::Take(8),
        ],
    )
}

// Only the 64th word is lost.
#[test]
fn last_bit(rt: HostRuntime) {
    run(
        &rt,
        Loss::new(1, Ring::new(64)),
        &[
            Step::PutAll(1, 65),
            Step::Load(63),
            Step::Losses(0),
            Step::Put(65),
            Step::See(63, 65),
        ],
    )
}

#[test]
fn all_bits(rt: HostRuntime) {
    run(
        &rt,
        Loss::new(0xFFFFFFFFFFFFFFFF, Ring::new(1)),
        &[
            Step::Losses(64),
            Step::PutAll(0, 64),
            Step::Losses(0),
            Step::Put(64),
            Step::See(0, 64),
        ],
    )
}

// A refused put spends no bit: the next accepted one is lost.
#[test]
fn refused(rt: HostRuntime) {
    run(
        &rt,
        Loss::new(1 << 62, Ring::new(1)),
        &[
            Step::Put(7),
            Step::Full(8),
            Step::Losses(1),
            Step::Take(7),
            Step::Put(9),
            Step::Silent,
        ],
    )
}

// A layer over a layer: the losses add up, and the upper pattern comes first.
#[test]
fn twice(rt: HostRuntime) {
    run(
        &rt,
        Loss::new(1 << 63, Loss::new(1 << 63, Ring::new(1))),
        &[
            Step::Losses(2),
            Step::Put(7),
            Step::Losses(1),
            Step::Put(8),
            Step::Losses(0),
            Step::Put(9),
            Step::Take(9),
        ],
    )
}

#[test]
fn parts(rt: HostRuntime) {
    let wire = Loss::new(0xA5, 7);
    assert_eq!(rt; wire.pattern(), 0xA5);
    assert_eq!(rt; *wire.below(), 7);
}
