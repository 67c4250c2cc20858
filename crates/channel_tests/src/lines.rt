use crate::steps::{Step, run};
use queues::DelayLine;
use wire::Refusal;

#[test]
fn limits(rt: HostRuntime) {
    assert_eq!(rt; DelayLine::check(64, 15), Ok(()));
    assert_eq!(rt; DelayLine::check(0, 0), Err(Refusal::Size));
    assert_eq!(rt; DelayLine::check(65, 0), Err(Refusal::Size));
    assert_eq!(rt; DelayLine::check(1, 16), Err(Refusal::Size));
}

// Both numbers are replaced where one is out of limits.
#[test]
fn too_late_asked(rt: HostRuntime) {
    run(&rt, DelayLine::new(5, 16), &[Step::Numbers(1, 0, 0)])
}

#[test]
fn too_much_asked(rt: HostRuntime) {
    run(&rt, DelayLine::new(65, 3), &[Step::Numbers(1, 0, 0)])
}

#[test]
fn no_delay(rt: HostRuntime) {
    run(
        &rt,
        DelayLine::new(1, 0),
        &[Step::Put(7), Step::Full(8), Step::Take(7), Step::Silent],
    )
}

#[test]
fn longest_delay(rt: HostRuntime) {
    run(
        &rt,
        DelayLine::new(64, 15),
        &[
            Step::Numbers(64, 15, 0),
            Step::Put(7),
            Step::Wait(15),
            Step::Put(8),
            Step::Take(7),
            Step::Silent,
            Step::See(0, 8),
        ],
    )
}

// A word put later is due later.
#[test]
fn each_its_own(rt: HostRuntime) {
    run(
        &rt,
        DelayLine::new(3, 2),
        &[
            Step::Put(7),
            Step::Tick,
            Step::Put(8),
            Step::Tick,
            Step::Take(7),
            Step::Wait(1),
            Step::Take(8),
        ],
    )
}

// The due numbers go round the buffer's end with their words.
#[test]
fn round_the_end(rt: HostRuntime) {
    run(
        &rt,
        DelayLine::new(64, 1),
        &[
            Step::PutAll(0, 63),
            Step::Tick,
            Step::TakeAll(0, 63),
            Step::Put(100),
            Step::Tick,
            Step::Put(101),
            Step::Take(100),
            Step::Wait(1),
            Step::Take(101),
        ],
    )
}

// The count of the ticks begins again after 65,520, and a word that waits then still waits as long.
#[test]
fn ticks_counted_anew(rt: HostRuntime) {
    run(
        &rt,
        DelayLine::new(2, 3),
        &[
            Step::Wait(65_519),
            Step::Put(7),
            Step::Wait(3),
            Step::Take(7),
            Step::Put(8),
            Step::Wait(3),
            Step::Take(8),
        ],
    );
}
