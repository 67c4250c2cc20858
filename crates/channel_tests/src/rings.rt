use crate::steps::{Step, run};
use queues::Ring;
use wire::Refusal;

#[test]
fn limits(rt: HostRuntime) {
    assert_eq!(rt; Ring::check(0), Err(Refusal::Size));
    assert_eq!(rt; Ring::check(1), Ok(()));
    assert_eq!(rt; Ring::check(64), Ok(()));
    assert_eq!(rt; Ring::check(65), Err(Refusal::Size));
}

#[test]
fn no_room_asked(rt: HostRuntime) {
    run(&rt, Ring::new(0), &[Step::Numbers(1, 0, 0)])
}

#[test]
fn too_much_asked(rt: HostRuntime) {
    run(&rt, Ring::new(65), &[Step::Numbers(1, 0, 0)])
}

#[test]
fn one_place(rt: HostRuntime) {
    run(
        &rt,
        Ring::new(1),
        &[
            Step::Silent,
            Step::Put(7),
            Step::Full(8),
            Step::Tick,
            Step::See(0, 7),
            Step::Past(1),
            Step::Take(7),
            Step::Open(true),
        ],
    )
}

#[test]
fn all_places(rt: HostRuntime) {
    run(
        &rt,
        Ring::new(64),
        &[
            Step::Numbers(64, 0, 0),
            Step::PutAll(0, 64),
            Step::Full(64),
            Step::Load(64),
            Step::See(63, 63),
            Step::Past(64),
            Step::TakeAll(0, 64),
            Step::Silent,
        ],
    )
}

// The words stand on both sides of the buffer's end.
#[test]
fn round_the_end(rt: HostRuntime) {
    run(
        &rt,
        Ring::new(64),
        &[
            Step::PutAll(0, 60),
            Step::TakeAll(0, 60),
            Step::PutAll(100, 164),
            Step::See(3, 103),
            Step::See(4, 104),
            Step::TakeAll(100, 164),
        ],
    )
}
