use channel::Channel;
use std::process::Abort;
use wire::Refusal;

// A call with the answer that it has to give, or several.
#[derive(Clone, Copy)]
pub enum Step {
    Put(u64),
    Full(u64),
    Take(u64),
    Silent,
    Tick,
    See(u16, u64),
    Past(u16),
    Load(u16),
    Losses(u16),
    Open(bool),
    // capacity, delay and losses left
    Numbers(u16, u16, u16),
    // the words from one number up to another, put or taken one after the other
    PutAll(u64, u64),
    TakeAll(u64, u64),
    // so many ticks, before each of which nothing can be taken
    Wait(u16),
}

fn call<C: Channel>(rt: &impl Abort, wire: &mut C, step: Step) {
    match step {
        Step::Put(word) => assert_eq!(rt; wire.put(word), Ok(())),
        Step::Full(word) => assert_eq!(rt; wire.put(word), Err(Refusal::Full)),
        Step::Take(word) => assert_eq!(rt; wire.take(), Ok(word)),
        Step::Silent => assert_eq!(rt; wire.take(), Err(Refusal::Silent)),
        Step::Tick => wire.tick(),
        Step::See(at, word) => assert_eq!(rt; wire.peek(at), Ok(word)),
        Step::Past(at) => assert_eq!(rt; wire.peek(at), Err(Refusal::Place)),
        Step::Load(load) => assert_eq!(rt; wire.load(), load),
        Step::Losses(losses) => assert_eq!(rt; wire.losses(), losses),
        Step::Open(open) => assert_eq!(rt; wire.is_open(), open),
        Step::Numbers(capacity, delay, losses) => numbers(rt, wire, capacity, delay, losses),
        Step::PutAll(from, to) => put_all(rt, wire, from, to),
        Step::TakeAll(from, to) => take_all(rt, wire, from, to),
        Step::Wait(ticks) => wait(rt, wire, ticks),
    }
}

fn numbers<C: Channel>(rt: &impl Abort, wire: &C, capacity: u16, delay: u16, losses: u16) {
    assert_eq!(rt; wire.capacity(), capacity);
    assert_eq!(rt; wire.delay(), delay);
    assert_eq!(rt; wire.losses(), losses);
}

fn put_all<C: Channel>(rt: &impl Abort, wire: &mut C, from: u64, to: u64) {
    for word in from..to {
        assert_eq!(rt; wire.put(word), Ok(()));
    }
}

fn take_all<C: Channel>(rt: &impl Abort, wire: &mut C, from: u64, to: u64) {
    for word in from..to {
        assert_eq!(rt; wire.take(), Ok(word));
    }
}

fn wait<C: Channel>(rt: &impl Abort, wire: &mut C, ticks: u16) {
    for _ in 0..ticks {
        assert_eq!(rt; wire.take(), Err(Refusal::Silent));
        wire.tick();
    }
}

pub fn run<C: Channel + Drop>(rt: &impl Abort, mut wire: C, steps: &[Step]) {
    for step in steps {
        call(rt, &mut wire, *step);
    }
}
