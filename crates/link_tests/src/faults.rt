use crate::steps::{DONE, Step, perform};
use commands::{Command, Commands};
use link::{Fault, Link, State};
use queues::Ring;
use std::process::Abort;
use std::test::Fail;
use wire::Refusal;

// The steps on a link that has completed one exchange.
fn after_one(rt: &impl Abort, steps: &[Step]) -> Result<(), Fail> {
    let stop = Command::new(1, 0)?;
    let mut link = Link::new(Commands, 4, Ring::new(1), Ring::new(1), stop);
    perform(
        rt,
        &mut link,
        &[
            Step::Offer(stop, DONE),
            Step::Round(DONE, DONE, DONE, DONE),
            Step::Observed(1, 1),
        ],
    );
    perform(rt, &mut link, steps);
    Ok(())
}

#[test]
fn an_accepted_fault_call_resets_the_observer(rt: HostRuntime) -> Result<(), Fail> {
    let run = Command::new(2, 9)?;
    let steps = [
        Step::Fault(Fault::SenderState(State::UnderWay), DONE),
        Step::Observed(0, 0),
        Step::Fault(Fault::InHand(run), DONE),
        Step::Sender(1, State::UnderWay),
        Step::InHand(run),
    ];
    after_one(&rt, &steps)
}

#[test]
fn a_refused_fault_call_leaves_the_observer(rt: HostRuntime) -> Result<(), Fail> {
    let steps = [
        Step::Fault(Fault::DiscardForward, Err(Refusal::Silent)),
        Step::Fault(Fault::DiscardBack, Err(Refusal::Silent)),
        Step::Observed(1, 1),
        Step::Fault(Fault::PutForward(7), DONE),
        Step::Observed(0, 0),
        Step::Fault(Fault::PutForward(8), Err(Refusal::Full)),
        Step::Fault(Fault::PutBack(7), DONE),
        Step::Fault(Fault::PutBack(8), Err(Refusal::Full)),
        Step::Fault(Fault::DiscardForward, DONE),
        Step::Fault(Fault::DiscardBack, DONE),
    ];
    after_one(&rt, &steps)
}

// The handover changes the observer and nothing else.
#[test]
fn the_handover_leaves_the_ends(rt: HostRuntime) -> Result<(), Fail> {
    let stop = Command::new(1, 0)?;
    let steps = [
        Step::Offer(stop, DONE),
        Step::Fault(Fault::ReceiverLabel(200), DONE),
        Step::Handover,
        Step::Sender(2, State::UnderWay),
        Step::Receiver(200, stop),
        Step::Observed(0, 0),
    ];
    after_one(&rt, &steps)
}
