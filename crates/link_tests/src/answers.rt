use crate::steps::{Answer, DONE, Step, perform};
use commands::{Command, Commands};
use link::{Fault, Link, State};
use queues::Ring;
use records::kind::RecordKind;
use std::process::Abort;
use std::test::Fail;
use wire::{Refusal, Word};

const SILENT: Answer = Err(Refusal::Silent);

// The steps over two rings of these capacities with this many labels.
fn over(rt: &impl Abort, forward: u16, back: u16, labels: u16, steps: &[Step]) -> Result<(), Fail> {
    let stop = Command::new(1, 0)?;
    let mut link = Link::new(Commands, labels, Ring::new(forward), Ring::new(back), stop);
    perform(rt, &mut link, steps);
    Ok(())
}

// The word of a stop command under a label.
fn stop_word(label: u8) -> u64 {
    Word {
        label,
        kind: 1,
        payload: 0x1_0000_0000,
    }
    .pack()
}

#[test]
fn an_exchange_call_by_call(rt: HostRuntime) -> Result<(), Fail> {
    let run = Command::new(2, 50)?;
    let steps = [
        Step::Send(Err(Refusal::Idle)),
        Step::Hear(SILENT, SILENT),
        Step::Settle(SILENT),
        Step::Offer(run, DONE),
        Step::Offer(run, Err(Refusal::Busy)),
        Step::Send(DONE),
        Step::Send(Err(Refusal::Full)),
        Step::Hear(DONE, DONE),
        Step::Receiver(1, run),
        Step::Settle(DONE),
        Step::Sender(1, State::Idle),
        Step::Clean(true),
        Step::Tick,
        Step::Observed(1, 1),
    ];
    over(&rt, 1, 1, 4, &steps)
}

#[test]
fn a_repeat_is_acknowledged_again(rt: HostRuntime) -> Result<(), Fail> {
    let zero = Command::new(4, 0)?;
    let steps = [
        Step::Offer(zero, DONE),
        Step::Send(DONE),
        Step::Send(DONE),
        Step::Hear(DONE, DONE),
        Step::Hear(Err(Refusal::Repeat), DONE),
        Step::Settle(DONE),
        Step::Settle(Err(Refusal::Stale)),
    ];
    over(&rt, 2, 2, 6, &steps)
}

#[test]
fn a_refused_reply_leaves_the_delivery_standing(rt: HostRuntime) -> Result<(), Fail> {
    let lamp = Command::new(5, 7)?;
    let steps = [
        Step::Fault(Fault::PutBack(0), DONE),
        Step::Offer(lamp, DONE),
        Step::Send(DONE),
        Step::Hear(DONE, Err(Refusal::Full)),
        Step::Receiver(1, lamp),
        Step::Settle(Err(Refusal::Spoilt)),
    ];
    over(&rt, 1, 1, 4, &steps)
}

// A label of the count or more, a broken check, another kind, and a payload that is no command.
#[test]
fn spoilt_words_are_gone_and_change_no_end(rt: HostRuntime) -> Result<(), Fail> {
    let stop = Command::new(1, 0)?;
    let other_kind = Word {
        label: 2,
        kind: 2,
        payload: 0x1_0000_0000,
    };
    let no_command = Word {
        label: 2,
        kind: 1,
        payload: 0,
    };
    let spoilt = Step::Hear(Err(Refusal::Spoilt), SILENT);
    let steps = [
        Step::Fault(Fault::PutForward(stop_word(7)), DONE),
        Step::Fault(Fault::PutForward(stop_word(2) ^ 1), DONE),
        Step::Fault(Fault::PutForward(other_kind.pack()), DONE),
        Step::Fault(Fault::PutForward(no_command.pack()), DONE),
        spoilt,
        spoilt,
        spoilt,
        spoilt,
        Step::Receiver(0, stop),
        Step::Fault(Fault::PutBack(stop_word(0)), DONE),
        Step::Settle(Err(Refusal::Spoilt)),
    ];
    over(&rt, 4, 1, 7, &steps)
}

#[test]
fn stored_labels_are_read_as_remainders(rt: HostRuntime) -> Result<(), Fail> {
    let stop = Command::new(1, 0)?;
    let steps = [
        Step::Fault(Fault::SenderLabel(255), DONE),
        Step::Fault(Fault::ReceiverLabel(4), DONE),
        Step::Fault(Fault::PutForward(stop_word(0)), DONE),
        Step::Hear(Err(Refusal::Repeat), DONE),
        Step::Receiver(4, stop),
        Step::Offer(stop, DONE),
        Step::Sender(0, State::UnderWay),
        Step::Settle(DONE),
        Step::Clean(true),
    ];
    over(&rt, 1, 1, 4, &steps)
}

#[test]
fn a_round_hears_and_settles(rt: HostRuntime) -> Result<(), Fail> {
    let axle = Command::new(3, 12)?;
    let steps = [
        Step::Round(Err(Refusal::Idle), SILENT, SILENT, SILENT),
        Step::Offer(axle, DONE),
        Step::Round(DONE, DONE, DONE, DONE),
        Step::Observed(1, 1),
    ];
    over(&rt, 1, 1, 4, &steps)
}

// An acknowledgement that was on the wire completes the first exchange, and leaves the link unclean.
#[test]
fn a_stale_acknowledgement_completes_an_exchange(rt: HostRuntime) -> Result<(), Fail> {
    let stop = Command::new(1, 0)?;
    let steps = [
        Step::Fault(Fault::SenderLabel(2), DONE),
        Step::Fault(Fault::PutBack(Word::acknowledge(3).pack()), DONE),
        Step::Handover,
        Step::Offer(stop, DONE),
        Step::Settle(DONE),
        Step::Clean(false),
        Step::Observed(1, 0),
        Step::Offer(stop, DONE),
        Step::Round(DONE, Err(Refusal::Repeat), DONE, DONE),
        Step::Observed(2, 2),
    ];
    over(&rt, 1, 1, 4, &steps)
}

#[test]
fn the_observer_stops(rt: HostRuntime) -> Result<(), Fail> {
    let stop = Command::new(1, 0)?;
    let mut link = Link::new(Commands, 4, Ring::new(1), Ring::new(1), stop);
    for _ in 0..65_540u32 {
        perform(
            &rt,
            &mut link,
            &[Step::Offer(stop, DONE), Step::Round(DONE, DONE, DONE, DONE)],
        );
    }
    perform(&rt, &mut link, &[Step::Observed(65_535, 1)]);
    Ok(())
}
