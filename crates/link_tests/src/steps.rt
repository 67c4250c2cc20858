// Calls of a link with the answers that they have to give.
use channel::Channel;
use commands::{Command, Commands};
use link::{Fault, Link, State};
use std::process::Abort;
use wire::Refusal;

pub type Answer = Result<(), Refusal>;

pub const DONE: Answer = Ok(());

#[derive(Clone, Copy)]
pub enum Step {
    Offer(Command, Answer),
    Send(Answer),
    Hear(Answer, Answer),
    Settle(Answer),
    Tick,
    Round(Answer, Answer, Answer, Answer),
    Fault(Fault<Command>, Answer),
    Handover,
    Clean(bool),
    // exchanges completed, and which first left the link clean
    Observed(u16, u16),
    Sender(u8, State),
    InHand(Command),
    // the receiver's stored label, and the record delivered last
    Receiver(u8, Command),
}

// One call, or what is read of a link.
fn call<F: Channel, B: Channel>(rt: &impl Abort, link: &mut Link<F, B, Commands>, step: Step) {
    match step {
        Step::Offer(record, answer) => assert_eq!(rt; link.offer(record), answer),
        Step::Send(answer) => assert_eq!(rt; link.send(), answer),
        Step::Hear(heard, reply) => assert_eq!(rt; link.hear(), (heard, reply)),
        Step::Settle(answer) => assert_eq!(rt; link.settle(), answer),
        Step::Tick => assert_eq!(rt; link.tick(), Ok(())),
        Step::Round(sent, heard, reply, settled) => assert_eq!(rt;
            link.round(),
            (sent, (heard, reply), settled)
        ),
        Step::Fault(kind, answer) => assert_eq!(rt; link.inflict(kind), answer),
        Step::Handover => link.handover(),
        Step::Clean(clean) => assert_eq!(rt; link.is_clean(), clean),
        Step::Observed(completed, first) => {
            assert_eq!(rt; link.observer().completed, completed);
            assert_eq!(rt; link.observer().first, first);
        }
        Step::Sender(label, state) => {
            assert_eq!(rt; link.sender().label, label);
            assert_eq!(rt; link.sender().state, state);
        }
        Step::InHand(record) => assert_eq!(rt; link.sender().in_hand, record),
        Step::Receiver(label, record) => {
            assert_eq!(rt; link.receiver().label, label);
            assert_eq!(rt; link.receiver().delivered, record);
        }
    }
}

// Performs the steps one after another.
pub fn perform<F: Channel, B: Channel>(
    rt: &impl Abort,
    link: &mut Link<F, B, Commands>,
    steps: &[Step],
) {
    for step in steps {
        call(rt, link, *step);
    }
}
