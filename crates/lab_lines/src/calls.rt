// What a line asks of a link, on any link.
ghost use Rattle.std.specs.Prelude.{◌≡◌, length};
ghost use Rattle.channel.specs.Meaning.{answered};

use crate::line::{Fault, OnChannel, Order, Question, Side};
use crate::reply::{Ends, Questions, Reply, Round};
use channel::Channel;
use link::{Call, Link};
use records::RecordKind;

pub(crate) fn obey<F: Channel, B: Channel, R: RecordKind>(
    link: &mut Link<F, B, R>,
    order: Order,
) -> Reply {
    match order {
        Order::Channel(side, order) => on_channel(link, side, order),
        Order::Fault(fault) => make_fault(link, fault),
        Order::Call(call) => perform(link, call),
        Order::Spin(count) => spin(link, count),
        Order::Handover => {
            link.handover();
            Reply::One("handover", Ok(()))
        }
        Order::Question(question) => look(link, question),
    }
}

fn on_channel<F: Channel, B: Channel, R: RecordKind>(
    link: &mut Link<F, B, R>,
    side: Side,
    order: OnChannel,
) -> Reply {
    match (side, order) {
        (Side::Forward, OnChannel::Ask) => Reply::Ask(questions(link.forward())),
        (Side::Back, OnChannel::Ask) => Reply::Ask(questions(link.back())),
        (Side::Forward, OnChannel::Peek(at)) => Reply::Peek(link.forward().peek(at)),
        (Side::Back, OnChannel::Peek(at)) => Reply::Peek(link.back().peek(at)),
        (Side::Forward, OnChannel::Put(word)) => Reply::One("put", link.put_forward(word)),
        (Side::Back, OnChannel::Put(word)) => Reply::One("put", link.put_back(word)),
        (Side::Forward, OnChannel::Discard) => Reply::One("discard", link.discard_forward()),
        (Side::Back, OnChannel::Discard) => Reply::One("discard", link.discard_back()),
    }
}

fn questions<C: Channel>(channel: &C) -> Questions
    ensures sizes { (result.capacity ≡ answered (C.Channel.capacity channel.now)) × (result.delay ≡ answered (C.Channel.delay channel.now)) }
    ensures losses { result.losses ≡ answered (C.Channel.losses channel.now) }
    ensures load { (result.load ≡ answered (length (C.Channel.contents channel.now))) × (result.«open» ≡ C.Channel.is_open channel.now) }
{
    Questions {
        capacity: channel.capacity(),
        delay: channel.delay(),
        losses: channel.losses(),
        load: channel.load(),
        open: channel.is_open(),
    }
}

fn make_fault<F: Channel, B: Channel, R: RecordKind>(
    link: &mut Link<F, B, R>,
    fault: Fault,
) -> Reply {
    match fault {
        Fault::SenderLabel(label) => Reply::One("sender", link.set_sender_label(label)),
        Fault::ReceiverLabel(label) => Reply::One("receiver", link.set_receiver_label(label)),
        Fault::State(state) => Reply::One("state", link.set_state(state)),
        Fault::Hand(payload) => {
            let record = link.kind().unpack(payload);
            Reply::One("hand", record.and_then(|record| link.set_in_hand(record)))
        }
    }
}

fn perform<F: Channel, B: Channel, R: RecordKind>(
    link: &mut Link<F, B, R>,
    call: Call<u64>,
) -> Reply {
    match call {
        // a payload that is no record is turned away before the link is asked
        Call::Offer(payload) => {
            let record = link.kind().unpack(payload);
            Reply::One("offer", record.and_then(|record| link.offer(record)))
        }
        Call::Send => Reply::One("send", link.send()),
        Call::Hear => {
            let (heard, reply) = link.hear();
            Reply::Hear(heard, reply)
        }
        Call::Settle => Reply::One("settle", link.settle()),
        Call::Tick => Reply::One("tick", link.tick()),
        Call::Round => {
            let (sent, (heard, reply), settled) = link.round();
            Reply::Round(Round {
                sent,
                heard,
                reply,
                settled,
            })
        }
    }
}

// So many times an offer of the record in hand, and a round.
fn spin<F: Channel, B: Channel, R: RecordKind>(link: &mut Link<F, B, R>, count: u16) -> Reply {
    for _ in 0..count {
        let _ = link.offer(link.sender().in_hand);
        let _ = link.round();
    }
    Reply::Observed("spin", link.observer())
}

fn look<F: Channel, B: Channel, R: RecordKind>(link: &Link<F, B, R>, question: Question) -> Reply {
    match question {
        Question::Check => Reply::One("check", link.check()),
        Question::Clean => Reply::Clean(link.is_clean()),
        Question::Observer => Reply::Observed("observer", link.observer()),
        Question::Ends => Reply::Ends(ends_of(link)),
    }
}

// Both ends, with the packing of the record in hand and of the record delivered last.
fn ends_of<F, B, R: RecordKind>(link: &Link<F, B, R>) -> Ends
    ensures sender { (result.sender ≡ link.now.sender.label) × (result.state ≡ link.now.sender.state) }
    ensures receiver { result.receiver ≡ link.now.receiver.label }
    ensures records { (result.in_hand ≡ R.RecordKind.payload link.now.config.kind link.now.sender.in_hand) × (result.delivered ≡ R.RecordKind.payload link.now.config.kind link.now.receiver.delivered) }
{
    Ends {
        sender: link.sender().label,
        state: link.sender().state,
        in_hand: link.kind().pack(&link.sender().in_hand),
        receiver: link.receiver().label,
        delivered: link.held(),
    }
}
