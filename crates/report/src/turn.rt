// One line of a script, on a link.
ghost use Rattle.std.specs.Prelude.{◌≡◌};
ghost use Rattle.link.specs.States.{state_of};
ghost use Rattle.report.specs.Anew.{anew_after};
ghost use Rattle.model.specs.Models.{model_of};
ghost use Rattle.report.specs.Lines.{outcome, offered, obeyed, answered};
ghost use Rattle.report.specs.declared.reply.Reply.TheVariants.{One};

use crate::reply::Reply;
use channel::Channel;
use link::Link;
use records::RecordKind;
use script::Order;
use shapes::Shaped;
use wire::Refusal;

// Answers a line, by what it asks for.
pub(crate) fn answer<F: Shaped, B: Shaped, R: RecordKind>(
    link: &mut Link<F, B, R>,
    order: Result<Order, Refusal>,
) -> Reply
    ensures { outcome result (model_of F.Shaped.shape B.Shaped.shape link.new) ≡ answered R.RecordKind.NUMBER R.RecordKind.payload R.RecordKind.reads order (model_of F.Shaped.shape B.Shaped.shape link.old) }
{
    match order {
        Ok(order) => obey(link, order),
        Err(refusal) => Reply::One(b'?', Err(refusal)),
    }
}

fn obey<F: Shaped, B: Shaped, R: RecordKind>(link: &mut Link<F, B, R>, order: Order) -> Reply
    ensures { outcome result (model_of F.Shaped.shape B.Shaped.shape link.new) ≡ obeyed R.RecordKind.NUMBER R.RecordKind.payload R.RecordKind.reads order (model_of F.Shaped.shape B.Shaped.shape link.old) }
{
    match order {
        Order::Offer(payload) => Reply::One(b'o', offer(link, payload)),
        Order::Send => Reply::One(b's', link.send()),
        Order::Hear => {
            let (heard, reply) = link.hear();
            Reply::Hear {
                heard,
                reply,
                payload: link.held(),
            }
        }
        Order::Settle => Reply::One(b'a', link.settle()),
        Order::Tick => Reply::One(b't', link.tick()),
        Order::Round => {
            let (sent, (heard, reply), settled) = link.round();
            Reply::Round {
                sent,
                heard,
                reply,
                settled,
                payload: link.held(),
            }
        }
        Order::SenderLabel(label) => {
            let answer = link.set_sender_label(label);
            handed_over(link, b'S', answer)
        }
        Order::ReceiverLabel(label) => {
            let answer = link.set_receiver_label(label);
            handed_over(link, b'R', answer)
        }
        Order::RawForward(word) => {
            let answer = link.put_forward(word);
            handed_over(link, b'F', answer)
        }
        Order::RawBack(word) => {
            let answer = link.put_back(word);
            handed_over(link, b'B', answer)
        }
    }
}

// A payload that is no record is turned away before the link is asked.
fn offer<F: Shaped, B: Shaped, R: RecordKind>(
    link: &mut Link<F, B, R>,
    payload: u64,
) -> Result<(), Refusal>
    ensures { outcome (One 111 result) (model_of F.Shaped.shape B.Shaped.shape link.new) ≡ offered R.RecordKind.NUMBER R.RecordKind.payload R.RecordKind.reads (R.RecordKind.reads link.old.config.kind payload) (model_of F.Shaped.shape B.Shaped.shape link.old) }
{
    let record = link.kind().unpack(payload)?;
    link.offer(record)
}

// After a fault that was accepted the link is handed over, so that from there on it recovers.
fn handed_over<F: Channel, B: Channel, R: RecordKind>(
    link: &mut Link<F, B, R>,
    letter: u8,
    answer: Result<(), Refusal>,
) -> Reply
    ensures reply { result ≡ One letter answer }
    ensures after { state_of link.new ≡ anew_after answer (state_of link.old) }
{
    if answer.is_ok() {
        link.handover();
    }
    Reply::One(letter, answer)
}
