// Lines of the lab, read field by field.
use super::{Fault, Line, Making, OnChannel, Order, Pair, Question, Side, Sizes};
use fields::Fields;
use link::{Call, State};
use script::kind_of;

// What a line asks for; nothing where it has no listed form.
pub fn parse_line(line: &[u8]) -> Option<Line> {
    let mut fields = Fields::new(line);
    let parsed = match fields.word()? {
        b"link" => Line::Link(making(&mut fields)?),
        name => Line::Order(order(name, &mut fields)?),
    };
    fields.is_done().then_some(parsed)
}

fn making(fields: &mut Fields<'_>) -> Option<Making> {
    let pair = match fields.number(5)? {
        1 => Pair::Losses,
        2 => Pair::Rings,
        3 => Pair::DelayLines,
        4 => Pair::Relays,
        5 => Pair::LossOverRelay,
        _ => return None,
    };
    let [letter] = fields.word()? else {
        return None;
    };
    let kind = kind_of(*letter)?;
    let labels = number(fields)?;
    let sizes = sizes(fields)?;
    Some(Making {
        pair,
        kind,
        labels,
        sizes,
    })
}

fn sizes(fields: &mut Fields<'_>) -> Option<Sizes> {
    Some(Sizes {
        x: fields.digits(16)?,
        y: fields.digits(16)?,
        a: number(fields)?,
        b: number(fields)?,
        c: number(fields)?,
        d: number(fields)?,
    })
}

// The orders by their names.
fn order(name: &[u8], fields: &mut Fields<'_>) -> Option<Order> {
    Some(match name {
        b"ask" => Order::Channel(side(fields)?, OnChannel::Ask),
        b"peek" => Order::Channel(side(fields)?, OnChannel::Peek(number(fields)?)),
        b"put" => Order::Channel(side(fields)?, OnChannel::Put(fields.digits(16)?)),
        b"discard" => Order::Channel(side(fields)?, OnChannel::Discard),
        b"sender" => Order::Fault(Fault::SenderLabel(number(fields)?)),
        b"receiver" => Order::Fault(Fault::ReceiverLabel(number(fields)?)),
        b"state" => Order::Fault(Fault::State(state(fields)?)),
        b"hand" => Order::Fault(Fault::Hand(fields.digits(9)?)),
        b"offer" => Order::Call(Call::Offer(fields.digits(9)?)),
        b"send" => Order::Call(Call::Send),
        b"hear" => Order::Call(Call::Hear),
        b"settle" => Order::Call(Call::Settle),
        b"tick" => Order::Call(Call::Tick),
        b"round" => Order::Call(Call::Round),
        b"spin" => Order::Spin(number(fields)?),
        b"handover" => Order::Handover,
        b"check" => Order::Question(Question::Check),
        b"clean" => Order::Question(Question::Clean),
        b"observer" => Order::Question(Question::Observer),
        b"ends" => Order::Question(Question::Ends),
        _ => return None,
    })
}

fn side(fields: &mut Fields<'_>) -> Option<Side> {
    match fields.word()? {
        b"f" => Some(Side::Forward),
        b"b" => Some(Side::Back),
        _ => None,
    }
}

fn state(fields: &mut Fields<'_>) -> Option<State> {
    match fields.number(1)? {
        0 => Some(State::Idle),
        _ => Some(State::UnderWay),
    }
}

// A number that its type holds.
fn number<T: TryFrom<u64>>(fields: &mut Fields<'_>) -> Option<T>
where
    T::Error: Drop,
{
    T::try_from(fields.number(u64::MAX)?).ok()
}
