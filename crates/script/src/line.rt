// The lines of a script after its first one.
ghost use Rattle.std.specs.Prelude.{◌≡◌, ◌^◌, ◌<◌, IfSome};
ghost use Rattle.script.specs.Lines.{spaced_number, bare_order, by_letter, order_of};

use crate::order::Order;
use text::hex::parse_hex;
use wire::Refusal;

// What a line asks for; refused `script` where it has no listed form.
pub fn parse_line(line: &[u8]) -> Result<Order, Refusal>
    ensures { result ≡ order_of line.now }
{
    let [first, rest @ ..] = line else {
        return Err(Refusal::Script);
    };
    by_letter(*first, rest).ok_or(Refusal::Script)
}

// The first letter decides.
fn by_letter(first: u8, rest: &[u8]) -> Option<Order>
    ensures { result ≡ by_letter first rest.now }
{
    match first as char {
        'o' => spaced_number(rest, 9).map(Order::Offer),
        's' => bare(rest, Order::Send),
        'h' => bare(rest, Order::Hear),
        'a' => bare(rest, Order::Settle),
        't' => bare(rest, Order::Tick),
        'r' => bare(rest, Order::Round),
        'S' => spaced_byte(rest).map(Order::SenderLabel),
        'R' => spaced_byte(rest).map(Order::ReceiverLabel),
        'F' => spaced_number(rest, 16).map(Order::RawForward),
        'B' => spaced_number(rest, 16).map(Order::RawBack),
        _ => None,
    }
}

// An order that takes nothing.
fn bare(rest: &[u8], order: Order) -> Option<Order>
    ensures { result ≡ bare_order rest.now order }
{
    rest.is_empty().then_some(order)
}

// A space, and then the number that so many digits write.
fn spaced_number(rest: &[u8], count: usize) -> Option<u64>
    ensures value { result ≡ spaced_number count rest.now }
    ensures below { IfSome result (λ n. n < 16 ^ count) }
{
    match rest {
        [b' ', digits @ ..] if digits.len() == count => parse_hex(digits),
        _ => None,
    }
}

// A space, and then the byte that two digits write.
fn spaced_byte(rest: &[u8]) -> Option<u8>
    ensures { result ≡ spaced_number 2 rest.now }
{
    u8::try_from(spaced_number(rest, 2)?).ok()
}
