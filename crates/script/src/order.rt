// What a line of a script asks for: an offer by its payload, a call, a label byte, or a raw word on a channel. It is as flat as the lines
// are: of the faults of a link a script has these four alone.
#[derive(Clone, Copy, PartialEq, Eq, Debug)]
pub enum Order {
    Offer(u64),
    Send,
    Hear,
    Settle,
    Tick,
    Round,
    SenderLabel(u8),
    ReceiverLabel(u8),
    RawForward(u64),
    RawBack(u64),
}
