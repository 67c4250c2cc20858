pub mod text;

// Why a call was refused. The discriminants are the refusal table's numbers; 0 means done.
#[derive(Clone, Copy, PartialEq, Eq, Debug)]
pub enum Refusal {
    Size = 1,
    Span = 2,
    Labels = 3,
    Busy = 4,
    Idle = 5,
    Full = 6,
    Silent = 7,
    Spoilt = 8,
    Repeat = 9,
    Stale = 10,
    Code = 11,
    Script = 12,
    Place = 13,
    Page = 14,
}
