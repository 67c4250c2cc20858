pub mod calls;

// Two channels in a row: words enter the upper, move down to the lower at ticks, and leave the lower.
#[derive(Drop)]
pub struct Relay<U, L> {
    upper: U,
    lower: L,
}
