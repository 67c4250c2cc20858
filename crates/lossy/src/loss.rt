ghost use Rattle.std.specs.Prelude.{◌^◌, ◌<◌};

pub mod calls;

// A channel that loses words by a pattern of 64 bits, over another channel.
#[derive(Drop)]
pub struct Loss<C> {
    pattern: u64,
    below: C,
    ghost bits: { pattern < 2 ^ 64 },
}
