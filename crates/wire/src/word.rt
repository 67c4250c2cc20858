ghost use Rattle.std.specs.Prelude.{◌^◌, ◌<◌};

pub mod codec;

// What a word carries besides its check: a label, a kind of 4 bits and a payload of 36. The kind is a number here: which kinds there
// are is said above the wire.
#[derive(Clone, Copy, PartialEq, Eq, Debug)]
pub struct Word {
    pub label: u8,
    pub kind: u8,
    pub payload: u64,
    ghost fits: { (label < 256) × (kind < 16) × (payload < 2 ^ 36) },
}
