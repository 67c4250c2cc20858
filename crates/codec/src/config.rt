ghost use Rattle.std.specs.Prelude.{◌≤◌};

pub mod labels;
pub mod words;

// What is fixed when a link is made: its record kind, and how many labels it has.
#[derive(Drop)]
pub struct Config<R> {
    kind: R,
    labels: u16,
    ghost range: { (2 ≤ labels) × (labels ≤ 256) },
}
