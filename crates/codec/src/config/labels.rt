// Labels, and the kind and the label count that a link is made with.
ghost use Rattle.std.specs.Prelude.{◌≡◌, ◌+◌, ◌%◌, ◌<◌, ◌≤◌};
ghost use Rattle.codec.specs.Words.{label_count};

use super::Config;

// Words of 8 bits of label carry this many labels.
pub const MOST_LABELS: u16 = 256;

impl<R> Config<R> {
    // A label count outside 2 to 256 becomes 2.
    pub fn new(kind: R, labels: u16) -> Config<R>
        ensures kind { result.kind ≡ kind }
        ensures labels { result.labels ≡ label_count labels }
    {
        if labels < 2 || labels > MOST_LABELS {
            return Config { kind, labels: 2 };
        }
        Config { kind, labels }
    }

    pub fn kind(&self) -> &R
        ensures { result.now ≡ self.now.kind }
    {
        &self.kind
    }

    // How many labels there are.
    pub fn labels(&self) -> u16
        ensures { result ≡ self.now.labels }
    {
        self.labels
    }

    // A stored label as it is read: the remainder by the label count. Most are below it, and need no division.
    pub fn read_label(&self, label: u8) -> u8
        ensures { result ≡ label % self.now.labels }
    {
        if (label as u16) < self.labels {
            return label;
        }
        remainder(label, self.labels)
    }

    // The label after a stored one.
    pub fn next_label(&self, label: u8) -> u8
        ensures { result ≡ (label % self.now.labels + 1) % self.now.labels }
    {
        successor(self.read_label(label), self.labels)
    }
}

fn remainder(label: u8, labels: u16) -> u8
    requires { 0 < labels }
    ensures { result ≡ label % labels }
{
    (label as u16 % labels) as u8
}

// After the last label comes the first.
fn successor(label: u8, labels: u16) -> u8
    requires { (label < labels) × (labels ≤ 256) }
    ensures { result ≡ (label + 1) % labels }
{
    let next = label as u16 + 1;
    if next == labels { 0 } else { next as u8 }
}
