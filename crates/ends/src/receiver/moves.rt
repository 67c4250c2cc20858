// What a receiver does.
ghost use Rattle.std.specs.Prelude.{◌≡◌};

use super::Receiver;

impl<T: Copy> Receiver<T> {
    // A receiver with label 0, as if this record had been delivered.
    pub fn new(r: T) -> Receiver<T>
        ensures { result ≡ record { label = 0; delivered = r } }
    {
        Receiver {
            label: 0,
            delivered: r,
        }
    }

    // It adopts a label, and the record under it is delivered.
    pub fn adopt(&mut self, label: u8, r: T)
        ensures { self.new ≡ record { label = label; delivered = r } }
    {
        *self = Receiver {
            label,
            delivered: r,
        };
    }
}
