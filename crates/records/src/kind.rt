ghost use Rattle.std.specs.Prelude.{◌≡◌, ℕ, ◌^◌, ◌<◌, Some, Option};
ghost use Rattle.records.specs.Kinds.{or_code};

use wire::Refusal;

// A record kind: its number and letter, and how its records stand in 36 bits. The kind is a value that a link holds.
pub trait RecordKind {
    type Record: Copy;

    ghost NUMBER: { ℕ };

    ghost LETTER: { ℕ };

    // the payload of each record
    ghost payload: { Self → Self.Record → ℕ };

    // the record that each payload reads as, if it is one
    ghost reads: { Self → ℕ → Option Self.Record };

    const NUMBER: u8;

    const LETTER: u8;

    fn pack(&self, r: &Self::Record) -> u64
        ensures { result ≡ payload self.now r.now };

    // Refused `code` where the payload is no record.
    fn unpack(&self, p: u64) -> Result<Self::Record, Refusal>
        ensures { result ≡ or_code (reads self.now p) };

    ghost numbered: { (0 < NUMBER) × (NUMBER < 16) };

    ghost small: { (k : Self) (r : Self.Record) → payload k r < 2 ^ 36 };

    ghost short: { (k : Self) (p : ℕ) (r : Self.Record) → reads k p ≡ Some r → p < 2 ^ 36 };

    // what is packed unpacks to the same record
    ghost back: { (k : Self) (r : Self.Record) → reads k (payload k r) ≡ Some r };

    // a payload that unpacks is the packing of what came out
    ghost once: { (k : Self) (p : ℕ) (r : Self.Record) → reads k p ≡ Some r → payload k r ≡ p };
}
