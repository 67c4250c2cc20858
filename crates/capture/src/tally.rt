pub mod counts;

// How many lines of a capture carried what. The counts stop at the largest number.
#[derive(Clone, Copy, Debug)]
pub struct Tally {
    pub records: u64,
    pub acknowledgements: u64,
    pub unreadable: u64,
}
