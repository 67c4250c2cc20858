// The table of a series of trials.
use crate::watch::Broken;
use std::fmt;

// What the trials of one stack found, from 0 of everything on.
#[derive(Clone, Copy, Default)]
pub struct Row {
    pub labels: u16,
    pub starts: u64,
    pub calls: u64,
    pub exchanges: u64,
    // the latest first clean exchange, and the promised one
    pub latest: u64,
    pub latest_promised: u64,
    // the longest exchange in rounds, and the promised one
    pub longest: u64,
    pub longest_promised: u64,
    // the first promise that was broken, with the number of its start
    pub broken: Option<(u64, Broken)>,
}

impl fmt::Display for Row {
    fn fmt<W: fmt::Write>(&self, f: &mut fmt::Formatter<W>) -> fmt::Result {
        write!(
            f,
            "{:>6} {:>7} {:>9} {:>10}",
            self.labels, self.starts, self.calls, self.exchanges
        )?;
        write!(f, " {:>6} of {:<4}", self.latest, self.latest_promised)?;
        write!(f, " {:>5} of {}", self.longest, self.longest_promised)
    }
}
