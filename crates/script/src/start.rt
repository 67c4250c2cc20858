// The first line of a script: the link that it is about.
pub mod parse;

// Which of the standard channels a link has.
#[derive(Clone, Copy, PartialEq, Eq, Debug)]
pub enum Setup {
    First,
    Second,
}

// Which records a link carries.
#[derive(Clone, Copy, PartialEq, Eq, Debug)]
pub enum Kind {
    Commands,
    Readings,
}

#[derive(Clone, Copy, PartialEq, Eq, Debug)]
pub struct Start {
    pub setup: Setup,
    pub kind: Kind,
    pub labels: u16,
}
