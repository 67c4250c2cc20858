pub mod lookup;

// The arguments that a command code takes, from the lowest to the highest.
#[derive(Clone, Copy, PartialEq, Eq, Debug)]
pub struct Row {
    pub lowest: u32,
    pub highest: u32,
}

// A row for each code of four bits, or none where no command has the code.
pub type Rows = [Option<Row>; 16];

// The codes of the bench: 1 stop, 2 run in tenths of km/h, 3 choose axle, 4 set scale to zero, 5 lamp.
pub const ROWS: Rows = [
    None,
    Some(Row {
        lowest: 0,
        highest: 0,
    }),
    Some(Row {
        lowest: 1,
        highest: 60,
    }),
    Some(Row {
        lowest: 1,
        highest: 12,
    }),
    Some(Row {
        lowest: 0,
        highest: 0,
    }),
    Some(Row {
        lowest: 0,
        highest: 7,
    }),
    None,
    None,
    None,
    None,
    None,
    None,
    None,
    None,
    None,
    None,
];
