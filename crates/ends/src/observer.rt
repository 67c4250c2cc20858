pub mod counting;

// How many exchanges were completed, and which of them was the first that left the link clean, 0 while none has. Both stop at 65,535.
// The 0 is no Option, since reports and the C interface give both numbers as they stand.
#[derive(Clone, Copy, PartialEq, Eq, Debug)]
pub struct Observer {
    pub completed: u16,
    pub first: u16,
}
