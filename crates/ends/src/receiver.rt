pub mod moves;

// The receiving end, with the record delivered last. Its label is stored as the sender's is.
#[derive(Clone, Copy)]
pub struct Receiver<T> {
    pub label: u8,
    pub delivered: T,
}
