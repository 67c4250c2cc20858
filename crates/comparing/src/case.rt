pub mod split;

// What the other program says of a script: the bytes of its report, or the number of a refusal. It stays a number, since the
// other program may name one outside the table.
pub type Expected<'a> = Result<&'a [u8], u64>;

// A script under a name, and what the other program says of it.
#[derive(Clone, Copy)]
pub struct Case<'a> {
    pub name: &'a [u8],
    pub script: &'a [u8],
    pub expected: Expected<'a>,
}
