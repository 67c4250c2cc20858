ghost use Rattle.std.specs.Prelude.{◌≡◌, ◌^◌, ◌<◌, IfSome, Some, OnSome};
ghost use Rattle.commands.specs.Table.{admits, allows_in, payload_in, fields_in};

use super::{Row, Rows};
use wire::bits::{join, low};

impl Row {
    // Whether the row takes this argument.
    pub fn admits(&self, argument: u32) -> bool
        ensures { result ≡ admits self.now argument }
    {
        self.lowest <= argument && argument <= self.highest
    }
}

// Whether a table takes a code with this argument.
pub fn allows(rows: &Rows, code: u8, argument: u32) -> bool
    ensures { result ≡ allows_in rows.now code argument }
{
    if code >= 16 {
        return false;
    }
    rows[code as usize].is_some_and(|row| row.admits(argument))
}

// The payload of a code and its argument, where the table takes them. It reads back.
pub fn payload_in(rows: &Rows, code: u8, argument: u32) -> Option<u64>
    ensures value { result ≡ payload_in rows.now code argument }
    ensures back { IfSome result (λ p. fields_in rows.now p ≡ Some (code, argument)) }
{
    if !allows(rows, code, argument) {
        return None;
    }
    Some(join(code as u64, 32, argument as u64))
}

// The code and the argument in a payload, where the table takes them. They have no other payload.
pub fn fields_in(rows: &Rows, payload: u64) -> Option<(u8, u32)>
    ensures value { result ≡ fields_in rows.now payload }
    ensures once { IfSome result (λ f. payload_in rows.now f.0 f.1 ≡ Some payload) }
    ensures short { OnSome result (payload < 2 ^ 36) }
{
    let code = u8::try_from(payload >> 32).ok()?;
    let argument = low(payload, 32) as u32;
    if !allows(rows, code, argument) {
        return None;
    }
    Some((code, argument))
}
