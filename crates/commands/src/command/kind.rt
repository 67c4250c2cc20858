ghost use Rattle.std.specs.Prelude.{◌≡◌};
ghost use Rattle.commands.specs.Commands.{command_payload, command_reads};
ghost use Rattle.commands.specs.CommandLaws as laws;
ghost use Rattle.std.proofs.Common.{rules};

use super::Command;
use crate::table::ROWS;
use crate::table::lookup::{fields_in, payload_in};
use records::kind::RecordKind;
use wire::Refusal;

// The kind of commands.
#[derive(Clone, Copy)]
pub struct Commands;

impl RecordKind for Commands {
    type Record = Command;

    ghost NUMBER = { 1 };

    ghost LETTER = { 67 };

    ghost payload = { λ k r. command_payload r };

    ghost reads = { λ k p. command_reads p };

    const NUMBER: u8 = 1;

    const LETTER: u8 = b'C';

    ghost numbered = { Prim.search rules };

    ghost small = { λ k r. laws.small r };

    ghost short = { λ k p r e. laws.short p r e };

    ghost back = { λ k r. laws.back r };

    ghost once = { λ k p r e. laws.once p r e };

    fn pack(&self, r: &Command) -> u64 {
        payload_in(&ROWS, r.code, r.argument).unwrap()
    }

    fn unpack(&self, p: u64) -> Result<Command, Refusal> {
        let (code, argument) = fields_in(&ROWS, p).ok_or(Refusal::Code)?;
        Ok(Command { code, argument })
    }
}
