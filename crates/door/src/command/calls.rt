// Commands and their payloads.
ghost use Rattle.std.specs.Prelude.{◌≡◌};
ghost use Rattle.wire.specs.Refusals.{answer_of};
ghost use Rattle.door.specs.Outputs.{after};
ghost use Rattle.door.specs.CommandCalls.{packed_command, unpacked_command};

use super::CommandParts;
use crate::status::give;
use commands::{Command, Commands};
use records::RecordKind;

// The payload of a command. Refused `code` where the table does not take the code with this argument.
#[unsafe(no_mangle)]
pub extern "C" fn gelmuska_command_pack(parts: &CommandParts, payload: &mut u64) -> u32
    ensures status { result ≡ answer_of (packed_command parts.now) }
    ensures payload { payload.new ≡ after (packed_command parts.now) payload.old }
{
    let command = Command::new(parts.code, parts.argument);
    give(command.map(|command| Commands.pack(&command)), payload)
}

// The command that a payload is. Refused `code` where it is none.
#[unsafe(no_mangle)]
pub extern "C" fn gelmuska_command_unpack(payload: u64, parts: &mut CommandParts) -> u32
    ensures status { result ≡ answer_of (unpacked_command payload) }
    ensures parts { parts.new ≡ after (unpacked_command payload) parts.old }
{
    give(Commands.unpack(payload).map(CommandParts::from), parts)
}
