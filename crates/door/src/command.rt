ghost use Rattle.std.specs.Prelude.{◌≡◌};
ghost use Rattle.door.specs.CommandCalls.{command_parts};

pub mod calls;

use commands::Command;

// A command, its code a number as C has it: 1 stop, 2 run in tenths of km/h, 3 choose axle, 4 set scale to zero, 5 lamp; and its argument.
#[repr(C)]
#[derive(Clone, Copy)]
pub struct CommandParts {
    pub code: u8,
    pub argument: u32,
}

impl From<Command> for CommandParts {
    ghost from_gives = { λ command parts. parts ≡ command_parts command };

    fn from(command: Command) -> CommandParts {
        CommandParts {
            code: command.code(),
            argument: command.argument(),
        }
    }
}
