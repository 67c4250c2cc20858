ghost use Rattle.std.specs.Prelude.{◌≡◌, ◌<◌};
ghost use Rattle.records.specs.Kinds.{or_code};
ghost use Rattle.commands.specs.Commands.{action_code, action_of, command_of, stop_command};

use super::{Action, Command};
use crate::table::ROWS;
use crate::table::lookup::allows;
use wire::Refusal;

impl Command {
    // Refused `code` where the table does not take the code with this argument.
    pub fn new(code: u8, argument: u32) -> Result<Command, Refusal>
        ensures { result ≡ or_code (command_of code argument) }
    {
        if !allows(&ROWS, code, argument) {
            return Err(Refusal::Code);
        }
        Ok(Command { code, argument })
    }

    // The command to stop, which a new link of commands holds.
    pub fn stop() -> Command
        ensures { result ≡ stop_command }
    {
        Command {
            code: 1,
            argument: 0,
        }
    }

    pub fn code(&self) -> u8
        ensures { result ≡ self.now.code }
    {
        self.code
    }

    // Tenths of km/h, an axle or a lamp, by the action.
    pub fn argument(&self) -> u32
        ensures { result ≡ self.now.argument }
    {
        self.argument
    }

    pub fn action(&self) -> Action
        ensures value { result ≡ action_of self.now.code }
        ensures coded { action_code result ≡ self.now.code }
    {
        match self.code {
            1 => Action::Stop,
            2 => Action::Run,
            3 => Action::ChooseAxle,
            4 => Action::ZeroScale,
            _ => Action::Lamp,
        }
    }
}
