ghost use Rattle.std.specs.Prelude.{Some};
ghost use Rattle.commands.specs.CommandText.{command_text};

use super::{Action, Command};
use std::fmt;

// What a command asks for, in words and plain units.
impl fmt::Display for Command {
    ghost output = { λ c. Some (command_text c) };

    fn fmt<W: fmt::Write>(&self, f: &mut fmt::Formatter<W>) -> fmt::Result {
        let argument = self.argument;
        match self.action() {
            Action::Stop => f.write_str("stop"),
            Action::Run => write!(f, "run at {}.{} km/h", argument / 10, argument % 10),
            Action::ChooseAxle => write!(f, "choose axle {argument}"),
            Action::ZeroScale => f.write_str("set scale to zero"),
            Action::Lamp => write!(f, "lamp {argument}"),
        }
    }
}
