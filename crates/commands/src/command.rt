ghost use Rattle.std.specs.Prelude.{◌≡◌, true};
ghost use Rattle.commands.specs.Table.{rows, allows_in};

pub mod kind;
pub mod text;
pub mod values;

// A command that the table takes. Its code stays a number and `action` names it: an enum with the arguments in its variants would say
// once more what the table says.
#[derive(Clone, Copy, PartialEq, Eq, Debug)]
pub struct Command {
    code: u8,
    argument: u32,
    ghost allowed: { allows_in rows code argument ≡ true },
}

// What a command asks of the bench.
#[derive(Clone, Copy, PartialEq, Eq, Debug)]
pub enum Action {
    Stop = 1,
    Run = 2,
    ChooseAxle = 3,
    ZeroScale = 4,
    Lamp = 5,
}
