// The link that a script's first line asks for, and the script's other lines on it.
ghost use Rattle.std.specs.Prelude.{◌+◌, ◌≤◌};
ghost use Rattle.text.specs.Lines.{lines_of};
ghost use Rattle.report.specs.Pages.{HasRoom, Put};
ghost use Rattle.report.specs.Rooms.{opened_room};
ghost use Rattle.report.specs.Starts.{kind_text, setup_text};

use crate::page::Page;
use crate::reply::Reply;
use crate::run::run;
use commands::{Command, Commands};
use link::check;
use model::making::make;
use readings::{Reading, Readings};
use script::{Kind, Setup, Start};
use setups::{first_back, first_forward, second_back, second_forward};
use shapes::Shaped;

// By the set-up. The lines that are read and the page that is written stay two parameters: nothing but `run` looks at both.
pub(crate) fn by_setup(start: Start, lines: &[u8], page: &mut Page<'_>)
    requires { HasRoom page.old (opened_room (lines_of lines.now)) }
    ensures text { Put page.old (setup_text start (lines_of lines.now)) page.new }
    ensures short { page.new.length ≤ page.old.length + opened_room (lines_of lines.now) }
{
    match start.setup {
        Setup::First => by_kind(start, first_forward(), first_back(), lines, page),
        Setup::Second => by_kind(start, second_forward(), second_back(), lines, page),
    }
}

// By the kind, over any channels. A refused check is all that is answered.
fn by_kind<F: Shaped + Drop, B: Shaped + Drop>(
    start: Start,
    forward: F,
    back: B,
    lines: &[u8],
    page: &mut Page<'_>,
)
    requires { HasRoom page.old (opened_room (lines_of lines.now)) }
    ensures text { Put page.old (kind_text start.kind start.labels (F.Shaped.shape forward) (B.Shaped.shape back) (lines_of lines.now)) page.new }
    ensures short { page.new.length ≤ page.old.length + opened_room (lines_of lines.now) }
{
    let Start { kind, labels, .. } = start;
    let answer = check(&forward, &back, labels);
    page.put_reply(Reply::One(b'P', answer));
    if answer.is_err() {
        return;
    }
    match kind {
        Kind::Commands => run(
            make(Commands, labels, forward, back, Command::stop()),
            lines,
            page,
        ),
        Kind::Readings => run(
            make(Readings, labels, forward, back, Reading::at_rest()),
            lines,
            page,
        ),
    }
}
