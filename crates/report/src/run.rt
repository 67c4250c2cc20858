// The lines of a script after its first one, one after another.
ghost use Rattle.std.specs.Prelude.{◌+◌, ◌≤◌};
ghost use Rattle.text.specs.Lines.{lines_of};
ghost use Rattle.model.specs.Faults.{handover_of};
ghost use Rattle.model.specs.Models.{model_of};
ghost use Rattle.report.specs.Lines.{lines_text};
ghost use Rattle.report.specs.Pages.{HasRoom, Put};
ghost use Rattle.report.specs.Rooms.{lines_room};

use crate::page::Page;
use crate::turn::answer;
use link::Link;
use model::making::hand_over;
use records::RecordKind;
use script::parse_line;
use shapes::Shaped;
use text::lines::Lines;

// Hands a link over. A line of the report for each line of the script, and a last one with the observer's numbers.
pub(crate) fn run<F: Shaped + Drop, B: Shaped + Drop, R: RecordKind + Drop>(
    mut link: Link<F, B, R>,
    script: &[u8],
    page: &mut Page<'_>,
)
    requires { HasRoom page.old (lines_room (lines_of script.now)) }
    ensures text { Put page.old (lines_text R.RecordKind.NUMBER R.RecordKind.payload R.RecordKind.reads (handover_of (model_of F.Shaped.shape B.Shaped.shape link)) (lines_of script.now)) page.new }
    ensures short { page.new.length ≤ page.old.length + lines_room (lines_of script.now) }
{
    hand_over(&mut link);
    for line in Lines::new(script) {
        page.put_reply(answer(&mut link, parse_line(line)));
    }
    page.put_sound(link.observer());
}
