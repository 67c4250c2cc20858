// Whether our report says what the other program says.
ghost use Rattle.std.specs.Prelude.{◌≡◌, Decides};
ghost use Rattle.report.specs.Reports.{report_of};
ghost use Rattle.comparing.specs.Agreement.{Agreed, Has};

use crate::case::Expected;
use report::report;

// Runs the report of a script on a page, and says whether the answer and every byte are the expected ones.
pub fn agrees(script: &[u8], expected: Expected<'_>, page: &mut [u8]) -> bool
    ensures { Decides result (Agreed (report_of script.now page.old).0 (report_of script.now page.old).1 expected.entry) }
{
    match (report(script, page), expected) {
        (Ok(length), Ok(bytes)) => has_bytes(page, length, bytes),
        (Err(refusal), Err(number)) => refusal.number() as u64 == number,
        _ => false,
    }
}

// Whether a page begins with exactly these bytes up to a length.
fn has_bytes(page: &[u8], length: usize, bytes: &[u8]) -> bool
    ensures { Decides result (Has page.now length bytes.now) }
{
    page.get(..length) == Some(bytes)
}
