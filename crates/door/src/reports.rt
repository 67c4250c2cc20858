// Reports of scripts.
ghost use Rattle.std.specs.Prelude.{◌≡◌};
ghost use Rattle.wire.specs.Refusals.{answer_of};
ghost use Rattle.report.specs.Reports.{report_of};
ghost use Rattle.door.specs.Outputs.{after};

use crate::status::give;
use report::report;

// Writes the report of a script to a page, and its length; all bytes of the page beyond it stay. Refused `page` where the
// script has more than 4,096 bytes or the page fewer than 50,000.
#[unsafe(no_mangle)]
pub extern "C" fn gelmuska_report(script: &[u8], page: &mut [u8], length: &mut u64) -> u32
    ensures status { result ≡ answer_of (report_of script.now page.old).0 }
    ensures page { page.new ≡ (report_of script.now page.old).1 }
    ensures length { length.new ≡ after (report_of script.now page.old).0 length.old }
{
    give(report(script, page).map(|written| written as u64), length)
}
