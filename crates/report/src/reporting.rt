// The report of a script.
ghost use Rattle.std.specs.Prelude.{◌≡◌, ◌+◌, ◌≤◌, length, IfOk};
ghost use Rattle.report.specs.Laws.{OneMore, EndsSound, Recovers, Stays};
ghost use Rattle.report.specs.Pages.{HasRoom, Put};
ghost use Rattle.report.specs.Reports.{report_text, report_of};

use crate::page::Page;
use crate::reply::Reply;
use crate::start::by_setup;
use script::parse_start;
use text::lines::split_line;
use wire::Refusal;

// A script has at most so many bytes.
pub const MOST_SCRIPT: usize = 4096;

// A page has at least so many bytes: the report of any such script fits.
pub const LEAST_PAGE: usize = 50_000;

// Writes the report of a script to a page, and answers its length. Refused `page` where the script is too long or the page
// too short. All bytes beyond the report stay as they are. Where the first line makes a link, each line has a line of the
// report, and there is one more, with the observer's numbers; lines added at the end leave the earlier answers as they are.
pub fn report(script: &[u8], page: &mut [u8]) -> Result<usize, Refusal>
    ensures answer { result ≡ (report_of script.now page.old).0 }
    ensures page { page.new ≡ (report_of script.now page.old).1 }
    ensures short { IfOk result (λ n. n ≤ 50000) }
    ensures lines { OneMore script.now }
    ensures sound { EndsSound script.now }
    ensures recovers { Recovers script.now }
    ensures stays { Stays script.now }
{
    put_if_fits(script, page)
}

fn put_if_fits(script: &[u8], page: &mut [u8]) -> Result<usize, Refusal>
    ensures answer { result ≡ (report_of script.now page.old).0 }
    ensures page { page.new ≡ (report_of script.now page.old).1 }
    ensures short { IfOk result (λ n. n ≤ 50000) }
{
    if script.len() > MOST_SCRIPT || page.len() < LEAST_PAGE {
        return Err(Refusal::Page);
    }
    let mut page = Page::new(page);
    put_report(script, &mut page);
    Ok(page.length())
}

#[tactic(auto, using(crate::proofs::Runs::lines_bytes))]
fn put_report(script: &[u8], page: &mut Page<'_>)
    requires { (length script.now ≤ 4096) × HasRoom page.old 50000 }
    ensures text { Put page.old (report_text script.now) page.new }
    ensures short { page.new.length ≤ page.old.length + 50000 }
{
    let Some((first, lines)) = split_line(script) else {
        return;
    };
    match parse_start(first) {
        Ok(start) => by_setup(start, lines, page),
        Err(refusal) => page.put_reply(Reply::One(b'?', Err(refusal))),
    }
}
