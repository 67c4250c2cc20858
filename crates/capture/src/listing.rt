ghost use Rattle.std.specs.Prelude.{◌≡◌, [], ◌∷◌, ◌++◌, IfOk, string_bytes, OnOk};
ghost use Rattle.capture.specs.Reports.{line_text, report_of};

use crate::message::decode::decode;
use crate::message::{Fault, Message};
use crate::tally::Tally;
use std::alloc::Global;
use std::fmt;
use text::lines::Lines;

// A line for each line of a capture, and a last one with the counts. An `Err` says that there is no memory.
pub fn report(heap: Global, capture: &[u8]) -> Result<String, fmt::Error>
    ensures { IfOk result (λ s. string_bytes s ≡ report_of capture.now) }
{
    let mut page = String::new(heap);
    let mut tally = Tally::new();
    for line in Lines::new(capture) {
        let found = decode(line);
        add_line(&mut page, found)?;
        tally = tally.after(found);
    }
    writeln!(page, "{tally}")?;
    Ok(page)
}

fn add_line(page: &mut String, found: Result<Message, Fault>) -> fmt::Result
    ensures { OnOk result (string_bytes page.new ≡ string_bytes page.old ++ line_text found) }
{
    match found {
        Ok(message) => writeln!(page, "{message}")?,
        Err(fault) => writeln!(page, "{fault}")?,
    }
    Ok(())
}
