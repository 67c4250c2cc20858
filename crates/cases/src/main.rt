// Runs the report of each script in a file of cases on standard input, and compares it with what another program says.
#![tactic(auto)]

use comparing::{Cases, agrees};
use std::io;
use std::io::{Read, Write};

// Every report fits a page of so many bytes.
const PAGE: usize = 50_000;

fn main(rt: HostRuntime) -> io::Result<()> {
    let mut file = Vec::new(rt.alloc());
    rt.stdin().read_to_end(&mut file)?;
    let mut page = vec![in rt.alloc(); 0u8; PAGE]?;
    let mut cases = Cases::new(&file);
    let mut agree: u64 = 0;
    let mut disagree: u64 = 0;
    for case in cases.by_ref() {
        if agrees(case.script, case.expected, &mut page) {
            agree = agree.saturating_add(1);
        } else {
            disagree = disagree.saturating_add(1);
            rt.stdout().write_all(case.name)?;
            println!(rt; ": disagrees")?;
        }
    }
    let count = agree.saturating_add(disagree);
    print!(rt; "{count} cases: {agree} agree, {disagree} disagree")?;
    let rest = cases.rest();
    if rest.is_empty() {
        return println!(rt; "");
    }
    let place = file.len().saturating_sub(rest.len());
    println!(rt; "; the file has another form from byte {place} on")
}
