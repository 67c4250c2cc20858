// Says what each word of a captured wire carries. Reads the capture from standard input.
#![tactic(auto)]

use capture::report;
use std::io;
use std::io::Read;

fn main(rt: HostRuntime) -> io::Result<()> {
    let mut capture = Vec::new(rt.alloc());
    rt.stdin().read_to_end(&mut capture)?;
    let page = report(rt.alloc(), &capture).map_err(|_| io::Error::other(
        "no memory for the report",
    ))?;
    rt.print(page)
}
