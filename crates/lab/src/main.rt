// Answers the lines on standard input, which ask links for what no script of the bench reaches.
#![tactic(auto)]

use lab_lines::answers;
use std::io;
use std::io::Read;

fn main(rt: HostRuntime) -> io::Result<()> {
    let mut lines = Vec::new(rt.alloc());
    rt.stdin().read_to_end(&mut lines)?;
    let page = answers(rt.alloc(), &lines).map_err(|_| io::Error::other(
        "no memory for the answers",
    ))?;
    rt.print(page)
}
