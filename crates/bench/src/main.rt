// Prints the report of the script on standard input. Where it is refused, names the refusal on standard error.
#![tactic(auto)]

use report::report;
use std::io;
use std::io::{Read, Write};
use std::process::ExitCode;

fn main(rt: HostRuntime) -> io::Result<ExitCode> {
    let mut script = Vec::new(rt.alloc());
    rt.stdin().take(4097).read_to_end(&mut script)?;
    let mut page = vec![in rt.alloc(); 0u8; 50_000]?;
    match report(&script, &mut page) {
        Ok(length) => {
            rt.stdout().write_all(&page[0..length])?;
            Ok(ExitCode::SUCCESS)
        }
        Err(refusal) => {
            eprintln!(rt; "{refusal}")?;
            Ok(ExitCode::FAILURE)
        }
    }
}
