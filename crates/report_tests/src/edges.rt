// Scripts and pages at their limits.
use crate::pages::reports;
use report::report;
use std::test::*;
use wire::Refusal;

#[test]
fn nothing_and_next_to_nothing(rt: HostRuntime) -> Result<(), Fail> {
    reports(&rt, b"", b"")?;
    reports(&rt, b"\n", b"? 12\n")?;
    reports(&rt, b"\0", b"? 12\n")
}

#[test]
fn a_last_line_without_its_end(rt: HostRuntime) -> Result<(), Fail> {
    reports(&rt, b"P 1 C 04\nt", b"P 0\nt 0\nsound 0 of 0\n")?;
    reports(&rt, b"P 1 C 04\nt\n", b"P 0\nt 0\nsound 0 of 0\n")?;
    reports(&rt, b"P 1 C 04\nt\n\n", b"P 0\nt 0\n? 12\nsound 0 of 0\n")
}

#[test]
fn the_longest_script(rt: HostRuntime) -> Result<(), Fail> {
    let mut page = vec![in rt.alloc(); 46u8; 50_000]?;
    let script = vec![in rt.alloc(); b'\n'; 4_096]?;
    assert_eq!(rt; report(&script, &mut page), Ok(5));
    let script = vec![in rt.alloc(); b'\n'; 4_097]?;
    assert_eq!(rt; report(&script, &mut page), Err(Refusal::Page));
    Ok(())
}

#[test]
fn the_shortest_page(rt: HostRuntime) -> Result<(), Fail> {
    let mut page = vec![in rt.alloc(); 46u8; 49_999]?;
    assert_eq!(rt; report(b"", &mut page), Err(Refusal::Page));
    let mut page = vec![in rt.alloc(); 46u8; 50_000]?;
    assert_eq!(rt; report(b"", &mut page), Ok(0));
    Ok(())
}
