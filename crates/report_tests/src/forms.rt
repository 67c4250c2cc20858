// Every form of line, and what is close to one.
use crate::pages::reports;
use std::test::*;

#[test]
fn first_lines_of_no_form(rt: HostRuntime) -> Result<(), Fail> {
    reports(&rt, b"P 3 C 04\nt\n", b"? 12\n")?;
    reports(&rt, b"P 1 D 04\nt\n", b"? 12\n")?;
    reports(&rt, b"P 1 C 4\nt\n", b"? 12\n")?;
    reports(&rt, b"P  1 C 04\nt\n", b"? 12\n")?;
    reports(&rt, b"P 1 C 0a\nt\n", b"? 12\n")?;
    reports(&rt, b"P 1 C 04 \nt\n", b"? 12\n")?;
    reports(&rt, b"P 1 C 04\r\nt\n", b"? 12\n")?;
    reports(&rt, b"t\nP 1 C 04\n", b"? 12\n")
}

#[test]
fn label_counts_at_the_edges(rt: HostRuntime) -> Result<(), Fail> {
    reports(&rt, b"P 1 C 03\nt\n", b"P 3\n")?;
    reports(&rt, b"P 1 C 04\n", b"P 0\nsound 0 of 0\n")?;
    reports(&rt, b"P 1 G 00", b"P 0\nsound 0 of 0\n")?;
    reports(&rt, b"P 2 C 09", b"P 3\n")?;
    reports(&rt, b"P 2 G 0A", b"P 0\nsound 0 of 0\n")
}

#[test]
fn lines_of_no_form(rt: HostRuntime) -> Result<(), Fail> {
    reports(
        &rt,
        b"P 1 C 04\nP 1 C 04\n\nx\nss\ns \n",
        b"P 0\n? 12\n? 12\n? 12\n? 12\n? 12\nsound 0 of 0\n",
    )?;
    reports(
        &rt,
        b"P 1 C 04\no10000000\no 10000000\no 1000000000\no 10000000a\n",
        b"P 0\n? 12\n? 12\n? 12\n? 12\nsound 0 of 0\n",
    )?;
    reports(
        &rt,
        b"P 1 C 04\nS 1\nR 001\nF 0\nB 00000000000000000\n",
        b"P 0\n? 12\n? 12\n? 12\n? 12\nsound 0 of 0\n",
    )?;
    reports(
        &rt,
        b"P 1 C 04\n\0\n\xFF\nt\xC3\xA9\n",
        b"P 0\n? 12\n? 12\n? 12\nsound 0 of 0\n",
    )
}

#[test]
fn code_comes_before_busy(rt: HostRuntime) -> Result<(), Fail> {
    reports(
        &rt,
        b"P 1 C 04\no 000000000\no 100000000\no 000000000\no 100000000\n",
        b"P 0\no 11\no 0\no 11\no 4\nsound 0 of 0\n",
    )
}

#[test]
fn refused_calls(rt: HostRuntime) -> Result<(), Fail> {
    reports(
        &rt,
        b"P 1 G 04\ns\nh\na\nF 0000000000000000\nF 0000000000000000\nh\n",
        b"P 0\ns 5\nh 7 7\na 7\nF 0\nF 6\nh 8 7\nsound 0 of 0\n",
    )
}
