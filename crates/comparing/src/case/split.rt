// The cases of a file.
ghost use Rattle.std.specs.Prelude.{◌≡◌, ℕ, ◌<◌, ◌≤◌, List, ◌++◌, length, IfSome};
ghost use Rattle.std.specs.Iterator.{at_most};

use super::{Case, Expected};
use crate::header::{Claim, parse_header};
use std::marker::Model;
use text::lines::split_line;

// The cases of a file, one after another, as far as it has their form.
#[derive(Drop)]
pub struct Cases<'a> {
    rest: &'a [u8],
}

// In contracts it is what is left of the file.
impl<'a> Model for Cases<'a> {
    ghost Value = { List ℕ };

    ghost view = { λ s. s.rest.now };
}

impl<'a> Cases<'a> {
    pub fn new(file: &'a [u8]) -> Cases<'a>
        ensures { result ≡ file.now }
    {
        Cases { rest: file }
    }

    // What is left of the file: nothing, or what has another form.
    pub fn rest(&self) -> &'a [u8]
        ensures { result.now ≡ self.now }
    {
        self.rest // as the last call of `next` left it
    }
}

impl<'a> Iterator for Cases<'a> {
    type Item = Case<'a>;

    ghost remaining = { λ s. at_most (length s) };

    fn next(&mut self) -> Option<Case<'a>> {
        let (case, rest) = split_case(self.rest)?;
        self.rest = rest;
        Some(case)
    }
}

// The first case and what comes after it; nothing where the file breaks off or has another form.
pub fn split_case(file: &[u8]) -> Option<(Case<'_>, &[u8])>
    ensures shorter { IfSome result (λ p. length p.1.now < length file.now) }
{
    let (line, rest) = split_line(file)?;
    if line.len() == file.len() {
        return None;
    }
    let header = parse_header(line)?;
    let (script, rest) = split_bytes(rest, header.script)?;
    let (expected, rest) = split_expected(rest, header.claim)?;
    let name = header.name;
    Some((
        Case {
            name,
            script,
            expected,
        },
        rest,
    ))
}

// What is expected by the header, and what comes after its bytes.
fn split_expected(text: &[u8], claim: Claim) -> Option<(Expected<'_>, &[u8])>
    ensures shorter { IfSome result (λ p. length p.1.now ≤ length text.now) }
{
    match claim {
        Ok(count) => {
            let (report, rest) = split_bytes(text, count)?;
            Some((Ok(report), rest))
        }
        Err(number) => Some((Err(number), text)),
    }
}

// So many bytes, and what comes after them; nothing where there are fewer.
fn split_bytes(text: &[u8], count: u64) -> Option<(&[u8], &[u8])>
    ensures parts { IfSome result (λ p. (length p.0.now ≡ count) × (text.now ≡ p.0.now ++ p.1.now)) }
    ensures shorter { IfSome result (λ p. length p.1.now ≤ length text.now) }
{
    text.split_at_checked(usize::try_from(count).ok()?)
}
