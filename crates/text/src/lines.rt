// A text, line by line. A line ends with a line feed, the last one also without.
ghost use Rattle.std.specs.Prelude.{◌≡◌, ◌<◌, ℕ, List, [], ◌∷◌, length, MatchOption};
ghost use Rattle.std.specs.Iterator.{YieldsFirstRef, item_count};
ghost use Rattle.std.specs.Option.{option_map};
ghost use Rattle.text.specs.Lines.{line_of, rest_of, lines_of};
ghost use Rattle.text.specs.Parts.{part_after};

use crate::parts::split_at_byte;
use std::marker::Model;

// The first line of a text and what comes after its end, or nothing where the text is empty.
pub fn split_line(text: &[u8]) -> Option<(&[u8], &[u8])>
    ensures parts { MatchOption result (text.now ≡ []) (λ p. (p.0.now ≡ line_of text.now) × (p.1.now ≡ rest_of text.now)) }
    ensures lines { MatchOption result (lines_of text.now ≡ []) (λ p. lines_of text.now ≡ p.0.now ∷ lines_of p.1.now) }
    ensures shorter { MatchOption result (length text.now ≡ 0) (λ p. length p.1.now < length text.now) }
{
    if text.is_empty() {
        return None;
    }
    let (line, rest) = first_line(text);
    Some((line, rest.unwrap_or(&[])))
}

// The first line, and what comes after its end, if it has one.
fn first_line(text: &[u8]) -> (&[u8], Option<&[u8]>)
    ensures line { result.0.now ≡ line_of text.now }
    ensures rest { option_map (λ x. x.now) result.1 ≡ part_after 10 text.now }
{
    split_at_byte(text, b'\n')
}

// The lines of a text, one after another.
#[derive(Drop)]
pub struct Lines<'a> {
    rest: &'a [u8],
}

// In contracts it is the text of the lines that are left.
impl<'a> Model for Lines<'a> {
    ghost Value = { List ℕ };

    ghost view = { λ s. s.rest.now };
}

impl<'a> Lines<'a> {
    pub fn new(text: &'a [u8]) -> Lines<'a>
        ensures { result ≡ text.now }
    {
        Lines { rest: text }
    }
}

impl<'a> Iterator for Lines<'a> {
    type Item = &'a [u8];

    ghost next_gives = { YieldsFirstRef lines_of };

    ghost remaining = { item_count lines_of };

    fn next(&mut self) -> Option<&'a [u8]> {
        let (line, rest) = split_line(self.rest)?;
        self.rest = rest;
        Some(line)
    }
}
