// A line, read field by field.
ghost use Rattle.std.specs.Prelude.{◌≡◌, ℕ, List, not, is_some, Some, Option};
ghost use Rattle.std.specs.Option.{option_map};
ghost use Rattle.fields.specs.Divided.{next_field, left_after, decimal_field, digits_field};

use crate::decimal::parse_decimal;
use std::marker::Model;
use text::hex::parse_hex;
use text::parts::split_at_byte;

// What is left of a line: nothing, or fields that single spaces divide.
#[derive(Drop)]
pub struct Fields<'a> {
    rest: Option<&'a [u8]>,
}

// In contracts it is the bytes that are left.
impl<'a> Model for Fields<'a> {
    ghost Value = { Option (List ℕ) };

    ghost view = { λ s. option_map (λ x. x.now) s.rest };
}

impl<'a> Fields<'a> {
    // A line has at least one field, which may be empty.
    pub fn new(line: &'a [u8]) -> Fields<'a>
        ensures { result ≡ Some line.now }
    {
        Fields { rest: Some(line) }
    }

    // The next field; nothing after the last.
    pub fn word(&mut self) -> Option<&'a [u8]>
        ensures value { option_map (λ x. x.now) result ≡ next_field self.old }
        ensures after { self.new ≡ left_after self.old }
    {
        let (field, rest) = split_at_byte(self.rest?, b' ');
        self.rest = rest;
        Some(field)
    }

    // The next field as a decimal number, at most so large.
    pub fn number(&mut self, most: u64) -> Option<u64>
        ensures value { result ≡ decimal_field most (next_field self.old) }
        ensures after { self.new ≡ left_after self.old }
    {
        parse_decimal(self.word()?).filter(|n| *n <= most)
    }

    // The next field as a number of exactly so many upper-case hexadecimal digits.
    pub fn digits(&mut self, count: usize) -> Option<u64>
        ensures value { result ≡ digits_field count (next_field self.old) }
        ensures after { self.new ≡ left_after self.old }
    {
        let field = self.word()?;
        if field.len() != count {
            return None;
        }
        parse_hex(field)
    }

    // Whether all fields were read.
    pub fn is_done(&self) -> bool
        ensures { result ≡ not (is_some self.now) }
    {
        self.rest.is_none()
    }
}
