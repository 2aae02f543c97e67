//! The line files, and the lines of a text.
//!
//! A line is the bytes up to a newline; what stands after the last newline is a line where it isn't
//! empty. A carriage return is an ordinary byte. This project's own.

pub mod file;
pub mod globs2;
pub mod icons;
mod names;
pub mod pairs;

ghost use Rattle.std.specs.Prelude.{◌≡◌, ◌<◌, [], ◌∷◌, length, MatchOption};
ghost use Rattle.mime_text.specs.Lines.{line_fields, is_passed, lines};

use bstr::ByteSlice;
use memchr::memchr;
use std::marker::Model;

/// The lines of a text, first to last.
#[derive(Drop)]
pub struct Lines<'a> {
    rest: &'a [u8],
}

impl<'a> Model for Lines<'a> {
    ghost use Rattle.std.specs.Prelude.{ℕ, List};
    ghost use Rattle.mime_text.specs.Lines.{lines};

    ghost Value = { List (List ℕ) };

    ghost view = { λ s. lines s.rest.now };
}

impl<'a> Lines<'a> {
    /// The lines of this text.
    pub fn new(text: &'a [u8]) -> Lines<'a>
        // Going over them gives the lines of the text, in their order.
        ensures { result ≡ lines text.now }
    {
        Lines { rest: text }
    }
}

impl<'a> Iterator for Lines<'a> {
    ghost use Rattle.std.specs.Iterator.{YieldsFirstRef, item_count};

    type Item = &'a [u8];

    ghost next_gives = { YieldsFirstRef (λ left. left) };

    ghost remaining = { item_count (λ left. left) };

    fn next(&mut self) -> Option<&'a [u8]> {
        if self.rest.is_empty() {
            return None;
        }
        let (line, rest) = cut_line(self.rest);
        self.rest = rest;
        Some(line)
    }
}

/// The first line of a text, and the bytes after its newline.
fn cut_line(text: &[u8]) -> (&[u8], &[u8])
    requires { 0 < length text.now }
    ensures { lines text.now ≡ result.0.now ∷ lines result.1.now }
{
    match memchr(b'\n', text) {
        Some(end) => (&text[..end], &text[end + 1..]),
        None => (text, &[]),
    }
}

/// Whether a line is empty or a comment.
pub fn is_passed(line: &[u8]) -> bool
    // It is true of a line without a byte and of one that begins with `#`.
    ensures { result ≡ is_passed line.now }
{
    match line.first() {
        Some(first) => *first == b'#',
        None => true,
    }
}

/// The fields of a line that are left, first to last. Each is sought by its end alone, and none is copied.
#[derive(Drop)]
pub struct Fields<'a> {
    separator: u8,
    rest: &'a [u8],
    /// Whether a field is left, which may be empty.
    goes_on: bool,
}

impl<'a> Model for Fields<'a> {
    ghost use Rattle.std.specs.Prelude.{ℕ, List, [], if◌then◌else◌};
    ghost use Rattle.mime_text.specs.Lines.{line_fields};

    ghost Value = { List (List ℕ) };

    ghost view = { λ s. if s.goes_on then line_fields s.separator s.rest.now else [] };
}

impl<'a> Fields<'a> {
    /// The fields of a line, which stand between the separators.
    pub fn new(line: &'a [u8], separator: u8) -> Fields<'a>
        // The fields are what is between the separators, in their order.
        ensures { result ≡ line_fields separator line.now }
    {
        Fields {
            separator,
            rest: line,
            goes_on: true,
        }
    }
}

impl<'a> Iterator for Fields<'a> {
    ghost use Rattle.std.specs.Iterator.{YieldsFirstRef, item_count};

    type Item = &'a [u8];

    ghost next_gives = { YieldsFirstRef (λ left. left) };

    ghost remaining = { item_count (λ left. left) };

    fn next(&mut self) -> Option<&'a [u8]> {
        if !self.goes_on {
            return None;
        }
        match cut_field(self.rest, self.separator) {
            Some((field, rest)) => {
                self.rest = rest;
                Some(field)
            }
            None => {
                self.goes_on = false;
                Some(self.rest)
            }
        }
    }
}

/// The bytes before the first separator and those after it.
pub fn cut_field(line: &[u8], separator: u8) -> Option<(&[u8], &[u8])>
    // They are the first field and the bytes of the others, or none where the line is one field.
    ensures { MatchOption result (line_fields separator line.now ≡ line.now ∷ [])
        (λ parts. line_fields separator line.now ≡ parts.0.now ∷ line_fields separator parts.1.now) }
{
    match line.find_byte(separator) {
        Some(end) => Some((&line[..end], &line[end + 1..])),
        None => None,
    }
}
