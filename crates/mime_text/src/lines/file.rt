//! The reader of a line file: `globs2`, `aliases`, `subclasses` and the icon files.
//!
//! Each line of such a file is empty or a comment and skipped, or spells an entry, or is
//! malformed. What the entries are, and how a line spells one, is all in which the files differ.

ghost use Rattle.std.specs.Prelude.{◌≡◌, ◌++◌, ◌∷◌, [], if◌then◌else◌, IfOk, OnOk, ℕ, List, Option};
ghost use Rattle.std.specs.Option.{option_to_list};
ghost use Rattle.mime_text.specs.Lines.{skipped_of};
ghost use Rattle.mime_text.specs.Lines.File.{as_entry, entries_by, is_malformed, line_by};

use super::{Lines, is_passed};
use mime_base::OutOfMemory;
use std::alloc::Global;

/// Room for an entry is made for that many bytes of a file, of which most lines have more.
const BYTES_OF_A_LINE: usize = 24;

/// Room for at most that many entries is made before a file is read.
const ENTRIES_AT_FIRST: usize = 4_096;

/// An entry that one line of a file spells.
pub trait LineEntry: Drop {
    /// The entry that a line spells, which is neither empty nor a comment.
    ghost entry_of: { List ℕ → Option Self };

    /// The entry that a line spells, or `None` where it is malformed.
    fn read(alloc: Global, line: &[u8]) -> Result<Option<Self>, OutOfMemory>
        // It is the entry of the line, or none where the line is malformed.
        ensures { IfOk result (λ entry. entry ≡ entry_of line.now) };
}

/// What a line of a file spells.
#[derive(Debug, Drop)]
pub enum Line<T> {
    /// An entry.
    Spelled(T),
    /// Nothing: the line is empty or a comment.
    Passed,
    /// Nothing: the line is malformed.
    Malformed,
}

/// What a line file says.
#[derive(Debug, Drop)]
pub struct LineFile<T> {
    /// The entries, in the order of their lines.
    pub entries: Vec<T>,
    /// The numbers of the malformed lines, rising and counted from 1.
    pub skipped: Vec<u64>,
}

/// Reads a line file.
#[tactic(auto, unfolding(crate::specs::Lines::File::entries_by, crate::specs::Lines::skipped_of))]
pub fn read_lines<T: LineEntry>(alloc: Global, bytes: &[u8]) -> Result<LineFile<T>, OutOfMemory>
    // The entries are those that the lines spell, in their order, repetitions kept.
    ensures entries { IfOk result (λ file. file.entries.items ≡ entries_by T.entry_of bytes.now) }
    // The numbers of the malformed lines, rising; the first line is 1, and empty lines and comments count too.
    ensures skipped { IfOk result (λ file. file.skipped.items
        ≡ skipped_of (λ line. is_malformed (line_by T.entry_of line)) bytes.now) }
{
    let room = (bytes.len() / BYTES_OF_A_LINE).min(ENTRIES_AT_FIRST);
    let mut file = LineFile {
        entries: Vec::with_capacity(alloc, room)?,
        skipped: Vec::new(alloc),
    };
    let mut number = 0;
    for line in Lines::new(bytes) {
        number += 1;
        file.add(number, spelled(alloc, line)?)?;
    }
    Ok(file)
}

impl<T: LineEntry> LineFile<T> {
    /// Adds what the line of this number spells.
    fn add(&mut self, number: u64, line: Line<T>) -> Result<(), OutOfMemory>
        ensures entries { OnOk result
            (self.new.entries.items ≡ self.old.entries.items ++ option_to_list (as_entry line)) }
        ensures skipped { OnOk result (self.new.skipped.items
            ≡ self.old.skipped.items ++ (if is_malformed line then number ∷ [] else [])) }
    {
        match line {
            Line::Spelled(entry) => self.entries.push(entry)?,
            Line::Passed => {}
            Line::Malformed => self.skipped.push(number)?,
        }
        Ok(())
    }
}

/// What one line spells.
fn spelled<T: LineEntry>(alloc: Global, line: &[u8]) -> Result<Line<T>, OutOfMemory>
    ensures { IfOk result (λ spelled. spelled ≡ line_by T.entry_of line.now) }
{
    if is_passed(line) {
        return Ok(Line::Passed);
    }
    Ok(match T::read(alloc, line)? {
        Some(entry) => Line::Spelled(entry),
        None => Line::Malformed,
    })
}
