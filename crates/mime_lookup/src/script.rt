//! A content that follows a script, for tests and examples. This project's own.

ghost use Rattle.std.specs.Prelude.{◌≡◌, ◌≤◌, [], length};
ghost use Rattle.std.specs.Io.{ReadsAtMost};
ghost use Rattle.std.specs.Io.KnownBytes.{ReadConsumes};
ghost use Rattle.mime_lookup.specs.Content.{Counts, KeepsHealth};

use crate::content::{Content, ReadFault};
use std::io;
use std::io::{ErrorKind, Read};

/// What a read of a [`Script`] meets.
#[derive(Clone, Copy, Debug)]
pub enum Step<'a> {
    /// These bytes come, in one read if its buffer has room for them.
    Piece(&'a [u8]),
    /// The read is interrupted.
    Interruption,
    /// The read fails.
    Fault,
}

/// A content whose reads meet given steps, one after another, and then the end.
///
/// A piece without bytes is skipped. A read after the end gives no bytes.
#[derive(Clone, Copy, Debug)]
pub struct Script<'a> {
    /// What is left of the piece that was met last.
    piece: &'a [u8],
    /// All steps.
    steps: &'a [Step<'a>],
    /// How many of them were met.
    met: usize,
    ghost within: { met ≤ length steps.now },
}

impl<'a> Script<'a> {
    ghost use Rattle.mime_lookup.specs.Script.{bytes_left, health_left, tally_of};

    /// A content whose reads meet these steps.
    pub fn new(steps: &'a [Step<'a>]) -> Script<'a>
        // No piece is begun.
        ensures piece { result.piece.now ≡ [] }
        // All steps are still to come.
        ensures steps { result.steps.now ≡ steps.entry.now }
        // None was met.
        ensures met { result.met ≡ 0 }
    {
        Script {
            piece: &[],
            steps,
            met: 0,
        }
    }

    /// One read.
    fn next_piece(&mut self, buffer: &mut [u8]) -> Result<usize, ReadFault>
        ensures bound { ReadsAtMost result buffer.new }
        ensures bytes { ReadConsumes (bytes_left self.old) (bytes_left self.new) result buffer.new }
        ensures told { Counts (tally_of self.old) (tally_of self.new) result }
        ensures healthy { KeepsHealth (health_left self.old) (health_left self.new) result }
    {
        while self.piece.is_empty() && self.met < self.steps.len() && !buffer.is_empty() {
            let step = self.steps[self.met];
            self.met += 1;
            match step {
                Step::Piece(bytes) => self.piece = bytes,
                Step::Interruption => return Err(ReadFault::Interrupted),
                Step::Fault => return Err(ReadFault::Failed),
            }
        }
        let count = self.piece.len().min(buffer.len());
        buffer[..count].copy_from_slice(&self.piece[..count]);
        self.piece = &self.piece[count..];
        Ok(count)
    }
}

impl Read for Script<'_> {
    ghost use Rattle.mime_lookup.specs.Script.{bytes_left};

    ghost remaining = { bytes_left };

    fn read(&mut self, buffer: &mut [u8]) -> io::Result<usize> {
        match self.next_piece(buffer) {
            Ok(count) => Ok(count),
            Err(ReadFault::Interrupted) => Err(io::Error::from(ErrorKind::Interrupted)),
            Err(ReadFault::Failed) => Err(io::Error::from(ErrorKind::Other)),
        }
    }
}

impl Content for Script<'_> {
    ghost use Rattle.mime_lookup.specs.Script.{health_left, tally_of};

    ghost tally = { tally_of };

    ghost health = { health_left };

    fn read_piece(&mut self, buffer: &mut [u8]) -> Result<usize, ReadFault> {
        self.next_piece(buffer)
    }
}
