//! Contents of files, and the readers that they come from. This project's own.
//!
//! A [`Content`] may tell how many of its reads failed and how many were interrupted, and whether
//! all its reads give bytes or all fail, so that a contract can say when a lookup gives up. A slice
//! tells, and so does a [`Script`](crate::Script); [`Untold`] makes a content that tells nothing of
//! any reader.

ghost use Rattle.std.specs.Prelude.{Option, None, Some};
ghost use Rattle.std.specs.Io.{ReadsAtMost};
ghost use Rattle.std.specs.Io.KnownBytes.{ReadConsumes};
ghost use Rattle.mime_lookup.specs.Content.{Counts, Health, KeepsHealth, Tally, untold};

use std::io;
use std::io::{ErrorKind, Read};

/// Why a read gave no bytes.
#[derive(Clone, Copy, Debug, PartialEq, Eq)]
pub enum ReadFault {
    /// It was interrupted, and may be tried again.
    Interrupted,
    /// It failed.
    Failed,
}

/// A reader of a content.
pub trait Content: Read {
    // How many reads failed and how many were interrupted so far, where the reader tells it.
    ghost tally: { Self → Option Tally } = { λ _. None };

    // Whether all its reads give bytes or the end, all fail, or nothing is said.
    ghost health: { Self → Health } = { λ _. untold };

    /// Reads bytes to the front of a buffer, and answers how many. None come only at the end of the
    /// content and for an empty buffer.
    fn read_piece(&mut self, buffer: &mut [u8]) -> Result<usize, ReadFault>
        // No more bytes are read than the buffer has.
        ensures bound { ReadsAtMost result buffer.new }
        // They are the next of those that remain.
        ensures bytes { ReadConsumes (Self.remaining self.old) (Self.remaining self.new) result buffer.new }
        // A read is counted by what it gave.
        ensures told { Counts (tally self.old) (tally self.new) result }
        // A sound content goes on, and a broken one fails.
        ensures healthy { KeepsHealth (health self.old) (health self.new) result };
}

/// One read of any reader.
fn read_once<R: Read>(reader: &mut R, buffer: &mut [u8]) -> Result<usize, ReadFault>
    ensures bound { ReadsAtMost result buffer.new }
    ensures bytes { ReadConsumes (R.remaining reader.old) (R.remaining reader.new) result buffer.new }
{
    match reader.read(buffer) {
        Ok(count) => Ok(count),
        Err(error) => {
            if error.kind() == ErrorKind::Interrupted {
                Err(ReadFault::Interrupted)
            } else {
                Err(ReadFault::Failed)
            }
        }
    }
}

impl Content for &[u8] {
    ghost use Rattle.std.specs.Prelude.{Some};
    ghost use Rattle.mime_lookup.specs.Content.{sound};

    ghost tally = { λ _. Some (record { failed = 0; interrupted = 0 }) };

    ghost health = { λ _. sound };

    fn read_piece(&mut self, buffer: &mut [u8]) -> Result<usize, ReadFault> {
        match self.read(buffer) {
            Ok(count) => Ok(count),
            Err(_) => Err(ReadFault::Failed),
        }
    }
}

/// A content that tells nothing but the bytes that its reader tells.
#[derive(Debug, Drop)]
pub struct Untold<R>(pub R);

impl<R: Read> Read for Untold<R> {
    ghost remaining = { λ untold. R.remaining untold.0 };

    fn read(&mut self, buffer: &mut [u8]) -> io::Result<usize> {
        self.0.read(buffer)
    }
}

impl<R: Read> Content for Untold<R> {
    fn read_piece(&mut self, buffer: &mut [u8]) -> Result<usize, ReadFault> {
        read_once(&mut self.0, buffer)
    }
}
