//! Where output goes. This project's own.

ghost use Rattle.std.specs.Prelude.{◌≡◌, ℕ, List, Option, Some, None, Ok, IsOk, []};
ghost use Rattle.std.specs.List.{flat_map};
ghost use Rattle.mime_tool.specs.Sink.{Flush, Flushes, HasRoom, IsPut};

use std::alloc::AllocError;
use thiserror::Error;

/// Why bytes were not taken.
#[derive(Clone, Copy, Debug, PartialEq, Eq, Error)]
pub enum SinkFault {
    /// They could not be written.
    #[error("cannot write")]
    Failed,
    /// There was no memory for them.
    #[error("out of memory")]
    OutOfMemory,
}

/// What takes bytes.
///
/// A sink may hold bytes back until it is flushed. After a fault it may have taken some of the
/// bytes of that call.
pub trait Sink {
    // The bytes that it took, where they are known. Such a sink fails only where memory runs out.
    ghost holds: { Self → Option (List ℕ) } = { λ _. None };

    // How many bytes it holds at the most, where that is known. Memory runs out only past them.
    ghost capacity: { Self → Option ℕ } = { λ _. None };

    // What the flush after the last bytes answered, if there was one.
    ghost flushed: { Self → Flush } = { λ _. None };

    /// Takes all the bytes.
    fn put(&mut self, bytes: &[u8]) -> Result<(), SinkFault>
        // A sink that tells what it holds takes all the bytes, or what they begin with where memory runs out.
        ensures put { IsPut (holds self.old) (holds self.new) result bytes.now }
        // Memory does not run out where it tells that it has room for them.
        ensures room { HasRoom (capacity self.old) (holds self.old) bytes.now → IsOk result }
        // It can hold as much as before.
        ensures capacity { capacity self.new ≡ capacity self.old };

    /// Hands on what it held back.
    fn flush(&mut self) -> Result<(), SinkFault>
        // Nothing is added.
        ensures kept { IsPut (holds self.old) (holds self.new) result [] }
        // Memory does not run out where it tells that it has room.
        ensures room { HasRoom (capacity self.old) (holds self.old) [] → IsOk result }
        // It can hold as much as before.
        ensures capacity { capacity self.new ≡ capacity self.old }
        // A sink that tells what it holds tells what this flush answered.
        ensures flushed { Flushes (holds self.old) (flushed self.new) result };
}

impl Sink for Vec<u8> {
    ghost holds = { λ bytes. Some bytes.items };

    // It holds nothing back.
    ghost flushed = { λ _. Some (Ok tt) };

    fn put(&mut self, bytes: &[u8]) -> Result<(), SinkFault> {
        match self.extend_from_slice(bytes) {
            Ok(()) => Ok(()),
            Err(_) => Err(SinkFault::OutOfMemory),
        }
    }

    fn flush(&mut self) -> Result<(), SinkFault> {
        Ok(())
    }
}

/// Puts the pieces, one after another.
// Always inlined, as its caller is.
#[inline(always)]
pub(crate) fn put_all<S: Sink>(sink: &mut S, pieces: &[&[u8]]) -> Result<(), SinkFault>
    // The sink takes all the pieces, or what they begin with where memory runs out.
    ensures { IsPut (S.holds sink.old) (S.holds sink.new) result
        (flat_map (λ piece. piece.now) pieces.now) }
{
    for piece in pieces {
        // A line's last pieces are mostly empty.
        if !piece.is_empty() {
            sink.put(piece)?;
        }
    }
    Ok(())
}

/// Puts the bytes, and flushes.
pub(crate) fn put_now<S: Sink>(sink: &mut S, bytes: &[u8]) -> Result<(), SinkFault>
    // The sink takes all the bytes, or what they begin with where memory runs out.
    ensures put { IsPut (S.holds sink.old) (S.holds sink.new) result bytes.now }
    // Memory does not run out where it tells that it has room for them.
    ensures room { HasRoom (S.capacity sink.old) (S.holds sink.old) bytes.now → IsOk result }
    // It can hold as much as before.
    ensures capacity { S.capacity sink.new ≡ S.capacity sink.old }
{
    sink.put(bytes)?;
    sink.flush()
}
