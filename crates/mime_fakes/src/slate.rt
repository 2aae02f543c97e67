//! A sink of a fixed size, which tells what it holds and how much it can hold.

ghost use Rattle.std.specs.Prelude.{Ok, Some};

use arrayvec::ArrayVec;
use mime_tool::{Sink, SinkFault};

/// A sink of at most that many bytes. It takes all the bytes of a call or none, and runs out of memory
/// only where it has no room for them.
#[derive(Drop)]
pub struct Slate<const N: usize>(pub ArrayVec<u8, N>);

impl<const N: usize> Sink for Slate<N> {
    ghost holds = { λ slate. Some slate.0.items };

    ghost capacity = { λ _. Some N };

    // It holds nothing back.
    ghost flushed = { λ _. Some (Ok tt) };

    fn put(&mut self, bytes: &[u8]) -> Result<(), SinkFault> {
        match self.0.try_extend_from_slice(bytes) {
            Ok(()) => Ok(()),
            Err(_) => Err(SinkFault::OutOfMemory),
        }
    }

    fn flush(&mut self) -> Result<(), SinkFault> {
        Ok(())
    }
}
