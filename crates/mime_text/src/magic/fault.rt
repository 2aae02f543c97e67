//! Why a text of `magic` is refused.

ghost use Rattle.std.specs.Prelude.{◌≡◌, length};
ghost use Rattle.mime_text.specs.Magic.Reading.{fault_at, placed, placed_error};
ghost use Rattle.mime_text.specs.declared.magic.fault.ReadError.TheVariants as errors;

use std::alloc::{AllocError, AllocFailed};
use thiserror::Error;

/// Why [`read_magic`](crate::read_magic) refused a text.
#[derive(Clone, Copy, Debug, PartialEq, Eq, Error)]
pub enum MagicFault {
    /// The text's first fault.
    #[error("magic {kind} at {offset}")]
    Malformed {
        /// What is wrong.
        kind: MagicFaultKind,
        /// Where it is wrong, in bytes from the front of the text.
        offset: u64,
    },
    /// An allocation was refused.
    #[error("out of memory")]
    OutOfMemory,
}

/// What is wrong with a text of `magic`, and where it is said to be wrong.
#[derive(Clone, Copy, Debug, PartialEq, Eq, Error)]
pub enum MagicFaultKind {
    /// The text isn't empty and doesn't begin with `MIME-Magic`, a zero byte and a newline. At 0.
    #[error("no header")]
    NoHeader,
    /// The text ends inside the head of a section or a line. At its end.
    #[error("truncated")]
    Truncated,
    /// What begins here is neither a line nor the head of a section. At its first byte.
    #[error("bad section")]
    BadSection,
    /// A number is missing or above 4,294,967,295, or the start has no `=` after it: at the
    /// number. Or `start + range +` the length of the value is above that: at the line.
    #[error("bad number")]
    BadNumber,
    /// The word isn't 1, 2 or 4, or it doesn't divide the length of the value. At the number.
    #[error("bad word")]
    BadWord,
    /// The indent has no `>` after it, or is more than one above that of the line before, or is
    /// not 0 on a section's first line. At the line.
    #[error("bad indent")]
    BadIndent,
    /// The indent is 64. At the line.
    #[error("too deep")]
    TooDeep,
}

/// What is wrong with a text, and how many of its bytes are left where it is wrong.
#[derive(Clone, Copy, Debug, PartialEq, Eq)]
pub struct Fault {
    pub kind: MagicFaultKind,
    pub left: usize,
}

impl Fault {
    /// The text ends too early.
    pub const TRUNCATED: Fault = Fault {
        kind: MagicFaultKind::Truncated,
        left: 0,
    };

    /// The fault of a text of that many bytes, with its offset.
    pub fn placed(self, size: usize) -> MagicFault
        // The offset is how many bytes of the text were read.
        ensures { result ≡ placed size self }
    {
        MagicFault::Malformed {
            kind: self.kind,
            offset: size.saturating_sub(self.left) as u64,
        }
    }
}

/// What is wrong at the first of the bytes that are left.
pub fn fault_at(kind: MagicFaultKind, rest: &[u8]) -> Fault
    // The fault carries how many bytes are left, from which its offset is found.
    ensures { result ≡ fault_at kind (length rest.now) }
{
    Fault {
        kind,
        left: rest.len(),
    }
}

/// Why a reader that takes memory stopped.
#[derive(Debug, Drop)]
pub enum ReadError {
    OutOfMemory,
    Fault(Fault),
}

impl ReadError {
    /// The same with its offset in a text of that many bytes.
    pub fn placed(self, size: usize) -> MagicFault
        // A fault of the text gets its offset; out of memory stays what it is.
        ensures { result ≡ placed_error size self }
    {
        match self {
            ReadError::OutOfMemory => MagicFault::OutOfMemory,
            ReadError::Fault(fault) => fault.placed(size),
        }
    }
}

impl From<AllocError> for ReadError {
    ghost from_gives = { λ _ e. e ≡ errors.OutOfMemory };

    fn from(_error: AllocError) -> ReadError {
        ReadError::OutOfMemory
    }
}

impl<T: Drop> From<AllocFailed<T>> for ReadError {
    ghost from_gives = { λ _ e. e ≡ errors.OutOfMemory };

    fn from(_error: AllocFailed<T>) -> ReadError {
        ReadError::OutOfMemory
    }
}

impl From<Fault> for ReadError {
    ghost from_gives = { λ fault e. e ≡ errors.Fault fault };

    fn from(fault: Fault) -> ReadError {
        ReadError::Fault(fault)
    }
}
