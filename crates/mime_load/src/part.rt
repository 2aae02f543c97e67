//! The parts of a cache, and why none is read back.

ghost use Rattle.std.specs.Prelude.{◌≡◌};
ghost use Rattle.mime_load.specs.Faults.{part_fault};

use crate::unread::Unread;
use thiserror::Error;

/// A part of a cache, in the order in which they are read back. This project's own.
#[derive(Clone, Copy, Debug, PartialEq, Eq)]
pub enum Part {
    /// The version and the offsets of the lists, and the size of the cache.
    Header,
    /// The aliases with their types.
    Aliases,
    /// The types with their parents.
    Subclasses,
    /// The rules that match one name.
    Literals,
    /// The reverse suffix tree.
    Suffixes,
    /// The rules of no other list.
    Globs,
    /// The sections of magic.
    Magic,
    /// The types with their icons.
    Icons,
    /// The types with their generic icons.
    GenericIcons,
}

/// Why a cache is not read back. This project's own.
#[derive(Clone, Copy, Debug, PartialEq, Eq, Error)]
pub enum LoadFault {
    /// The bytes spell no database: this is the first part that is not read back.
    #[error("no database")]
    NoDatabase(Part),
    /// An allocation was refused.
    #[error("out of memory")]
    OutOfMemory,
}

/// The fault of a part.
pub fn fault_of(part: Part, fault: Unread) -> LoadFault
    // Memory is no fault of a part; any other fault names it.
    ensures { result ≡ part_fault part fault }
{
    match fault {
        Unread::NotSpelled => LoadFault::NoDatabase(part),
        Unread::OutOfMemory => LoadFault::OutOfMemory,
    }
}
