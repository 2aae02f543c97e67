//! Why a cache gives no answer. This project's own.

ghost use Rattle.mime_view.specs.Faults.{cache_fault};

use mime_base::{ByteFault, OutOfMemory};
use std::alloc::{AllocError, AllocFailed};
use thiserror::Error;

/// Why a cache gives no answer.
///
/// Offsets are bytes from the front of the cache.
#[derive(Clone, Copy, Debug, PartialEq, Eq, Error)]
pub enum CacheFault {
    /// The cache ends inside its header.
    #[error("truncated")]
    Truncated,
    /// The cache has another version than 1.2: the major and the minor number.
    #[error("version {0}.{1}")]
    Version(u16, u16),
    /// The cache has more than 268,435,456 bytes.
    #[error("too large")]
    TooLarge,
    /// What is needed at this offset does not lie in the cache.
    #[error("out of range at {0}")]
    OutOfRange(u64),
    /// The 256 bytes from this offset on hold no zero, so no text stands there.
    #[error("long text at {0}")]
    LongText(u64),
    /// The budget has no record left, or too few value bytes.
    #[error("budget spent")]
    Spent,
    /// Lines of `magic`, or characters of the suffix tree, lie deeper than is allowed.
    #[error("too deep")]
    TooDeep,
    /// An allocation was refused.
    #[error("out of memory")]
    OutOfMemory,
}

impl From<ByteFault> for CacheFault {
    ghost use Rattle.std.specs.Prelude.{◌≡◌};

    ghost from_gives = { λ fault e. e ≡ cache_fault fault };

    fn from(fault: ByteFault) -> CacheFault {
        match fault {
            ByteFault::OutOfRange(at) => CacheFault::OutOfRange(at),
            ByteFault::LongText(at) => CacheFault::LongText(at),
        }
    }
}

impl From<OutOfMemory> for CacheFault {
    ghost use Rattle.std.specs.Prelude.{◌≡◌};
    ghost use Rattle.mime_view.specs.declared.fault.CacheFault.TheVariants.{OutOfMemory};

    ghost from_gives = { λ _ e. e ≡ OutOfMemory };

    fn from(_error: OutOfMemory) -> CacheFault {
        CacheFault::OutOfMemory
    }
}

impl From<AllocError> for CacheFault {
    ghost use Rattle.std.specs.Prelude.{◌≡◌};
    ghost use Rattle.mime_view.specs.declared.fault.CacheFault.TheVariants.{OutOfMemory};

    ghost from_gives = { λ _ e. e ≡ OutOfMemory };

    fn from(_error: AllocError) -> CacheFault {
        CacheFault::OutOfMemory
    }
}

impl<T: Drop> From<AllocFailed<T>> for CacheFault {
    ghost use Rattle.std.specs.Prelude.{◌≡◌};
    ghost use Rattle.mime_view.specs.declared.fault.CacheFault.TheVariants.{OutOfMemory};

    ghost from_gives = { λ _ e. e ≡ OutOfMemory };

    fn from(_error: AllocFailed<T>) -> CacheFault {
        CacheFault::OutOfMemory
    }
}
