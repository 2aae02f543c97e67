//! Why a lookup stops without an answer.

use mime_base::{Meter, OutOfMemory};
use mime_view::CacheFault;
use std::alloc::AllocError;
use thiserror::Error;

/// A lookup that stopped, and what it took until then. This project's own.
#[derive(Clone, Copy, Debug, PartialEq, Eq, Error)]
#[error("{cause}")]
pub struct Stopped {
    /// Why it stopped.
    pub cause: Cause,
    /// How many bytes of the content were read.
    pub read: u64,
    /// What was looked at.
    pub meter: Meter,
}

/// Why a lookup stops.
#[derive(Clone, Copy, Debug, PartialEq, Eq, Error)]
pub enum Cause {
    /// The name has more than 4,096 bytes.
    #[error("name too long")]
    NameTooLong,
    /// What is wrong with the cache, and where. It is never [`CacheFault::OutOfMemory`].
    #[error("{0}")]
    Cache(CacheFault),
    /// A read of the content failed, or was interrupted once more than is tried again.
    #[error("cannot read")]
    Read,
    /// An allocation was refused.
    #[error("out of memory")]
    OutOfMemory,
}

impl From<AllocError> for Cause {
    ghost use Rattle.std.specs.Prelude.{◌≡◌};
    ghost use Rattle.mime_lookup.specs.declared.stopped.Cause.TheVariants.{OutOfMemory};

    ghost from_gives = { λ _ cause. cause ≡ OutOfMemory };

    fn from(_error: AllocError) -> Cause {
        Cause::OutOfMemory
    }
}

impl From<OutOfMemory> for Cause {
    ghost use Rattle.std.specs.Prelude.{◌≡◌};
    ghost use Rattle.mime_lookup.specs.declared.stopped.Cause.TheVariants as causes;

    ghost from_gives = { λ _ cause. cause ≡ causes.OutOfMemory };

    fn from(_error: OutOfMemory) -> Cause {
        Cause::OutOfMemory
    }
}

impl From<CacheFault> for Cause {
    ghost use Rattle.std.specs.Prelude.{◌≡◌};
    ghost use Rattle.mime_lookup.specs.Cached.{cause_of};

    ghost from_gives = { λ fault cause. cause ≡ cause_of fault };

    fn from(fault: CacheFault) -> Cause {
        match fault {
            CacheFault::OutOfMemory => Cause::OutOfMemory,
            fault => Cause::Cache(fault),
        }
    }
}
