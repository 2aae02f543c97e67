//! Why bytes of a cache were not given. This project's own.

use thiserror::Error;

/// A refusal of a read of a cache, with the offset that was asked for.
#[derive(Clone, Copy, Debug, PartialEq, Eq, Error)]
pub enum ByteFault {
    /// What is needed at the offset does not lie in the cache.
    #[error("out of range at {0}")]
    OutOfRange(u64),
    /// 256 bytes from the offset hold no zero, nor a difference from what they are compared with.
    #[error("long text at {0}")]
    LongText(u64),
}
