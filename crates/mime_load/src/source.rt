//! What is read back, and where it allocates.

use mime_base::Counted;
use std::alloc::Global;

/// The bytes of a cache, and an allocator. This project's own.
#[derive(Clone, Copy)]
pub struct Source<'s, 'a> {
    /// For the lists.
    pub alloc: Global,
    /// The bytes.
    pub counted: &'s Counted<'a>,
}
