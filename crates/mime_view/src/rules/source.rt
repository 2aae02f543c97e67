//! What a listing of rules reads, and where it allocates. This project's own.

ghost use Rattle.std.specs.Prelude.{◌^◌, ◌≤◌, length};

use mime_base::Counted;
use std::alloc::Global;

/// The bytes of a cache, and an allocator.
#[derive(Clone, Copy)]
pub struct ListingSource<'s, 'a> {
    /// For the list, the patterns and the endings.
    pub alloc: Global,
    /// The bytes.
    pub counted: &'s Counted<'a>,
    /// No offset of the cache needs more than 32 bits.
    pub ghost limit: { length counted.now ≤ 2 ^ 28 },
}
