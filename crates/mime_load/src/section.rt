//! Sections of magic that lie in a cache.

/// A section of magic of a cache ("The magic files").
#[derive(Debug, Drop)]
pub struct LentSection<'a> {
    /// Its priority.
    pub priority: u32,
    /// The type that it gives.
    pub kind: &'a [u8],
    /// How many lines it has, at all depths; it holds if one of those of indent 0 does.
    pub lines: usize,
}
