//! Values of `magic` in the bytes of a cache.

/// A value with its mask, as the record of a line states them.
///
/// ```
/// // "abcd", whose bytes are no numbers, with all bits
/// let value = StatedValue { at: 40, mask_at: 0, size: 4, word: 1 };
/// ```
#[derive(Clone, Copy, Debug, PartialEq, Eq)]
pub struct StatedValue {
    /// The offset of the value in the cache.
    pub at: u32,
    /// The offset of its mask in the cache; 0 is no mask.
    pub mask_at: u32,
    /// How many bytes the value has, and the mask.
    pub size: u32,
    /// How many bytes a number has in the value; above 1 they are in the order of the host.
    pub word: u32,
}
