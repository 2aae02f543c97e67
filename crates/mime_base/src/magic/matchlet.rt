//! Lines of `magic`.

/// A line of `magic` with the lines below it, its children ("The magic files").
///
/// It holds for a content if the bytes at some offset of its range equal its value under its mask,
/// and, where it has children, one of them holds too. What `magic` can spell has at most 64 levels, a word of 1, 2 or 4
/// that divides the length of the value, a value of at most 65,535 bytes, a mask of the value's
/// length, and `start + range +` that length below 2^32; the definition `are_allowed` says so.
#[derive(Debug, Drop)]
pub struct Matchlet {
    /// The first offset in the content that is tried, in bytes.
    pub start: u32,
    /// How many offsets are tried. With 0 the line never holds.
    pub range: u32,
    /// How many bytes a number has in the value; above 1 they are in the order of the host.
    pub word: u32,
    /// The bytes that are sought, with the highest byte of each number first.
    pub value: Vec<u8>,
    /// Which bits of the value count; all of them where there is none.
    pub mask: Option<Vec<u8>>,
    /// The lines of which one has to hold too, unless there is none.
    pub children: Vec<Matchlet>,
}
