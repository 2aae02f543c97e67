//! What lookups answer.

use mime_base::Meter;

/// The type of a name, and what it took to find it. This project's own.
#[derive(Clone, Copy, Debug)]
pub struct Answer<'a> {
    /// The type.
    pub kind: &'a [u8],
    /// How many bytes of the content were read.
    pub read: u64,
    /// What was looked at.
    pub meter: Meter,
}

/// The type of a name without a content, and how much of a content could give another. This project's own.
#[derive(Clone, Copy, Debug)]
pub struct NameAnswer<'a> {
    /// The type where no content is available.
    pub kind: &'a [u8],
    /// How many bytes of a content a lookup of this name reads at most. It is 0 where the name decides: then no content
    /// gives another type.
    pub wanted: u64,
    /// What was looked at.
    pub meter: Meter,
}
