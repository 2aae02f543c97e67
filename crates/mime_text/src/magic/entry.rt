//! The sections and lines of a text of `magic`, before indents make a section's lines a forest.

use mime_base::TypeName;

/// A line that is kept, without its children.
#[derive(Debug, Drop)]
pub struct MagicLine {
    pub start: u32,
    pub range: u32,
    pub word: u32,
    pub value: Vec<u8>,
    pub mask: Option<Vec<u8>>,
}

/// What a line of a section is.
#[derive(Debug, Drop)]
pub enum Role {
    Kept(MagicLine),
    /// A line with an unknown byte where its newline is expected.
    Ignored,
    /// The deletion marker.
    Marker,
}

/// A line of a section with its indent.
#[derive(Debug, Drop)]
pub struct MagicEntry {
    pub indent: u32,
    pub role: Role,
}

/// A section whose lines stand one after another, as in the text.
#[derive(Debug, Drop)]
pub struct FlatSection {
    pub priority: u32,
    pub kind: TypeName,
    pub entries: Vec<MagicEntry>,
}
