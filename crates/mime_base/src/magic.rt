//! Sections of `magic`, and what their lines are made of: read [`Section`] first, then
//! [`matchlet::Matchlet`], then [`masking::equal_bytes`].

pub mod content;
pub mod extent;
pub mod holding;
pub mod host;
pub mod masking;
pub mod matchlet;
pub mod pairs;
pub mod ranges;
pub mod textual;

use crate::magic::matchlet::Matchlet;
use crate::names::TypeName;

/// A section of `magic`: a type, and the lines by which a content has it ("The magic files").
///
/// A content has the type if one of the lines of indent 0 holds for it.
#[derive(Debug, Drop)]
pub struct Section {
    /// Sections of a higher priority are tried first.
    pub priority: u32,
    /// The type that the section gives.
    pub kind: TypeName,
    /// The lines of indent 0, each with its children, in the order of the file.
    pub lines: Vec<Matchlet>,
}
