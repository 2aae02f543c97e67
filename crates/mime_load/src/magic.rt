//! The magic list of a cache.

use crate::line::LentLine;
use crate::section::LentSection;

/// The sections of a cache with their lines ("The mime.cache files"): one list for all lines, so that no section and no line has a
/// list of its own.
#[derive(Debug, Drop)]
pub struct LentMagic<'a> {
    /// The sections, in the order of the list.
    pub sections: Vec<LentSection<'a>>,
    /// The lines of the first section, then those of the next: each comes right before those below it.
    pub lines: Vec<LentLine<'a>>,
}
