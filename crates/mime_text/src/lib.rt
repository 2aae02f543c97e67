//! Readers of the generated text files of a `mime` folder, and the merging of folders.
//!
//! Each reader promises both sides: what is read is what the text spells, and what the text spells is
//! read, unless an allocation is refused. Malformed lines are told by their numbers, a fault of `magic`
//! by its offset. `merging` makes one database of what several folders say, the most preferred first.
//!
//! A caller reads the six files of each folder, a missing one as no bytes, and merges them:
//!
//! ```text
//! let globs = read_globs2(alloc, bytes)?;
//! let magic = read_magic(alloc, bytes)?;
//! let database = merge_visible(alloc, dirs)?;
//! ```
//!
//! `lines` is the module to read first.
#![tactic(auto)]

mod dir_texts;
mod lines;
mod magic;
mod merging;

pub use dir_texts::{DirTexts, DirsFault, read_dirs};
pub use lines::globs2::{GlobsFile, read_globs2};
pub use lines::icons::{IconsFile, read_icons};
pub use lines::pairs::{PairsFile, read_pairs};
pub use magic::{
    MagicFault, MagicFaultKind, MagicFile, fault_is_by_table, faults_stay, forest_is_by_runs,
    magic_text_or_fault, read_magic, truncated_can_go_on,
};
pub use merging::hidden::visible;
pub use merging::twins::without_twins;
pub use merging::{DirFiles, merge, merge_visible};
