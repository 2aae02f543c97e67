//! The file `magic`: what contents of a type look like ("The magic files").
//!
//! A text is a header and sections; a section is a head and lines, and the indents of its lines make
//! them a forest. It is read once, from front to back, and the first fault that is met is the answer.
//!
//! This project's own are the numbers of the faults and their offsets, the limits, what is made of a
//! line that ends in something unknown (it is ignored, with the deeper lines after it), and where a
//! deletion marker may stand.

mod entry;
mod fault;
mod file;
mod forest;
mod laws;
mod line;
mod number;
mod read;
mod section;
mod text;

pub use fault::{MagicFault, MagicFaultKind};
pub use file::MagicFile;
pub use laws::{
    fault_is_by_table, faults_stay, forest_is_by_runs, magic_text_or_fault, truncated_can_go_on,
};
pub use read::read_magic;
