//! The writer of caches ("The mime.cache files").
//!
//! It promises that the bytes which it writes spell the database, by the definitions of mime_base that a
//! reader of caches shares, and that it refuses a database exactly where it takes too many bytes.
//!
//! ```text
//! let database = merge(alloc, dirs)?;
//! let bytes = write_cache(alloc, &database, LARGEST_CACHE)?;
//! // the whole of a file `mime.cache`, or `StoreFault::TooLarge`
//! ```
//!
//! Read `cache` first: it writes each part with what the part points to before it. `parts` sorts, `room`
//! counts bytes before any is written, `list` writes a list whatever its members are, and each other module
//! writes the part of its name.
#![tactic(auto)]

mod bound;
mod bytes;
mod cache;
mod ending;
mod fault;
mod globs;
mod list;
mod magic;
mod pairs;
mod parents;
mod parts;
mod paths;
mod room;
mod rules;
mod run;
mod stored_rule;
mod suffix_tree;
mod text_pair;
mod texts;

pub use cache::{fits_in_cache, write_cache};
pub use fault::StoreFault;
