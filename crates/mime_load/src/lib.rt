//! The inverse of the writer: the bytes of a cache are read back into the lists that they spell, lent from the bytes.
//!
//! It promises that what is read back is spelled by the bytes, by the definitions of mime_base that the writer and the reader of
//! caches share, whatever the bytes are; or it names the first part that is not read back. What was written is read back, unless memory
//! is refused.
//!
//! ```text
//! let lists = read_back(alloc, &Counted::new(&bytes), &mut meter)?;
//! // the rules, pairs and sections of the cache, or `LoadFault::NoDatabase(Part::Magic)`
//! ```
//!
//! Read `reading_back` first: it reads each part in turn. `pairs`, `parents`, `rules`, `suffix_tree` and `sections` read the part of
//! their name and can be called alone. `holding` says whether a line that was read holds for a content. `taking` bounds what is read by the cache's length, whatever records share or repeat.
#![tactic(auto)]

mod ending;
mod extent;
mod holding;
mod icon_lists;
mod leaf;
mod line;
mod lines;
mod lists;
mod magic;
mod magic_alone;
mod name_lists;
mod order;
mod own;
mod pair;
mod pair_lists;
mod pairs;
mod parents;
mod part;
mod reading;
mod reading_back;
mod rules;
mod section;
mod sections;
mod source;
mod suffix_tree;
mod taking;
mod unread;

pub use extent::magic_extent;
pub use holding::{behind_first, first_line_matches};
pub use icon_lists::{IconLists, read_icons};
pub use leaf::{LeafEntry, LeafParts, LeafRule, Leaves};
pub use line::LentLine;
pub use lists::Lists;
pub use magic::LentMagic;
pub use magic_alone::read_magic;
pub use name_lists::{NameLists, read_names};
pub use pair::LentPair;
pub use pair_lists::{PairLists, read_pairs};
pub use pairs::{aliases_at, icons_at};
pub use parents::parents_at;
pub use part::{LoadFault, Part};
pub use reading_back::read_back;
pub use rules::{globs_at, literals_at};
pub use section::LentSection;
pub use sections::magic_at;
pub use source::Source;
pub use suffix_tree::leaves_at;
pub use taking::{Taking, room_of};
pub use unread::Unread;
