//! The reader of a cache that nobody vouches for.
//!
//! Any byte of a cache may be damaged or hostile. Each call returns with an answer or a
//! [`CacheFault`] that says what is wrong and where, whatever the bytes are, and adds to a meter what
//! it visited and compared. Bytes are read by `Counted` of mime_base alone.
//!
//! ```text
//! let mut meter = Meter::new();
//! let cache = Cache::open(Counted::new(bytes), &mut meter)?;
//! let mut budget = Budget::of(&cache);
//! let kind = cache.unalias(b"text/x-markdown", &mut meter, &mut budget)?;
//! let icon = cache.icon(kind, &mut meter, &mut budget)?;
//! // the type that the alias stands for, itself where it is no alias; and its icon, if it has one
//! ```
//!
//! Read `cache` first, then `search`, by which each sorted list is read.
#![tactic(auto)]

mod best_hits;
mod budget;
mod cache;
mod capitals;
mod entry;
mod fault;
mod flags;
mod globs;
mod hits;
mod kinds;
mod list;
mod literals;
mod magic;
mod marks;
mod name;
mod name_hits;
mod pairs;
mod parents;
mod query;
mod rule_hits;
mod rules;
mod search;
mod spending;
mod suffixes;
mod texts;

pub use budget::Budget;
pub use cache::Cache;
pub use fault::CacheFault;
pub use hits::{candidates_are_near, kept_are_near};
pub use marks::Marks;
pub use name_hits::{NameHits, Which};
pub use parents::Parents;
pub use rule_hits::{RuleHit, RuleHits};
pub use rules::Listed;
pub use spending::Spending;
pub use texts::Texts;
