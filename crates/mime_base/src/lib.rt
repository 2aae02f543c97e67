//! What every crate above shares: type names and patterns, how a pattern matches a name, which of the
//! rules that match are kept, magic lines, the bytes of a cache, and the database of all of them.
//!
//! ```
//! let rule = GlobRule {
//!     weight: 50,
//!     kind: TypeName::new(rt.alloc(), b"text/plain")?,
//!     pattern: Pattern::new(rt.alloc(), b"*.txt")?,
//!     cased: false,
//! };
//! let mut meter = Meter::new();
//! let matches = glob_matches(rule.pattern.bytes(), rule.cased, b"NOTES.TXT", &mut meter);
//! // it matches, and the meter counts 4 bytes: a test of each element after the star
//! ```
//!
//! Read `names` first: the types keep the limits of their texts. Then `matching`, by the definition of
//! a pattern's elements, with an exact count of its tests in a [`Meter`], and `kept`, which of the
//! rules that match answer a lookup. `magic` has the lines that look at a content, `database` what
//! merged data directories say, and `cache` the only calls that look at a cache's bytes. Definitions
//! and lemmas lie under the same words below `specs/` and `proofs/`.
#![tactic(auto)]

mod cache;
mod database;
mod format;
mod kept;
mod magic;
mod matching;
mod memory;
mod meter;
mod names;

pub use cache::byte_fault::ByteFault;
pub use cache::byte_laws::{appended_stands, reading_stays, standing_reads_back, texts_are_read};
pub use cache::comparing::same_name;
pub use cache::key::Key;
pub use cache::stated_value::StatedValue;
pub use cache::{Counted, LARGEST_CACHE};
pub use database::Database;
pub use database::icon::Icon;
pub use database::lent::LentRule;
pub use database::limits::database_keeps_limits;
pub use database::pair::Pair;
pub use database::rule::GlobRule;
pub use kept::class::{Class, class_of, class_of_bytes};
pub use kept::hidden::visible_is_enough;
pub use kept::twins::twins_of_visible;
pub use kept::{Best, greatest_rank_is_preferred, kept_come_first, rank_of, rank_of_rule};
pub use magic::Section;
pub use magic::content::NotedContent;
pub use magic::extent::{extent, line_extent};
pub use magic::holding::{line_matches, some_line_matches};
pub use magic::host::Host;
pub use magic::matchlet::Matchlet;
pub use magic::pairs::{Passed, pass_pairs};
pub use magic::ranges::value_in_range;
pub use magic::textual::{TEXTUAL_FRONT, looks_textual};
pub use matching::elements::begins_otherwise;
pub use matching::folding::{as_compared, fold};
pub use matching::glob_matches;
pub use memory::OutOfMemory;
pub use meter::Meter;
pub use names::{IconName, NameFault, Pattern, TypeName, is_type_name};
