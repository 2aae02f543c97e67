//! The lookup over a cache's bytes, for C.
//!
//! ```text
//! mimelook_answer answer = MIMELOOK_NO_ANSWER;
//! mimelook_report report = mimelook_look_up(cache, cache_length, name, name_length, content, content_length,
//!     MIMELOOK_GLOBS_FIRST, &answer);
//! ```
//!
//! Each export takes bytes and numbers, whatever they are, and keeps nothing between calls. What it returns is a
//! [`Report`]: a status, what is wrong with the cache and where, and what the call read, visited and compared. What it
//! writes elsewhere is as it was unless the status is 0. No export asks anything of its arguments: nothing checks C.
//!
//! `database` has the same calls by a handle, which keeps a cache open between them.
//!
//! Read `report` first, then `look_up`, then `database`.
#![tactic(auto)]

mod check;
mod database;
mod extent;
mod hits;
mod icons;
mod is_a;
mod listed_icons;
mod look_up;
mod merge;
mod opening;
mod order;
mod parents;
mod report;
mod sniff;
mod status;
mod type_names;
mod unalias;

pub use check::mimelook_check;
pub use database::close::close_database;
pub use database::directories::open_directories;
pub use database::extent::mimelook_database_extent;
pub use database::hits::mimelook_database_hits;
pub use database::icons::mimelook_database_icons;
pub use database::is_a::mimelook_database_is_a;
pub use database::listed_icons::mimelook_database_listed_icons;
pub use database::look_up::database_look_up_with;
pub use database::open::mimelook_open;
pub use database::parents::mimelook_database_parents;
pub use database::sniff::mimelook_database_sniff;
pub use database::unalias::mimelook_database_unalias;
pub use database::{DirectoriesReport, Handle, HandleReport, Kept};
pub use extent::mimelook_extent;
pub use hits::{Hit, mimelook_hits};
pub use icons::{IconLengths, mimelook_icons};
pub use is_a::mimelook_is_a;
pub use listed_icons::mimelook_listed_icons;
pub use look_up::{Text, TypeAnswer, look_up_with};
pub use merge::{MergeReport, mimelook_merge};
pub use parents::mimelook_parents;
pub use report::Report;
pub use sniff::{Sniffed, mimelook_sniff};
pub use type_names::mimelook_is_type_name;
pub use unalias::mimelook_unalias;
