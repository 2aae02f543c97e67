//! Caches that were made by hand and databases of small texts, which the tests of the other crates share.
#![tactic(auto)]

pub mod caches;
pub mod texts;
