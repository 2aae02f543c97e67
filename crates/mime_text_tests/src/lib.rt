//! Tests of what is read of a command line's words and of text files, and of names and patterns, by
//! what no clause says.
//!
//! A crate with tests is proved twice, once with them and once without. So the tests of the libraries
//! stand in crates of their own, which are quickly proved: here a module for each library, and below it
//! one for each subject. Those of databases and caches stand in `mime_cache_tests`, those of lookups in `mime_lookup_tests` and
//! `mime_cached_tests`, which are tested at the same time.
#![tactic(auto)]

#[cfg(test)]
mod tests;
