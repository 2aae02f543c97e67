//! Tests of lookups of names, contents, icons and subclasses, by the lists of a database, by its index and by its cache, by what no
//! clause says. Those over caches that were made by hand, damaged or read back stand in `mime_cached_tests`.
#![tactic(auto)]

#[cfg(test)]
mod tests;
