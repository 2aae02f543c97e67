//! Tests of lookups over the bytes of caches, as they were made by hand and by others, damaged, hostile, and read back, by what no
//! clause says.
#![tactic(auto)]

#[cfg(test)]
mod tests;
