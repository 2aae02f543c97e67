//! Tests of databases that are merged and written as caches, and of caches' bytes, by what no clause says.
//!
//! There is a module for each library, and below it one for each subject. The tests of the other
//! libraries, and why none has its own, stand in `mime_text_tests`.
//!
//! A long table is named by one function alone, which lends it: the proof of a function holds each text of what it names.
#![tactic(auto)]

#[cfg(test)]
mod tests;
