//! Tests of the program over text files and directories, and of what builds a cache of them, by what no clause says.
//!
//! The files, sinks and readers are those of `mime_fakes`. What is printed from a cache, the texts of help and of mistakes, and
//! sinks that fail are tested in `mime_command_tests`.
#![tactic(auto)]

#[cfg(test)]
mod tests;
