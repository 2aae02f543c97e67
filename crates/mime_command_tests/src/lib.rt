//! Tests of the program's commands over a cache, of the texts of help and of mistakes, of the FILEs of a list, and of sinks
//! that fail, by what no clause says.
//!
//! The files and sinks are those of `mime_fakes`. What is printed from text files and directories, and the files of the
//! system, are tested in `mime_tool_tests`.
#![tactic(auto)]

#[cfg(test)]
mod tests;
