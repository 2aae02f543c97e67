//! The limits of a lookup. This project's own.

/// The longest name that is looked up, in bytes.
pub const LONGEST_NAME: usize = 4096;
