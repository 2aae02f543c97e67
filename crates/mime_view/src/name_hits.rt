//! Which rules of a name are asked for, and the answer. This project's own.

use crate::texts::Texts;

/// Which of the rules that match a name are asked for ("Recommended checking order").
#[derive(Clone, Copy, Debug, PartialEq, Eq)]
pub enum Which {
    /// Those that are kept, in merged order.
    Kept,
    /// All that match, by falling rank: those that are kept come first. Those of one rank are in merged order.
    Candidates,
}

/// The types of the rules that match a name, and how many of these are kept.
#[derive(Drop)]
pub struct NameHits<'a> {
    /// The types, in the order of the rules.
    pub kinds: Texts<'a>,
    /// How many of the first are those of kept rules.
    pub kept: usize,
}
