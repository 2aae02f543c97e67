//! Glob rules that an index is made of.

use crate::pattern_text::PatternText;

/// A glob rule that an index is made of. Its types, and its pattern where that is lent, are lent for as long as the index is there.
#[derive(Clone, Copy, Debug)]
pub struct NamedRule<'a> {
    /// Its weight, from 0 to 255. Of the rules of one class that match, the heaviest are kept.
    pub weight: u8,
    /// The type that the rule gives.
    pub kind: &'a [u8],
    /// The type that the rule itself has, which may be an alias of that.
    pub own_kind: &'a [u8],
    /// The pattern of the names that it matches.
    pub pattern: PatternText<'a>,
    /// Whether it is case-sensitive: then the capitals of ASCII differ from the small letters.
    pub cased: bool,
}
