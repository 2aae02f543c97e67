//! Glob rules: the lines of `globs2`.

use crate::names::{Pattern, TypeName};

/// A glob rule: it gives a type to the names that its pattern matches (a line of `globs2`, "The glob
/// files").
#[derive(Debug, Drop)]
pub struct GlobRule {
    /// Its weight, from 0 to 255. Of the rules of one class that match, the heaviest are kept.
    pub weight: u8,
    /// The type that the rule gives.
    pub kind: TypeName,
    /// The pattern of the names that it matches.
    pub pattern: Pattern,
    /// Whether it is case-sensitive: then the capitals of ASCII differ from the small letters.
    pub cased: bool,
}
