//! Glob rules whose texts lie in what they were read from.

/// A glob rule whose texts lie in what it was read from.
#[derive(Clone, Copy, Debug)]
pub struct LentRule<'a> {
    /// Its weight, from 0 to 255. Of the rules of one class that match, the heaviest are kept.
    pub weight: u8,
    /// The type that the rule gives.
    pub kind: &'a [u8],
    /// The pattern of the names that it matches.
    pub pattern: &'a [u8],
    /// Whether it is case-sensitive: then the capitals of ASCII differ from the small letters.
    pub cased: bool,
}
