//! The lists of a cache.

use crate::leaf::Leaves;
use crate::magic::LentMagic;
use crate::pair::LentPair;
use mime_base::LentRule;

/// What a cache spells, lent from its bytes. This project's own.
#[derive(Debug, Drop)]
pub struct Lists<'a> {
    /// The aliases with their types, sorted by the aliases.
    pub aliases: Vec<LentPair<'a>>,
    /// The types with their parents, sorted by the types.
    pub parents: Vec<LentPair<'a>>,
    /// The rules of the literal list, sorted by their patterns.
    pub literals: Vec<LentRule<'a>>,
    /// The rules of the suffix tree, in the order of its leaves.
    pub leaves: Leaves<'a>,
    /// The rules of the glob list, in its order.
    pub globs: Vec<LentRule<'a>>,
    /// The sections of magic with their lines, in the order of the list.
    pub magic: LentMagic<'a>,
    /// The types with their icons, sorted by the types.
    pub icons: Vec<LentPair<'a>>,
    /// The types with their generic icons, sorted by the types.
    pub generic_icons: Vec<LentPair<'a>>,
}
