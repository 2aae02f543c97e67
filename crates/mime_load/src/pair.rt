//! Pairs of texts that lie in a cache.

/// Two texts of a cache: an alias and its type, a type and one of its parents, or a type and the name of its icon ("The mime.cache
/// files").
#[derive(Clone, Copy, Debug)]
pub struct LentPair<'a> {
    /// The alias, or the type.
    pub name: &'a [u8],
    /// The type that the alias stands for, the parent, or the name of the icon.
    pub target: &'a [u8],
}
