//! Pairs of types: the lines of `aliases` and `subclasses`.

use crate::names::TypeName;

/// Two types: an alias and the type that it stands for (a line of `aliases`, "Directory layout"), or
/// a type and one of its parents (a line of `subclasses`, "Subclassing").
#[derive(Debug, Drop)]
pub struct Pair {
    /// The alias, or the type that has the parent.
    pub name: TypeName,
    /// The type that the alias stands for, or the parent.
    pub target: TypeName,
}
