//! Icons of types: the lines of `icons` and `generic-icons`.

use crate::names::{IconName, TypeName};

/// A type and the name of its icon: a line of `icons` or `generic-icons` ("Directory layout").
#[derive(Debug, Drop)]
pub struct Icon {
    /// The type.
    pub kind: TypeName,
    /// The name of the icon in an icon theme.
    pub name: IconName,
}
