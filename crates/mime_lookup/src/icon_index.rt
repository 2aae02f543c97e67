//! The icons of types, prepared once for many types.

ghost use Rattle.std.specs.Prelude.{◌≡◌, IfOk};
ghost use Rattle.mime_base.specs.Database.{PlainDatabase};
ghost use Rattle.mime_load.specs.Lent.{plain_pairs};
ghost use Rattle.mime_lookup.specs.Icons.{icons_of};
ghost use Rattle.mime_lookup.specs.IconsReadBack.{AreIcons, HasNameMaps};

use crate::cached::icons::{IconText, generic_or_media, icon_or_hyphens};
use crate::name_map::{NameMap, value_of};
use crate::read_back::targets::{target_of, targets_by_name, targets_of};
use mime_base::OutOfMemory;
use mime_load::IconLists;
use std::alloc::Global;

/// The aliases and the icons of types.
#[derive(Drop)]
pub struct IconIndex<'a> {
    /// The type of each alias.
    aliases: NameMap<'a, &'a [u8]>,
    /// The name of each type's icon.
    icons: NameMap<'a, &'a [u8]>,
    /// The name of each type's generic icon.
    generic_icons: NameMap<'a, &'a [u8]>,
}

impl<'a> IconIndex<'a> {
    /// The index of these lists. Its time and memory grow with them.
    pub fn new(alloc: Global, lists: &IconLists<'a>) -> Result<IconIndex<'a>, OutOfMemory>
        // Its names are found.
        ensures found { IfOk result HasNameMaps }
        // It has what these lists give to types.
        ensures are { IfOk result (AreIcons (plain_pairs lists.now.aliases.items) (plain_pairs lists.now.icons.items)
            (plain_pairs lists.now.generic_icons.items)) }
    {
        let aliases = targets_of(alloc, &lists.aliases)?;
        let icons = targets_by_name(alloc, &lists.icons)?;
        let generic_icons = targets_by_name(alloc, &lists.generic_icons)?;
        Ok(IconIndex {
            aliases,
            icons,
            generic_icons,
        })
    }

    /// The names of a type's icon and of its generic icon.
    // Part of each of its two callers.
    #[inline(always)]
    pub fn names_of(&self, alloc: Global, kind: &[u8]) -> Result<(IconText, IconText), OutOfMemory>
        // Its names are found.
        requires { HasNameMaps self.now }
        // They are the icons of the type, by each database whose lists these are.
        ensures { (b : PlainDatabase) → AreIcons b.aliases b.icons b.generic_icons self.now →
            IfOk result (λ names. record { icon = names.0.items; generic = names.1.items } ≡ icons_of b kind.now) }
    {
        let kind = target_of(&self.aliases, kind);
        let icon = icon_or_hyphens(alloc, value_of(&self.icons, kind), kind)?;
        let generic = generic_or_media(alloc, value_of(&self.generic_icons, kind), kind)?;
        Ok((icon, generic))
    }
}
