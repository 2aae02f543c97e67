//! An index of the icons of a cache.

ghost use Rattle.std.specs.Prelude.{◌≡◌, IfOk};
ghost use Rattle.mime_load.specs.IconLists.{AreIconLists};
ghost use Rattle.mime_lookup.specs.Icons.{AnswersIcons, HasIconLists};

use crate::cached::icons::IconText;
use crate::icon_index::IconIndex;
use mime_base::{Counted, OutOfMemory};
use mime_load::IconLists;
use std::alloc::Global;
use std::marker::Model;

/// The aliases and the icons of a cache, prepared once for many types. This project's own.
#[derive(Drop)]
pub struct IndexedIcons<'a> {
    /// The bytes of the cache.
    counted: Counted<'a>,
    /// Its aliases and its icons.
    index: IconIndex<'a>,
}

impl<'a> Model for IndexedIcons<'a> {
    ghost use Rattle.std.specs.Prelude.{ℕ, List};
    ghost use Rattle.mime_lookup.specs.IconsReadBack.{AreIconsOf};

    ghost Value = { List ℕ };

    ghost view = { λ icons. icons.counted };

    ghost invariant = { λ icons. AreIconsOf icons.counted icons.index };
}

impl<'a> IndexedIcons<'a> {
    /// The index over the lists of a cache. Its time and memory grow with its aliases and icons.
    pub fn new(
        alloc: Global,
        counted: Counted<'a>,
        lists: &IconLists<'a>,
    ) -> Result<IndexedIcons<'a>, OutOfMemory>
        // The lists stand in the cache.
        requires { AreIconLists counted lists.now }
        // It is an index over this cache.
        ensures { IfOk result (λ icons. icons ≡ counted.entry) }
    {
        let index = IconIndex::new(alloc, lists)?;
        Ok(IndexedIcons { counted, index })
    }

    /// The names of a type's icon and of its generic icon.
    // Part of its caller.
    #[inline(always)]
    pub fn names_of(&self, alloc: Global, kind: &[u8]) -> Result<(IconText, IconText), OutOfMemory>
        // Where the aliases and both lists of icons of a database stand, they are the icons of the type.
        ensures answer { AnswersIcons (λ names. record { icon = names.0.items; generic = names.1.items }) self.now kind.now result }
        // All three lists lie in the cache.
        ensures lists { HasIconLists self.now }
    {
        self.index.names_of(alloc, kind)
    }
}
