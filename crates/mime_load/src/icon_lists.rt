//! The parts of a cache that icons are found by.

ghost use Rattle.std.specs.Prelude.{◌≡◌, ◌≤◌, ℕ, ◌+◌, ◌*◌, ◌/◌, List, length, IfErr, IfOk};
ghost use Rattle.mime_base.specs.Database.{PlainDatabase};
ghost use Rattle.mime_base.specs.Format.Spells.{Spells, cache_limit};
ghost use Rattle.mime_load.specs.IconLists.{AreIconLists, HasIcons};
ghost use Rattle.mime_load.specs.Taking.{OnlyLooks};

use crate::pair::LentPair;
use crate::pairs::pairs_at;
use crate::reading_back::read_header;
use crate::source::Source;
use crate::taking::{Taking, room_of};
use crate::unread::Unread;
use mime_base::{Counted, Meter};
use std::alloc::Global;

/// The lists of a cache that icons are found by, lent from its bytes. This project's own.
#[derive(Debug, Drop)]
pub struct IconLists<'a> {
    /// The aliases with their types, sorted by the aliases.
    pub aliases: Vec<LentPair<'a>>,
    /// The types with the names of their icons, sorted by the types.
    pub icons: Vec<LentPair<'a>>,
    /// The types with the names of their generic icons, sorted by the types.
    pub generic_icons: Vec<LentPair<'a>>,
}

/// The lists of a cache that icons are found by ("The mime.cache files"); its other parts are not looked at.
///
/// What these lists share is read once for each. [`Unread::NotSpelled`] says that the bytes are no such cache, or that one of the
/// lists stands nowhere in them.
pub fn read_icons<'a>(
    alloc: Global,
    counted: &Counted<'a>,
    meter: &mut Meter,
) -> Result<IconLists<'a>, Unread>
    // The lists that are given stand where the header says.
    ensures stand { IfOk result (AreIconLists counted.now) }
    // Where such lists stand, in a cache that is not too large, only memory can be short.
    ensures need { (aliases icons generic_icons : List (List ℕ × List ℕ)) → HasIcons counted.now aliases icons generic_icons →
        length counted.now ≤ cache_limit → IfErr result (λ e. e ≡ Unread.OutOfMemory) }
    // So the icons of a cache that spells a database are read back, unless memory is refused.
    ensures written { (b : PlainDatabase) → Spells counted.now b → IfErr result (λ e. e ≡ Unread.OutOfMemory) }
    // It visits at most three records for each eight bytes of the cache, and four, whatever the bytes are.
    ensures nodes { meter.new.nodes ≤ meter.old.nodes + 3 * (length counted.now / 8) + 4 }
    // It reads at most 192 times as many bytes as the cache has.
    ensures bytes { meter.new.bytes ≤ meter.old.bytes + 192 * length counted.now }
{
    let source = Source { alloc, counted };
    let mut taking = room_of(counted.length(), *meter);
    let result = icon_lists_of(&source, &mut taking);
    *meter = taking.meter;
    result
}

/// The lists, and what was looked at.
fn icon_lists_of<'a>(source: &Source<'_, 'a>, taking: &mut Taking) -> Result<IconLists<'a>, Unread>
    ensures stand { IfOk result (AreIconLists source.now.counted.now) }
    ensures need { (aliases icons generic_icons : List (List ℕ × List ℕ)) →
        HasIcons source.now.counted.now aliases icons generic_icons → length source.now.counted.now ≤ cache_limit →
        IfErr result (λ e. e ≡ Unread.OutOfMemory) }
    ensures looks { OnlyLooks (4 + 3 * (length source.now.counted.now / 8)) (3 * (length source.now.counted.now / 4))
        taking.old taking.new }
{
    let header = read_header(source, taking)?;
    let aliases = pairs_at(source, u64::from(header[1]), taking)?;
    let icons = pairs_at(source, u64::from(header[8]), taking)?;
    let generic_icons = pairs_at(source, u64::from(header[9]), taking)?;
    Ok(IconLists {
        aliases,
        icons,
        generic_icons,
    })
}
