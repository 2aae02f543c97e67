//! The magic list of a cache, as an index of it.

ghost use Rattle.std.specs.Prelude.{◌≤◌, ◌+◌, ◌/◌, IfOk, length};
ghost use Rattle.mime_lookup.specs.MagicOf.{IsMagicOf};

use crate::indexed::magic_index::MagicIndex;
use mime_base::{Counted, Meter};
use mime_load::Unread;
use std::alloc::Global;

/// The index of the magic list of a cache.
pub fn read_magic<'a>(
    alloc: Global,
    counted: &Counted<'a>,
    meter: &mut Meter,
) -> Result<MagicIndex<'a>, Unread>
    // It is one of that list.
    ensures index { IfOk result (IsMagicOf counted.now) }
    // It visits at most a record for each sixteen bytes of the cache, and two.
    ensures nodes { meter.new.nodes ≤ meter.old.nodes + length counted.now / 16 + 2 }
{
    let magic = mime_load::read_magic(alloc, counted, meter)?;
    let index = MagicIndex::new(alloc, magic)?;
    Ok(index)
}
