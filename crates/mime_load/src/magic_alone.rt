//! The magic list of a cache, read back by itself.

ghost use Rattle.std.specs.Prelude.{◌≡◌, ◌≤◌, ◌+◌, ◌*◌, ◌/◌, List, length, IfErr, IfOk};
ghost use Rattle.mime_base.specs.Database.{PlainDatabase};
ghost use Rattle.mime_base.specs.Database.Limits.{IsWithinLimits};
ghost use Rattle.mime_base.specs.Format.Packed.{Packed, matchlet_count, value_length};
ghost use Rattle.mime_base.specs.Format.Spells.{Spells, cache_limit};
ghost use Rattle.mime_base.specs.Magic.{PlainSection};
ghost use Rattle.mime_load.specs.Lent.{plain_magic};
ghost use Rattle.mime_load.specs.MagicStanding.{HasMagic};
ghost use Rattle.mime_load.specs.Taking.{HasSectionRoom, PaysFor, PaysWide};

use crate::magic::LentMagic;
use crate::reading_back::read_header;
use crate::sections::magic_at;
use crate::source::Source;
use crate::taking::{Taking, room_of};
use crate::unread::Unread;
use mime_base::{Counted, Meter};
use std::alloc::Global;

/// The sections of the magic list of a cache with their lines, lent from its bytes; its other parts are not looked at. This project's own.
pub fn read_magic<'a>(
    alloc: Global,
    counted: &Counted<'a>,
    meter: &mut Meter,
) -> Result<LentMagic<'a>, Unread>
    // The magic list of the cache is of these sections, and each line is one that magic can spell.
    ensures stand { IfOk result (λ magic. HasMagic counted.now (plain_magic magic)) }
    // It is of no others.
    ensures whole { (sections : List PlainSection) → HasMagic counted.now sections →
        IfOk result (λ found. plain_magic found ≡ sections) }
    // Where such sections stand, in a cache that is not too large and has a byte for each that their records need and one for each of
    // their values, only memory can be short.
    ensures need { (sections : List PlainSection) → HasMagic counted.now sections → length counted.now ≤ cache_limit →
        16 * length sections + 32 * matchlet_count sections ≤ length counted.now → value_length sections ≤ length counted.now →
        IfErr result (λ e. e ≡ Unread.OutOfMemory) }
    // So the magic of a cache that was written is read back, unless memory is refused.
    ensures written { (b : PlainDatabase) → IsWithinLimits b → Spells counted.now b → Packed counted.now b →
        IfErr result (λ e. e ≡ Unread.OutOfMemory) }
    // It visits at most a record for each sixteen bytes of the cache, and two.
    ensures nodes { meter.new.nodes ≤ meter.old.nodes + length counted.now / 16 + 2 }
    // It reads at most 66 times as many bytes as the cache has.
    ensures bytes { meter.new.bytes ≤ meter.old.bytes + 66 * length counted.now }
{
    let source = Source { alloc, counted };
    let mut taking = room_of(counted.length(), *meter);
    let result = sections_of(&source, &mut taking);
    *meter = taking.meter;
    result
}

/// The sections of a cache, and what they took.
fn sections_of<'a>(source: &Source<'_, 'a>, taking: &mut Taking) -> Result<LentMagic<'a>, Unread>
    ensures stand { IfOk result (λ magic. HasMagic source.now.counted.now (plain_magic magic)) }
    ensures whole { (sections : List PlainSection) → HasMagic source.now.counted.now sections →
        IfOk result (λ found. plain_magic found ≡ sections) }
    ensures need { (sections : List PlainSection) → HasMagic source.now.counted.now sections → length source.now.counted.now ≤ cache_limit →
        HasSectionRoom taking.old sections → IfErr result (λ e. e ≡ Unread.OutOfMemory) }
    ensures pays { PaysFor 2 0 taking.old taking.new }
    ensures wide { PaysWide 2 taking.old taking.new }
{
    let header = read_header(source, taking)?;
    let magic = magic_at(source, header[6], taking)?;
    Ok(magic)
}
