//! A whole cache.

ghost use Rattle.std.specs.Prelude.{◌≡◌, ◌≤◌, ◌+◌, ◌*◌, ◌/◌, length, slice_index, Ok, IfErr, IfOk};
ghost use Rattle.mime_base.specs.Cache.Bytes.{Stands};
ghost use Rattle.mime_base.specs.Database.{PlainDatabase};
ghost use Rattle.mime_base.specs.Database.Limits.{IsWithinLimits};
ghost use Rattle.mime_base.specs.Format.Packed.{Packed};
ghost use Rattle.mime_base.specs.Format.Header.{HeaderAt, Offsets};
ghost use Rattle.mime_base.specs.Format.Spells.{Spells, cache_limit};
ghost use Rattle.mime_load.specs.FirstUnread.{IsFirstUnread};
ghost use Rattle.mime_load.specs.Lent.{plain_lists};
ghost use Rattle.mime_load.specs.Taking.{OnlyLooks, PaysFor};
ghost use Rattle.mime_load.specs.Whole.{AreLists, IsHeader};

use crate::lists::Lists;
use crate::pairs::{aliases_at, icons_at};
use crate::parents::parents_at;
use crate::part::{LoadFault, Part, fault_of};
use crate::reading::read_numbers;
use crate::rules::{globs_at, literals_at};
use crate::sections::magic_at;
use crate::source::Source;
use crate::suffix_tree::leaves_at;
use crate::taking::{Taking, room_of};
use crate::unread::Unread;
use mime_base::{Counted, LARGEST_CACHE, Meter};
use std::alloc::Global;

/// The version of a cache that is read, 1 and 2 in 16 bits each.
const VERSION: u32 = 65_538;

/// The lists that a cache spells, lent from its bytes, or the first part that is not read back, in the order of [`Part`]. This
/// project's own.
///
/// It takes at most a rule, a pair, a section or a line for each 12, 8, 16 or 32 bytes of the cache, all of them together no more than
/// the cache's length, whatever records share or repeat. It recurses at most 64 levels of lines and 255 of characters.
pub fn read_back<'a>(
    alloc: Global,
    counted: &Counted<'a>,
    meter: &mut Meter,
) -> Result<Lists<'a>, LoadFault>
    // The cache spells the lists that are given.
    ensures spells { IfOk result (λ lists. Spells counted.now (plain_lists lists)) }
    // It has a byte for each that their records and values need.
    ensures packed { IfOk result (λ lists. Packed counted.now (plain_lists lists)) }
    // Each rule and each line is one that the text files can spell.
    ensures limits { IfOk result (λ lists. IsWithinLimits (plain_lists lists)) }
    // The part that is named is the first that stands nowhere in the room that those before it leave.
    ensures first { IfErr result (λ e. (part : Part) → e ≡ LoadFault.NoDatabase part → IsFirstUnread counted.now part) }
    // A cache that was written is read back, unless memory is refused.
    ensures written { (b : PlainDatabase) → IsWithinLimits b → Spells counted.now b → Packed counted.now b →
        IfErr result (λ e. e ≡ LoadFault.OutOfMemory) }
    // It visits at most as many records as the cache has bytes, and ten, whatever the bytes are.
    ensures nodes { meter.new.nodes ≤ meter.old.nodes + length counted.now + 10 }
    // It reads at most 300 times as many bytes as the cache has.
    ensures bytes { meter.new.bytes ≤ meter.old.bytes + 300 * length counted.now }
{
    let source = Source { alloc, counted };
    let mut taking = room_of(counted.length(), *meter);
    let result = lists_of(&source, &mut taking);
    *meter = taking.meter;
    result
}

/// The lists of a cache, and what they took.
fn lists_of<'a>(source: &Source<'_, 'a>, taking: &mut Taking) -> Result<Lists<'a>, LoadFault>
    // The room is the cache's length.
    requires room { (taking.old.records ≡ length source.now.counted.now) × (taking.old.value_bytes ≡ length source.now.counted.now) }
    // The part that is named is the first that isn't read back.
    ensures first { IfErr result (λ e. (part : Part) → e ≡ LoadFault.NoDatabase part → IsFirstUnread source.now.counted.now part) }
    // The lists stand, and took their room.
    ensures lists { IfOk result (λ lists. AreLists source.now.counted.now taking.old taking.new lists) }
    // What was looked at was taken, but for the heads of lists, aliases, types with parents and icons.
    ensures pays { PaysFor (9 + length source.now.counted.now * 5 / 8) (length source.now.counted.now * 7 / 8) taking.old taking.new }
{
    let header = of_part(Part::Header, read_header(source, taking))?;
    let aliases = of_part(Part::Aliases, aliases_at(source, header[1], taking))?;
    let parents = of_part(Part::Subclasses, parents_at(source, header[2], taking))?;
    let literals = of_part(Part::Literals, literals_at(source, header[3], taking))?;
    let leaves = of_part(Part::Suffixes, leaves_at(source, header[4], taking))?;
    let globs = of_part(Part::Globs, globs_at(source, header[5], taking))?;
    let magic = of_part(Part::Magic, magic_at(source, header[6], taking))?;
    let icons = of_part(Part::Icons, icons_at(source, header[8], taking))?;
    let generic_icons = of_part(Part::GenericIcons, icons_at(source, header[9], taking))?;
    Ok(Lists {
        aliases,
        parents,
        literals,
        leaves,
        globs,
        magic,
        icons,
        generic_icons,
    })
}

/// What was read of a part, or its fault.
fn of_part<T: Drop>(part: Part, read: Result<T, Unread>) -> Result<T, LoadFault>
    ensures read { IfOk result (λ value. read ≡ Ok value) }
    // A fault that names a part names this one, which isn't short of memory.
    ensures named { IfErr result (λ e. (named : Part) → e ≡ LoadFault.NoDatabase named →
        (part ≡ named) × (IfErr read (λ why. why ≡ Unread.OutOfMemory) → ⊥)) }
{
    match read {
        Ok(value) => Ok(value),
        Err(fault) => Err(fault_of(part, fault)),
    }
}

/// The header of a cache of this version that is not too large.
pub fn read_header(source: &Source<'_, '_>, taking: &mut Taking) -> Result<[u32; 10], Unread>
    // Such a header stands at the beginning.
    ensures header { IfOk result (λ numbers. IsHeader source.now.counted.now numbers) }
    // One that stands is read.
    ensures need { (offsets : Offsets) → HeaderAt (Stands source.now.counted.now) offsets → length source.now.counted.now ≤ cache_limit →
        IfErr result (λ e. e ≡ Unread.OutOfMemory) }
    // One record is visited, and no room is taken.
    ensures looks { OnlyLooks 1 0 taking.old taking.new }
{
    let header = read_numbers::<10>(source, 0, taking)?;
    if header[0] != VERSION || source.counted.length() > LARGEST_CACHE as u64 {
        return Err(Unread::NotSpelled);
    }
    Ok(header)
}
