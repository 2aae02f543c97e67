//! The parts of a cache that subclasses are found by.

ghost use Rattle.std.specs.Prelude.{◌≡◌, ◌≤◌, ℕ, ◌+◌, ◌*◌, ◌/◌, List, length, IfErr, IfOk};
ghost use Rattle.mime_base.specs.Database.{PlainDatabase};
ghost use Rattle.mime_base.specs.Database.Limits.{IsWithinLimits};
ghost use Rattle.mime_base.specs.Format.Packed.{Packed};
ghost use Rattle.mime_base.specs.Format.Spells.{Spells, cache_limit};
ghost use Rattle.mime_load.specs.PairLists.{ArePairLists, HasPairs};
ghost use Rattle.mime_load.specs.Taking.{PaysFor};

use crate::pair::LentPair;
use crate::pairs::aliases_at;
use crate::parents::parents_at;
use crate::reading_back::read_header;
use crate::source::Source;
use crate::taking::{Taking, room_of};
use crate::unread::Unread;
use mime_base::{Counted, Meter};
use std::alloc::Global;

/// The lists of a cache that subclasses are found by, lent from its bytes. This project's own.
#[derive(Debug, Drop)]
pub struct PairLists<'a> {
    /// The aliases with their types, sorted by the aliases.
    pub aliases: Vec<LentPair<'a>>,
    /// The types with their parents, sorted by the types.
    pub parents: Vec<LentPair<'a>>,
}

/// The lists of a cache that subclasses are found by; its other parts are not looked at.
pub fn read_pairs<'a>(
    alloc: Global,
    counted: &Counted<'a>,
    meter: &mut Meter,
) -> Result<PairLists<'a>, Unread>
    // The lists that are given stand where the header says.
    ensures stand { IfOk result (ArePairLists counted.now) }
    // Where such lists stand, in a cache that is not too large and has four bytes for each parent, only memory can be short.
    ensures need { (aliases parents : List (List ℕ × List ℕ)) → HasPairs counted.now aliases parents →
        length counted.now ≤ cache_limit → 4 * length parents ≤ length counted.now → IfErr result (λ e. e ≡ Unread.OutOfMemory) }
    // So the pairs of a cache that was written are read back, unless memory is refused.
    ensures written { (b : PlainDatabase) → IsWithinLimits b → Spells counted.now b → Packed counted.now b →
        IfErr result (λ e. e ≡ Unread.OutOfMemory) }
    // It visits at most a record for each two bytes of the cache, one for each eight, and three, whatever the bytes are.
    ensures nodes { meter.new.nodes ≤ meter.old.nodes + length counted.now / 2 + length counted.now / 8 + 3 }
    // It reads at most 162 times as many bytes as the cache has.
    ensures bytes { meter.new.bytes ≤ meter.old.bytes + 162 * length counted.now }
{
    let source = Source { alloc, counted };
    let mut taking = room_of(counted.length(), *meter);
    let result = pair_lists_of(&source, &mut taking);
    *meter = taking.meter;
    result
}

/// The lists, and what they took.
fn pair_lists_of<'a>(source: &Source<'_, 'a>, taking: &mut Taking) -> Result<PairLists<'a>, Unread>
    ensures stand { IfOk result (ArePairLists source.now.counted.now) }
    // Where such lists stand, and there is room for the parents, only memory can be short.
    ensures need { (aliases parents : List (List ℕ × List ℕ)) → HasPairs source.now.counted.now aliases parents →
        length source.now.counted.now ≤ cache_limit → 4 * length parents ≤ taking.old.records → IfErr result (λ e. e ≡ Unread.OutOfMemory) }
    // What was looked at was taken, but for the header, the heads of both lists, the aliases, and the types that have parents.
    ensures pays { PaysFor (3 + length source.now.counted.now / 4 + length source.now.counted.now / 8)
        (length source.now.counted.now / 4 + length source.now.counted.now / 8) taking.old taking.new }
{
    let header = read_header(source, taking)?;
    let aliases = aliases_at(source, header[1], taking)?;
    let parents = parents_at(source, header[2], taking)?;
    Ok(PairLists { aliases, parents })
}
