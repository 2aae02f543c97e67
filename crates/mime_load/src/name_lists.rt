//! The parts of a cache that give types to names.

ghost use Rattle.std.specs.Prelude.{◌≡◌, ◌≤◌, ℕ, ◌+◌, ◌*◌, ◌/◌, List, length, IfErr, IfOk};
ghost use Rattle.mime_base.specs.Database.{PlainDatabase};
ghost use Rattle.mime_base.specs.Database.Limits.{IsWithinLimits};
ghost use Rattle.mime_base.specs.Format.Packed.{Packed};
ghost use Rattle.mime_base.specs.Format.Spells.{Spells, cache_limit};
ghost use Rattle.mime_base.specs.declared.database.rule.GlobRule.{GlobRule};
ghost use Rattle.mime_load.specs.NameLists.{AreNameLists, HasNames, rule_bytes};
ghost use Rattle.mime_load.specs.Taking.{PaysFor};

use crate::leaf::Leaves;
use crate::pair::LentPair;
use crate::pairs::aliases_at;
use crate::reading_back::read_header;
use crate::rules::{globs_at, literals_at};
use crate::source::Source;
use crate::suffix_tree::leaves_at;
use crate::taking::{Taking, room_of};
use crate::unread::Unread;
use mime_base::{Counted, LentRule, Meter};
use std::alloc::Global;

/// The lists of a cache that give types to names, lent from its bytes. This project's own.
#[derive(Debug, Drop)]
pub struct NameLists<'a> {
    /// The aliases with their types, sorted by the aliases.
    pub aliases: Vec<LentPair<'a>>,
    /// The rules of the literal list, sorted by their patterns.
    pub literals: Vec<LentRule<'a>>,
    /// The rules of the suffix tree, in the order of its leaves.
    pub leaves: Leaves<'a>,
    /// The rules of the glob list, in its order.
    pub globs: Vec<LentRule<'a>>,
}

/// The lists of a cache that give types to names; its other parts are not looked at.
pub fn read_names<'a>(
    alloc: Global,
    counted: &Counted<'a>,
    meter: &mut Meter,
) -> Result<NameLists<'a>, Unread>
    // The lists that are given stand where the header says.
    ensures stand { IfOk result (AreNameLists counted.now) }
    // Where such lists stand, in a cache that is not too large and has a byte for each that the rules' records need, only memory can be
    // short.
    ensures need { (aliases : List (List ℕ × List ℕ)) (rules : List GlobRule) → HasNames counted.now aliases rules →
        length counted.now ≤ cache_limit → rule_bytes rules ≤ length counted.now → IfErr result (λ e. e ≡ Unread.OutOfMemory) }
    // So the names of a cache that was written are read back, unless memory is refused.
    ensures written { (b : PlainDatabase) → IsWithinLimits b → Spells counted.now b → Packed counted.now b →
        IfErr result (λ e. e ≡ Unread.OutOfMemory) }
    // It visits at most a record for each four bytes of the cache, one for each eight, and five, whatever the bytes are.
    ensures nodes { meter.new.nodes ≤ meter.old.nodes + length counted.now / 4 + length counted.now / 8 + 5 }
    // It reads at most 300 times as many bytes as the cache has.
    ensures bytes { meter.new.bytes ≤ meter.old.bytes + 300 * length counted.now }
{
    let source = Source { alloc, counted };
    let mut taking = room_of(counted.length(), *meter);
    let result = name_lists_of(&source, &mut taking);
    *meter = taking.meter;
    result
}

/// The lists, and what they took.
fn name_lists_of<'a>(source: &Source<'_, 'a>, taking: &mut Taking) -> Result<NameLists<'a>, Unread>
    ensures stand { IfOk result (AreNameLists source.now.counted.now) }
    // Where such lists stand, and there is room for them, only memory can be short.
    ensures need { (aliases : List (List ℕ × List ℕ)) (rules : List GlobRule) → HasNames source.now.counted.now aliases rules →
        length source.now.counted.now ≤ cache_limit → rule_bytes rules ≤ taking.old.records → IfErr result (λ e. e ≡ Unread.OutOfMemory) }
    // What was looked at was taken, but for the header, the heads of lists, and the aliases.
    ensures pays { PaysFor (5 + length source.now.counted.now / 8) (length source.now.counted.now / 4) taking.old taking.new }
{
    let header = read_header(source, taking)?;
    let aliases = aliases_at(source, header[1], taking)?;
    let literals = literals_at(source, header[3], taking)?;
    let leaves = leaves_at(source, header[4], taking)?;
    let globs = globs_at(source, header[5], taking)?;
    Ok(NameLists {
        aliases,
        literals,
        leaves,
        globs,
    })
}
