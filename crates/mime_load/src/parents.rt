//! The parent list.

ghost use Rattle.std.specs.Prelude.{◌≡◌, ◌<◌, ◌≤◌, ◌+◌, ◌*◌, ◌/◌, ◌^◌, ℕ, List, true, false, length, map, IfErr, IfOk};
ghost use Rattle.mime_base.specs.Cache.Bytes.{Stands};
ghost use Rattle.mime_base.specs.Format.Parents.{IsName, ParentsAt};
ghost use Rattle.mime_base.specs.Format.Records.{ListAt};
ghost use Rattle.mime_base.specs.Format.Sorted.{text_lt};
ghost use Rattle.mime_load.specs.Lent.{plain_pairs};
ghost use Rattle.mime_load.specs.ParentLists.{AddsParents, EntryStands, IsParentEntry};
ghost use Rattle.mime_load.specs.Parts.{RecordAt};
ghost use Rattle.mime_load.specs.Taking.{OnlyLooks, TakesOnlyRecords};

use crate::order::text_lt;
use crate::pair::LentPair;
use crate::reading::{read_count, read_numbers, read_text};
use crate::source::Source;
use crate::taking::{Taking, take_records};
use crate::unread::Unread;

/// How many bytes the record of a parent has.
const PARENT: u64 = 4;

/// The types with their parents of the parent list at `at`, sorted by the types ("The mime.cache files"). The parents' records are
/// taken.
pub fn parents_at<'a>(
    source: &Source<'_, 'a>,
    at: u32,
    taking: &mut Taking,
) -> Result<Vec<LentPair<'a>>, Unread>
    // A parent list of these pairs stands there.
    ensures stand { IfOk result (λ pairs. ParentsAt (Stands source.now.counted.now) at (plain_pairs pairs.items)) }
    // Of pairs whose parent list stands there, and with room for them, only memory can be short.
    ensures need { (pairs : List (List ℕ × List ℕ)) → ParentsAt (Stands source.now.counted.now) at pairs →
        4 * length pairs ≤ taking.old.records → IfErr result (λ e. e ≡ Unread.OutOfMemory) }
    // They take four bytes each.
    ensures taken { IfOk result (λ pairs. taking.new.records + 4 * length pairs.items ≡ taking.old.records) }
    // No room of values is taken; besides, at most a record for each four bytes of the cache is visited, and a text for each eight read.
    ensures takes { TakesOnlyRecords (1 + length source.now.counted.now / 4) (length source.now.counted.now / 8) taking.old taking.new }
{
    let start = u64::from(at);
    let count = read_count(source, start, 8, taking)?;
    let mut pairs = Vec::new(source.alloc);
    let mut previous: &[u8] = &[];
    for i in 0..count {
        let kind = read_entry(source, start + 4 + 8 * u64::from(i), &mut pairs, taking)?;
        if !comes_next(i, previous, kind) {
            return Err(Unread::NotSpelled);
        }
        previous = kind;
    }
    Ok(pairs)
}

/// Whether a type is after the previous one, if any was read.
fn comes_next(read: u32, previous: &[u8], kind: &[u8]) -> bool
    ensures rises { result ≡ true → 0 < read → text_lt previous.now kind.now ≡ true }
    ensures falls { result ≡ false → (0 < read) × (text_lt previous.now kind.now ≡ false) }
{
    read == 0 || text_lt(previous, kind)
}

/// Adds the pairs of the type of the entry at `at`, which it gives.
fn read_entry<'a>(
    source: &Source<'_, 'a>,
    at: u64,
    pairs: &mut Vec<LentPair<'a>>,
    taking: &mut Taking,
) -> Result<&'a [u8], Unread>
    ensures need { (kind : List ℕ) (targets : List (List ℕ)) → EntryStands source.now.counted.now at kind targets → 0 < length targets →
        4 * length targets ≤ taking.old.records → IfErr result (λ e. e ≡ Unread.OutOfMemory) }
    ensures entry { IfOk result (λ kind. IsParentEntry source.now.counted.now at kind.now (plain_pairs pairs.old.items) (plain_pairs pairs.new.items)) }
    ensures taken { IfOk result (λ kind. taking.new.records + 4 * length pairs.new.items ≡ taking.old.records + 4 * length pairs.old.items) }
    ensures takes { TakesOnlyRecords 2 1 taking.old taking.new }
{
    let numbers = read_numbers::<2>(source, at, taking)?;
    let [first, list] = numbers;
    let kind = read_text(source, first, taking)?;
    read_parents(source, u64::from(list), kind, pairs, taking)?;
    Ok(kind)
}

/// Adds the pairs of a type and its parents, of which the list at `at` has some.
fn read_parents<'a>(
    source: &Source<'_, 'a>,
    at: u64,
    kind: &'a [u8],
    pairs: &mut Vec<LentPair<'a>>,
    taking: &mut Taking,
) -> Result<(), Unread>
    requires at { at < 2 ^ 32 }
    ensures need { (targets : List (List ℕ)) →
        ListAt (Stands source.now.counted.now) 4 (IsName (Stands source.now.counted.now)) at targets →
        0 < length targets → 4 * length targets ≤ taking.old.records → IfErr result (λ e. e ≡ Unread.OutOfMemory) }
    ensures adds { IfOk result (λ _. AddsParents source.now.counted.now at kind.now (plain_pairs pairs.old.items) (plain_pairs pairs.new.items)) }
    ensures taken { IfOk result (λ _. taking.new.records + 4 * length pairs.new.items ≡ taking.old.records + 4 * length pairs.old.items) }
    ensures takes { TakesOnlyRecords 1 0 taking.old taking.new }
{
    let count = read_count(source, at, PARENT, taking)?;
    if count == 0 {
        return Err(Unread::NotSpelled);
    }
    take_records(PARENT * u64::from(count), taking)?;
    for i in 0..count {
        let target = read_parent(source, at + 4 + 4 * u64::from(i), taking)?;
        pairs.push(LentPair { name: kind, target })?;
    }
    Ok(())
}

/// The parent whose offset stands at `at`.
fn read_parent<'a>(
    source: &Source<'_, 'a>,
    at: u64,
    taking: &mut Taking,
) -> Result<&'a [u8], Unread>
    ensures stands { IfOk result (λ target. RecordAt (Stands source.now.counted.now) (IsName (Stands source.now.counted.now)) at target.now) }
    ensures need { (target : List ℕ) → RecordAt (Stands source.now.counted.now) (IsName (Stands source.now.counted.now)) at target →
        IfErr result (λ e. e ≡ Unread.OutOfMemory) }
    ensures looks { OnlyLooks 1 1 taking.old taking.new }
{
    let numbers = read_numbers::<1>(source, at, taking)?;
    let [text] = numbers;
    read_text(source, text, taking)
}
