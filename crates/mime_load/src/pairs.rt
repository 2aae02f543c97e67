//! Lists of pairs: aliases with their types, types with their icons.

ghost use Rattle.std.specs.Prelude.{◌≡◌, ◌<◌, ◌≤◌, ◌^◌, ◌+◌, ◌*◌, ◌/◌, ℕ, true, false, length, get_or, List, IfErr, IfOk, ◌-◌};
ghost use Rattle.mime_base.specs.Cache.Bytes.{Stands};
ghost use Rattle.mime_base.specs.Format.Pairs.{IsPair, PairsAt};
ghost use Rattle.mime_base.specs.Format.Sorted.{text_lt};
ghost use Rattle.mime_load.specs.Lent.{plain_pair, plain_pairs};
ghost use Rattle.mime_load.specs.Parts.{RecordAt};
ghost use Rattle.mime_load.specs.Taking.{OnlyLooks, TakesOnlyRecords};
ghost use Rattle.mime_load.specs.declared.pair.LentPair.{LentPair};

use crate::order::text_lt;
use crate::pair::LentPair;
use crate::reading::{read_count, read_numbers, read_text};
use crate::source::Source;
use crate::taking::{Taking, take_records};
use crate::unread::Unread;

/// How many bytes the record of an icon has.
const ICON: u64 = 8;

/// The pairs of the alias list at `at`, sorted by the aliases ("The mime.cache files").
pub fn aliases_at<'a>(
    source: &Source<'_, 'a>,
    at: u32,
    taking: &mut Taking,
) -> Result<Vec<LentPair<'a>>, Unread>
    // A list of these pairs stands there.
    ensures stand { IfOk result (λ pairs. PairsAt (Stands source.now.counted.now) at (plain_pairs pairs.items)) }
    // Of pairs that stand there only memory can be short.
    ensures need { (pairs : List (List ℕ × List ℕ)) → PairsAt (Stands source.now.counted.now) at pairs →
        IfErr result (λ e. e ≡ Unread.OutOfMemory) }
    // At most a record for each eight bytes of the cache is visited, and a text for each four read; no room is taken.
    ensures looks { OnlyLooks (1 + length source.now.counted.now / 8) (length source.now.counted.now / 4) taking.old taking.new }
{
    pairs_at(source, u64::from(at), taking)
}

/// The pairs of the icon list at `at`, sorted by the types ("The mime.cache files"). Their records are taken.
pub fn icons_at<'a>(
    source: &Source<'_, 'a>,
    at: u32,
    taking: &mut Taking,
) -> Result<Vec<LentPair<'a>>, Unread>
    // A list of these pairs stands there.
    ensures stand { IfOk result (λ pairs. PairsAt (Stands source.now.counted.now) at (plain_pairs pairs.items)) }
    // Of pairs that stand there, and with room for them, only memory can be short.
    ensures need { (pairs : List (List ℕ × List ℕ)) → PairsAt (Stands source.now.counted.now) at pairs →
        8 * length pairs ≤ taking.old.records → IfErr result (λ e. e ≡ Unread.OutOfMemory) }
    // They take eight bytes each.
    ensures taken { IfOk result (λ pairs. taking.new.records + 8 * length pairs.items ≡ taking.old.records) }
    // No room of values is taken; at most a record for each eight bytes of the cache is visited, and a text for each four read.
    ensures takes { TakesOnlyRecords (1 + length source.now.counted.now / 8) (length source.now.counted.now / 4) taking.old taking.new }
{
    let pairs = pairs_at(source, u64::from(at), taking)?;
    take_records(ICON * pairs.len() as u64, taking)?;
    Ok(pairs)
}

/// The pairs of the list at `at`, whichever of the three it is.
pub fn pairs_at<'a>(
    source: &Source<'_, 'a>,
    at: u64,
    taking: &mut Taking,
) -> Result<Vec<LentPair<'a>>, Unread>
    // It is an offset.
    requires at { at < 2 ^ 32 }
    // A list of these pairs stands there.
    ensures stand { IfOk result (λ pairs. PairsAt (Stands source.now.counted.now) at (plain_pairs pairs.items)) }
    // Of pairs that stand there only memory can be short.
    ensures need { (pairs : List (List ℕ × List ℕ)) → PairsAt (Stands source.now.counted.now) at pairs →
        IfErr result (λ e. e ≡ Unread.OutOfMemory) }
    // At most a record for each eight bytes of the cache is visited, and a text for each four read; no room is taken.
    ensures looks { OnlyLooks (1 + length source.now.counted.now / 8) (length source.now.counted.now / 4) taking.old taking.new }
{
    let count = read_count(source, at, 8, taking)?;
    let mut pairs = Vec::with_capacity(source.alloc, count as usize)?;
    for i in 0..count {
        let pair = read_pair(source, at + 4 + 8 * u64::from(i), taking)?;
        if !comes_next(&pairs, &pair) {
            return Err(Unread::NotSpelled);
        }
        pairs.push(pair)?;
    }
    Ok(pairs)
}

/// Whether the name of a pair is not before that of the last of others.
fn comes_next(pairs: &[LentPair<'_>], pair: &LentPair<'_>) -> bool
    ensures rises { result ≡ true → (d : LentPair) → 0 < length pairs.now →
        text_lt pair.now.name.now (get_or pairs.now (length pairs.now - 1) d).name.now ≡ false }
    ensures falls { result ≡ false → (d : LentPair) → (0 < length pairs.now) ×
        (text_lt pair.now.name.now (get_or pairs.now (length pairs.now - 1) d).name.now ≡ true) }
{
    match pairs.last() {
        Some(last) => !text_lt(pair.name, last.name),
        None => true,
    }
}

/// The pair at `at`.
fn read_pair<'a>(
    source: &Source<'_, 'a>,
    at: u64,
    taking: &mut Taking,
) -> Result<LentPair<'a>, Unread>
    ensures stands { IfOk result (λ pair. RecordAt (Stands source.now.counted.now) (IsPair (Stands source.now.counted.now)) at (plain_pair pair)) }
    ensures need { (pair : List ℕ × List ℕ) → RecordAt (Stands source.now.counted.now) (IsPair (Stands source.now.counted.now)) at pair →
        IfErr result (λ e. e ≡ Unread.OutOfMemory) }
    ensures looks { OnlyLooks 1 2 taking.old taking.new }
{
    let numbers = read_numbers::<2>(source, at, taking)?;
    let [first, second] = numbers;
    let name = read_text(source, first, taking)?;
    let target = read_text(source, second, taking)?;
    Ok(LentPair { name, target })
}
