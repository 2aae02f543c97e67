//! The reverse suffix tree: a walk along a name from its last byte ("The mime.cache files").
//!
//! Each ending of a pattern like `*.txt` is a path of characters, its last byte first, with a leaf for
//! each rule at its end. So one walk meets all endings of a name, the shortest first. Siblings stand
//! one after another in 12 bytes each, the leaves first: a leaf is 0, the offset of its type, weight
//! and flags; a node is its character, how many siblings are below it, and the offset of the first.
//!
//! A walk visits at most one block of siblings for each byte of the name, with a halving in each, however many rules
//! there are. To match each pattern in turn would cost as much as there are rules, and a table of endings would have to
//! be made for each cache that is opened. Over bytes that form cycles the name bounds the depth, and the budget the
//! leaves.

ghost use Rattle.std.specs.Prelude.{◌≡◌, ◌==◌, true, false, get_or, ◌+◌, ◌-◌, ◌*◌, ◌≤◌, ◌<◌, List, [], ◌∷◌, length};
ghost use Rattle.std.specs.Prelude.{IfOk, IfErr, OnOk};
ghost use Rattle.mime_base.specs.Cache.Bytes.{field};
ghost use Rattle.mime_base.specs.Format.SuffixTree.{SuffixTreeAt};
ghost use Rattle.mime_base.specs.Format.Tree.{Tree};
ghost use Rattle.mime_base.specs.Meter.{raised};
ghost use Rattle.mime_base.specs.declared.database.rule.GlobRule.{GlobRule};
ghost use Rattle.mime_view.specs.Hits.{tree_hits, tree_visits, visits};
ghost use Rattle.mime_view.specs.Magic.{IsBlockFault, LiesBlock};
ghost use Rattle.mime_view.specs.Spending.{Looks};
ghost use Rattle.mime_view.specs.Steps.{FindsAt, FindsRules, Searches};
ghost use Rattle.mime_view.specs.SuffixTree.{FindsLeaves, IsBlockBelow, IsCharacterPlace, IsSibling, IsSuffixRule, LiesTree};
ghost use Rattle.mime_view.specs.SuffixTree.{ReadsBlock, ReadsLeaf, admitted, below_character, below_part, leaf_part, leaves_part, tree_part};

use crate::fault::CacheFault;
use crate::flags::weight_and_case;
use crate::query::{Progress, Query};
use mime_base::{Class, Counted, Meter, rank_of};

/// Siblings that lie in the cache.
#[derive(Clone, Copy)]
struct Siblings {
    first: u64,
    count: u64,
}

/// Offers the rules of the suffix tree at `at` with an ending of the name, the shortest ending first.
///
/// The name is walked from its last byte, as long as the tree has the character; a zero byte ends the
/// walk. Each leaf that is scanned, and the record that ends a scan, takes the records of a visit.
///
/// # Errors
///
/// [`CacheFault::OutOfRange`] with the offset of the tree, or of the first of its roots or of the
/// siblings below a character, where not all of them lie in the cache; [`CacheFault::Spent`] where a
/// visit has too few records left; [`CacheFault::OutOfMemory`].
// Always inlined: where the case is known, so is how many records a visit takes.
#[inline(always)]
pub fn tree_hits(query: &Query<'_, '_>, at: u32, progress: &mut Progress) -> Result<(), CacheFault>
    // Of the rules that stand in the tree, it offers those with an ending of the name that the case takes.
    ensures finds { FindsAt query.now SuffixTreeAt at (tree_hits query.now.case query.now.key.now)
        (λ rules. visits query.now.case * tree_visits query.now.key.now rules) progress.old progress.new result }
    // For an answer the tree lies in the cache as far as the walk begins there.
    ensures inside { OnOk result (LiesTree query.now.counted.now at query.now.key.now) }
    // A leaf costs its visit; the halving among siblings comes besides, once for each byte of the name.
    ensures searches { Searches (tree_part query.now.counted.now at query.now.key.now) 256 (29 * length query.now.key.now + 1)
        progress.old progress.new result }
{
    let name = query.key;
    let [count, first] = query
        .counted
        .cards::<2>(u64::from(at), &mut progress.spending.meter)?;
    if !seeks_character(name) {
        return Ok(());
    }
    let mut block = block_of(query.counted, first, count)?;
    for depth in 0..name.len() {
        let byte = name[name.len() - 1 - depth];
        let pattern_length = depth as u16 + 2;
        let below = descend(query, block, byte, pattern_length, progress)?;
        let Some(below) = below else {
            return Ok(());
        };
        block = below;
    }
    Ok(())
}

/// That many siblings from an offset on, if they lie in the cache. No siblings lie anywhere.
fn block_of(counted: &Counted<'_>, first: u32, count: u32) -> Result<Siblings, CacheFault>
    // It is of these numbers.
    ensures block { IfOk result (λ block. (block.first ≡ first) × (block.count ≡ count)) }
    // It lies in the cache.
    ensures lies { IfOk result (λ block. LiesBlock counted.now block.first 12 block.count) }
    // Else a sibling lies outside.
    ensures fault { IfErr result (IsBlockFault counted.now first 12 count) }
{
    let first = u64::from(first);
    let count = u64::from(count);
    if count > 0 && counted.length() < first + 12 * count {
        return Err(CacheFault::OutOfRange(first));
    }
    Ok(Siblings { first, count })
}

/// Whether a walk along the name seeks a character: it has a last byte, and that is not zero.
fn seeks_character(name: &[u8]) -> bool
    // Then the last byte is a character.
    ensures some { result ≡ true → 0 < get_or name.now (length name.now - 1) 0 }
    // Else it is zero, or there is none.
    ensures none { result ≡ false → get_or name.now (length name.now - 1) 0 ≡ 0 }
{
    0 < name.len() && name[name.len() - 1] != 0
}

/// Offers the leaves below the character, as rules with patterns of this length, and gives the block
/// in which they stand, if there is one.
// Always inlined: the body of a loop.
#[inline(always)]
fn descend(
    query: &Query<'_, '_>,
    block: Siblings,
    byte: u8,
    pattern_length: u16,
    progress: &mut Progress,
) -> Result<Option<Siblings>, CacheFault>
    // The siblings lie in the cache.
    requires lies { LiesBlock query.now.counted.now block.first 12 block.count }
    // It gives the block below the character.
    ensures below { IfOk result (IsBlockBelow query.now.counted.now block byte) }
    // Of the leaves there it offers those that the case takes.
    ensures finds { (tree : Tree) → ReadsBlock query.now.counted.now block tree →
        FindsLeaves query.now pattern_length (below_character byte tree) progress.old progress.new result }
    // The halving comes besides.
    ensures searches { Searches (below_part query.now.counted.now (IsSibling query.now.counted.now block) byte) 256 29
        progress.old progress.new result }
{
    let Some(below) = block_below(query, block, byte, progress)? else {
        return Ok(None);
    };
    leaf_hits(query, below, pattern_length, progress)?;
    Ok(Some(below))
}

/// The block below the sibling of a character, if there is one. The character 0 is none.
// Always inlined, as its caller is.
#[inline(always)]
fn block_below(
    query: &Query<'_, '_>,
    block: Siblings,
    byte: u8,
    progress: &mut Progress,
) -> Result<Option<Siblings>, CacheFault>
    // The siblings lie in the cache.
    requires lies { LiesBlock query.now.counted.now block.first 12 block.count }
    // It gives the block below the character.
    ensures below { IfOk result (IsBlockBelow query.now.counted.now block byte) }
    // It offers nothing, and takes no record.
    ensures finds { (tree : Tree) → ReadsBlock query.now.counted.now block tree →
        FindsRules query.now.counted.now (Unit {0}) [] 0 progress.old progress.new result }
    // It costs the halving, and the sibling that is found.
    ensures searches { Searches (below_part query.now.counted.now (IsSibling query.now.counted.now block) byte) 256 27
        progress.old progress.new result }
{
    if byte == 0 {
        return Ok(None);
    }
    let place = first_not_below(query, block, byte, &mut progress.spending.meter);
    if place == block.count {
        return Ok(None);
    }
    let at = block.first + 12 * place;
    let [character, count, first] = query
        .counted
        .cards_within::<3>(at, &mut progress.spending.meter);
    if character != u32::from(byte) {
        return Ok(None);
    }
    Ok(Some(block_of(query.counted, first, count)?))
}

/// The place of the first sibling whose character is not less than the byte.
// Always inlined, so that the sums stay in registers.
#[inline(always)]
fn first_not_below(query: &Query<'_, '_>, block: Siblings, byte: u8, meter: &mut Meter) -> u64
    // The siblings lie in the cache.
    requires lies { LiesBlock query.now.counted.now block.first 12 block.count }
    // Which place it is.
    ensures place { IsCharacterPlace query.now.counted.now block byte result }
    // Where there are siblings, one is looked at.
    ensures some { 0 < block.count → raised meter.old.nodes 1 ≤ meter.new.nodes }
    // No more than 26 are.
    ensures looks { Looks 26 0 meter.old meter.new }
{
    let mut counts = *meter;
    let mut low = 0;
    let mut high = block.count;
    while low < high {
        let middle = (low + high) / 2;
        let at = block.first + 12 * middle;
        let [character] = query.counted.cards_within::<1>(at, &mut counts);
        if character < u32::from(byte) {
            low = middle + 1;
        } else {
            high = middle;
        }
    }
    *meter = counts;
    low
}

/// Offers the leaves of a block, as rules with patterns of this length. They stand first.
// Always inlined, as its caller is.
#[inline(always)]
fn leaf_hits(
    query: &Query<'_, '_>,
    block: Siblings,
    pattern_length: u16,
    progress: &mut Progress,
) -> Result<(), CacheFault>
    // The siblings lie in the cache.
    requires lies { LiesBlock query.now.counted.now block.first 12 block.count }
    // It offers those that the case takes.
    ensures finds { (tree : Tree) → ReadsBlock query.now.counted.now block tree →
        FindsLeaves query.now pattern_length tree progress.old progress.new result }
    // It costs the visits, and reads nothing that could be at fault.
    ensures searches { Searches (leaves_part query.now.counted.now block) 256 0 progress.old progress.new result }
{
    for i in 0..block.count {
        if !offer_leaf(query, block.first + 12 * i, pattern_length, progress)? {
            return Ok(());
        }
    }
    Ok(())
}

/// Takes the records of a visit, and offers what stands at `at` if it is a leaf. It says whether it is.
// Always inlined: the body of a loop.
#[inline(always)]
fn offer_leaf(
    query: &Query<'_, '_>,
    at: u64,
    pattern_length: u16,
    progress: &mut Progress,
) -> Result<bool, CacheFault>
    // The sibling lies in the cache.
    requires inside { at + 12 ≤ length query.now.counted.now }
    // Whether it is a leaf: it has no character.
    ensures leaf { IfOk result (λ is_leaf. is_leaf ≡ (field query.now.counted.now at 0 == 0)) }
    // A leaf is offered if the case takes it.
    ensures finds { (rule : GlobRule) → ReadsLeaf query.now.counted.now at rule →
        FindsRules query.now.counted.now (IsSuffixRule pattern_length rule) (admitted query.now.case (rule ∷ []))
        (visits query.now.case) progress.old progress.new result }
    // A node is not.
    ensures passes { (field query.now.counted.now at 0 == 0) ≡ false →
        FindsRules query.now.counted.now (Unit {0}) [] (visits query.now.case) progress.old progress.new result }
    // It costs the visit, and reads nothing that could be at fault.
    ensures searches { Searches (leaf_part query.now.counted.now at) 256 0 progress.old progress.new result }
{
    query.case.take_records(&mut progress.spending)?;
    let [character, kind, flags] = query
        .counted
        .cards_within::<3>(at, &mut progress.spending.meter);
    if character != 0 {
        return Ok(false);
    }
    let (weight, cased) = weight_and_case(flags);
    if query.case.takes_rule(cased) {
        let rank = rank_of(Class::Suffix, weight, pattern_length, cased);
        progress.hits.offer(rank, kind)?;
    }
    Ok(true)
}
