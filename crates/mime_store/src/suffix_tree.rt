//! The reverse suffix tree.
//!
//! Its paths are the endings of suffix rules, each from its last byte to its first, so that a reader goes
//! down from the end of a name and meets the rules of each of its endings once. It is written from the
//! bottom: over endings that are sorted, a sibling is an ending that ends here, or the run of those that go
//! on with one byte.

ghost use Rattle.std.specs.Prelude.{◌≡◌, ◌+◌, ◌^◌, ◌<◌, ◌≤◌, [], ◌∷◌, length, map, take, drop, OnOk, IfOk};
ghost use Rattle.mime_base.specs.Format.Stored.{tree_rules};
ghost use Rattle.mime_store.specs.SuffixTree.{AreEndings, ClearOf, IsBlock, Rises, StartAll, TreeOf, WritesSibling, ending_rule, entries_room};
ghost use Rattle.mime_store.specs.SuffixTree.{ending_entry};
ghost use Rattle.mime_store.specs.Written.{Grew, Written};

use crate::bytes::{append_numbers, append_row, append_text};
use crate::ending::Ending;
use crate::rules::{is_in_tree, weight_and_flags};
use mime_base::{GlobRule, OutOfMemory};
use smallvec::SmallVec;
use std::alloc::Global;

/// The records of four siblings, of three numbers each, need no allocation.
const SHORT_BLOCK: usize = 12;

/// How many siblings there are, and where the first one stands.
#[derive(Clone, Copy)]
struct Block {
    count: u32,
    first: u32,
}

/// The numbers of a sibling's record, and how many endings it takes.
#[derive(Clone, Copy)]
struct Sibling {
    row: [u32; 3],
    taken: usize,
}

/// The suffix rules other than `*`, in merged order.
#[tactic(auto, using(crate::proofs::ListLemmas::Entries::passed_more, crate::proofs::ListLemmas::Entries::failed_more))]
pub fn endings(alloc: Global, rules: &[GlobRule]) -> Result<Vec<Ending<'_>>, OutOfMemory>
    // They are the rules of the suffix tree, in merged order.
    ensures { IfOk result (λ found. map ending_rule found.items ≡ tree_rules rules.now) }
{
    let mut found = Vec::with_capacity(alloc, rules.len())?;
    for rule in rules {
        if is_in_tree(rule) {
            found.push(Ending::new(alloc, rule)?)?;
        }
    }
    Ok(found)
}

/// Sorts endings by their paths; those of one path stay in merged order.
pub fn sort_endings(endings: &mut Vec<Ending<'_>>) -> Result<(), OutOfMemory>
    // They are the same rules by rising paths, and those of one path stay in merged order.
    ensures { OnOk result (AreEndings (map (ending_entry 0) endings.new.items) (map ending_rule endings.old.items)) }
{
    endings.sort_by(|left, right| left.compare(right))?;
    Ok(())
}

/// The tree of sorted endings, then its head; returns the offset of the head.
pub fn write_tree(
    alloc: Global,
    out: &mut Vec<u8>,
    endings: &[Ending<'_>],
) -> Result<u32, OutOfMemory>
    // The bytes stay within what a number of 32 bits can point to.
    requires room { length out.old.items + (8 + entries_room (map (ending_entry 0) endings.now)) < 2 ^ 32 }
    // The header has its place.
    requires begun { 40 ≤ length out.old.items }
    // The paths rise.
    requires rises { Rises [] (map (ending_entry 0) endings.now) }
    // The bytes grow by the head, the nodes and the types of the leaves, and what was there stays.
    ensures grew { OnOk result (Grew out.old.items out.new.items (8 + entries_room (map (ending_entry 0) endings.now))) }
    // The head of the tree stands at the offset that is returned, and each rule is a leaf at the end of its path.
    ensures stands { IfOk result (λ at. TreeOf (Written out.new.items) at (map (ending_entry 0) endings.now)) }
{
    let roots = write_siblings(alloc, out, endings, 0)?;
    let at = append_numbers(out, &[roots.count, roots.first])?;
    Ok(at)
}

/// What belongs to the siblings, then their records.
#[cycle(tree)]
fn write_siblings(
    alloc: Global,
    out: &mut Vec<u8>,
    endings: &[Ending<'_>],
    depth: usize,
) -> Result<Block, OutOfMemory>
    requires room { length out.old.items + entries_room (map (ending_entry depth) endings.now) < 2 ^ 32 }
    requires begun { 40 ≤ length out.old.items }
    requires deep { depth < 256 }
    ensures grew { OnOk result (Grew out.old.items out.new.items (entries_room (map (ending_entry depth) endings.now))) }
    ensures stands { IfOk result
        (λ block. IsBlock (Written out.new.items) block.count block.first (map (ending_entry depth) endings.now)) }
{
    if endings.len() == 1 {
        return write_alone(out, &endings[0], depth);
    }
    let mut records: SmallVec<u32, SHORT_BLOCK> = SmallVec::new(alloc);
    let mut count = 0;
    let mut at = 0;
    while at < endings.len() {
        let sibling = write_sibling(alloc, out, &endings[at..], depth)?;
        records.extend_from_slice(&sibling.row)?;
        count += 1;
        at += sibling.taken;
    }
    let first = append_numbers(out, records.as_slice())?;
    Ok(Block { count, first })
}

/// An ending that goes on alone: its type and its leaf, then a node for each byte of its path up to the depth, from the last to
/// the first.
#[tactic(auto, using(crate::proofs::RulesLemmas::Fits::type_fits))]
fn write_alone(out: &mut Vec<u8>, ending: &Ending<'_>, depth: usize) -> Result<Block, OutOfMemory>
    requires room { length out.old.items + entries_room (ending_entry depth ending.now ∷ []) < 2 ^ 32 }
    requires begun { 40 ≤ length out.old.items }
    ensures grew { OnOk result (Grew out.old.items out.new.items (entries_room (ending_entry depth ending.now ∷ []))) }
    ensures stands { IfOk result
        (λ block. IsBlock (Written out.new.items) block.count block.first (ending_entry depth ending.now ∷ [])) }
{
    let kind = append_text(out, ending.rule.kind.bytes())?;
    let mut first = append_row(out, [0, kind, weight_and_flags(ending.rule)])?;
    let mut at = ending.length();
    while depth < at {
        at -= 1;
        first = append_row(out, [u32::from(ending.byte(at)), 1, first])?;
    }
    Ok(Block { count: 1, first })
}

/// What belongs to the first sibling.
#[cycle(tree)]
#[tactic(auto, using(crate::proofs::RulesLemmas::Fits::type_fits))]
fn write_sibling(
    alloc: Global,
    out: &mut Vec<u8>,
    endings: &[Ending<'_>],
    depth: usize,
) -> Result<Sibling, OutOfMemory>
    requires some { 0 < length endings.now }
    requires room { length out.old.items + entries_room (map (ending_entry depth) endings.now) < 2 ^ 32 }
    requires begun { 40 ≤ length out.old.items }
    requires deep { depth < 256 }
    ensures { IfOk result (λ sibling.
        WritesSibling out.old.items out.new.items sibling.row sibling.taken (map (ending_entry depth) endings.now)) }
{
    let first = &endings[0];
    if first.length() <= depth {
        let kind = append_text(out, first.rule.kind.bytes())?;
        return Ok(Sibling {
            row: [0, kind, weight_and_flags(first.rule)],
            taken: 1,
        });
    }
    let byte = first.byte(depth);
    let taken = run_length(&endings[1..], depth, byte) + 1;
    let below = write_siblings(alloc, out, &endings[..taken], depth + 1)?;
    Ok(Sibling {
        row: [u32::from(byte), below.count, below.first],
        taken,
    })
}

/// How many endings from the front go on with this byte.
fn run_length(endings: &[Ending<'_>], depth: usize, byte: u8) -> usize
    ensures within { result ≤ length endings.now }
    ensures all { StartAll byte (map (ending_entry depth) (take result endings.now)) }
    ensures clear { ClearOf byte (map (ending_entry depth) (drop result endings.now)) }
{
    let mut count = 0;
    for ending in endings {
        if ending.length() <= depth {
            return count;
        }
        let next = ending.byte(depth);
        if next != byte {
            return count;
        }
        count += 1;
    }
    count
}
