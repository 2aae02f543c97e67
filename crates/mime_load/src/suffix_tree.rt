//! The reverse suffix tree ("The mime.cache files").
//!
//! Siblings are read from the last to the first, so that what was read is a tree to which one more is put in front, and the
//! rules come from the last to the first.

ghost use Rattle.std.specs.Prelude.{◌≡◌, ℕ, ◌+◌, ◌*◌, ◌^◌, ◌<◌, ◌≤◌, true, List, length, IfErr, IfOk, OnOk};
ghost use Rattle.mime_base.specs.Format.SuffixTree.{tree_size};
ghost use Rattle.mime_base.specs.Format.Tree.{Tree, node_count, sibling_count};
ghost use Rattle.mime_base.specs.declared.database.rule.GlobRule.{GlobRule};
ghost use Rattle.mime_load.specs.Lent.{plain_leaf};
ghost use Rattle.mime_load.specs.Parts.{IsTreeList};
ghost use Rattle.mime_load.specs.Taking.{OnlyLooks, TakesOnlyRecords};
ghost use Rattle.mime_load.specs.Walks.{IsLeafRule, ReadsSibling, TreeStands, Walked, first_character, first_nodes, is_suffix};

use crate::ending::NameEnding;
use crate::leaf::{LeafRule, Leaves};
use crate::reading::{read_numbers, read_text};
use crate::rules::{are_bytes, is_as_compared};
use crate::source::Source;
use crate::taking::{Taking, take_records};
use crate::unread::Unread;
use mime_base::{Class, class_of_bytes};

/// The most characters on the way to a leaf.
const DEEPEST: usize = 254;

/// How many bytes the record of a sibling has.
const SIBLING: u64 = 12;

/// What is carried down a tree and up again.
#[derive(Drop)]
struct Walk<'a> {
    /// The ending that leads to the siblings that are read.
    ending: NameEnding,
    /// The rules so far, from the last to the first.
    leaves: Leaves<'a>,
    /// What may still be taken.
    taking: Taking,
}

/// The rules of the leaves of the tree at `at`, in their order. Its nodes' records are taken.
pub fn leaves_at<'a>(
    source: &Source<'_, 'a>,
    at: u32,
    taking: &mut Taking,
) -> Result<Leaves<'a>, Unread>
    // A tree of these rules stands there, and they keep their limits.
    ensures stand { IfOk result (λ rules. IsTreeList source.now.counted.now at rules) }
    // Of rules whose tree stands there, and with room for its nodes, only memory can be short.
    ensures need { (rules : List GlobRule) → IsTreeList source.now.counted.now at rules → 12 * tree_size rules ≤ taking.old.records →
        IfErr result (λ e. e ≡ Unread.OutOfMemory) }
    // Its nodes, leaves included, take twelve bytes each.
    ensures taken { IfOk result (λ rules. taking.new.records + 12 * tree_size rules ≡ taking.old.records) }
    // No room of values is taken, and one record is visited besides.
    ensures takes { TakesOnlyRecords 1 0 taking.old taking.new }
{
    let numbers = read_numbers::<2>(source, u64::from(at), taking)?;
    let [count, first] = numbers;
    let mut walk = Walk {
        ending: NameEnding::none(),
        leaves: Leaves::none(source.alloc),
        taking: *taking,
    };
    let result = read_siblings(source, first, count, &mut walk);
    *taking = walk.taking;
    result?;
    walk.leaves.reverse();
    Ok(walk.leaves)
}

/// Reads the `count` siblings from `first` on, to which an ending leads.
#[cycle(siblings)]
fn read_siblings<'a>(
    source: &Source<'_, 'a>,
    first: u32,
    count: u32,
    walk: &mut Walk<'a>,
) -> Result<(), Unread>
    // The ending is no longer than the deepest.
    requires depth { length walk.old.ending ≤ 254 }
    // They stand, and their rules are added, from the last to the first.
    ensures walked { OnOk result (Walked source.now.counted.now first count walk.old.ending 1 walk.old.leaves walk.new.leaves
        walk.old.taking.records walk.new.taking.records) }
    // Of siblings that stand there, and with room for their nodes, only memory can be short.
    ensures need { (tree : Tree) → TreeStands source.now.counted.now first walk.old.ending tree → sibling_count tree ≡ count →
        12 * node_count tree ≤ walk.old.taking.records → IfErr result (λ e. e ≡ Unread.OutOfMemory) }
    // The ending is then as it was.
    ensures ending_stays { OnOk result (walk.new.ending ≡ walk.old.ending) }
    ensures takes { TakesOnlyRecords 0 0 walk.old.taking walk.new.taking }
{
    let mut next = 256;
    for done in 0..count {
        let at = u64::from(first) + 12 * u64::from(count - 1 - done);
        let before = read_sibling(source, at, next, walk)?;
        next = before;
    }
    Ok(())
}

/// Reads the sibling at `at`, whose character is below `next`; then the character below which those before it are.
#[cycle(siblings)]
fn read_sibling<'a>(
    source: &Source<'_, 'a>,
    at: u64,
    next: u32,
    walk: &mut Walk<'a>,
) -> Result<u32, Unread>
    // The character after it fits.
    requires next { (1 ≤ next) × (next ≤ 256) }
    // The ending is no longer than the deepest.
    requires depth { length walk.old.ending ≤ 254 }
    // It is read before those that were read after it.
    ensures reads { IfOk result (λ before. ReadsSibling source.now.counted.now at walk.old.ending next before walk.old.leaves
        walk.new.leaves walk.old.taking.records walk.new.taking.records) }
    // If it stands, with a character below `next` and with room for its nodes, only memory can be short.
    ensures need { (tree : Tree) → TreeStands source.now.counted.now at walk.old.ending tree → 0 < sibling_count tree →
        first_character tree < next →
        12 * first_nodes tree ≤ walk.old.taking.records → IfErr result (λ e. e ≡ Unread.OutOfMemory) }
    // The ending is then as it was.
    ensures ending_stays { IfOk result (λ before. walk.new.ending ≡ walk.old.ending) }
    ensures takes { TakesOnlyRecords 0 0 walk.old.taking walk.new.taking }
{
    take_records(SIBLING, &mut walk.taking)?;
    let numbers = read_numbers::<3>(source, at, &mut walk.taking)?;
    let [character, second, third] = numbers;
    if next <= character {
        return Err(Unread::NotSpelled);
    }
    if character == 0 {
        let rule = read_leaf(source, second, third, &walk.ending, &mut walk.taking)?;
        walk.leaves.push(rule)?;
        return Ok(1);
    }
    if walk.ending.length() == DEEPEST {
        return Err(Unread::NotSpelled);
    }
    let before = walk.leaves.len();
    walk.ending.grow(character as u8);
    read_siblings(source, third, second, walk)?;
    if walk.leaves.len() == before {
        return Err(Unread::NotSpelled);
    }
    walk.ending.shrink();
    Ok(character)
}

/// The rule of a leaf with these second and third numbers, to which an ending leads.
fn read_leaf<'e, 'a>(
    source: &Source<'_, 'a>,
    kind: u32,
    flags: u32,
    ending: &'e NameEnding,
    taking: &mut Taking,
) -> Result<LeafRule<'e, 'a>, Unread>
    // The ending is no longer than the deepest.
    requires depth { length ending.now ≤ 254 }
    // It is the leaf's.
    ensures is { IfOk result (λ rule. IsLeafRule source.now.counted.now kind flags ending.now (plain_leaf rule)) }
    // Of a leaf that stands only memory can be short.
    ensures need { (rule : GlobRule) → IsLeafRule source.now.counted.now kind flags ending.now rule →
        IfErr result (λ e. e ≡ Unread.OutOfMemory) }
    ensures looks { OnlyLooks 0 1 taking.old taking.new }
{
    let kind = read_text(source, kind, taking)?;
    let cased = 256 <= flags;
    let pattern = ending.pattern();
    if 512 <= flags || !is_as_compared(cased, pattern) || !is_in_tree(pattern) {
        return Err(Unread::NotSpelled);
    }
    are_bytes(pattern);
    Ok(LeafRule {
        weight: (flags % 256) as u8,
        kind,
        pattern,
        cased,
    })
}

/// Whether a rule of this pattern belongs to the tree.
fn is_in_tree(pattern: &[u8]) -> bool
    ensures { result ≡ is_suffix pattern.now }
{
    match class_of_bytes(pattern) {
        Class::Literal => false,
        Class::Suffix => pattern.len() != 1,
        Class::Full => false,
    }
}
