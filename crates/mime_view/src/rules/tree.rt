//! The rules of the reverse suffix tree ("The mime.cache files").
//!
//! The tree is walked depth first, with the ending that leads to the siblings in hand. Bytes may form
//! cycles: the walk ends by the depth, and the budget bounds its work.

ghost use Rattle.std.specs.Prelude.{◌≡◌, ◌⊎◌, ℕ, ◌+◌, ◌*◌, ◌^◌, ◌<◌, ◌≤◌, [], ◌∷◌, ◌++◌, All, length, OnOk, IfErr, MatchResult};
ghost use Rattle.mime_base.specs.Cache.Bytes.{field};
ghost use Rattle.mime_base.specs.Format.Tree.{Tree, node_count, rules_in, sibling_count};
ghost use Rattle.mime_base.specs.declared.database.rule.GlobRule.{GlobRule};
ghost use Rattle.mime_view.specs.Listing.{Adds, AddsRules, IsListed, listed_rule};
ghost use Rattle.mime_view.specs.Listing.Faults.{IsSiblingsFault, IsListedTreeFault};
ghost use Rattle.mime_view.specs.Listing.Reads.{ReadsListedLeaf, ReadsSuffixTree, ReadsListedTree};
ghost use Rattle.mime_view.specs.Listing.Sources.{AddsSome, IsLeafRule};
ghost use Rattle.mime_view.specs.Listing.Walks.{ListsSiblings, ListsTree};
ghost use Rattle.mime_view.specs.Lists.{IsNoText};
ghost use Rattle.mime_view.specs.Magic.{LiesBlock};
ghost use Rattle.mime_view.specs.Spending.{Looks};

use crate::fault::CacheFault;
use crate::magic::check_block;
use crate::rules::ending::NameEnding;
use crate::rules::listing::Listing;
use crate::rules::row::{Row, take_row};
use crate::rules::source::ListingSource;
use crate::spending::Spending;
use mime_base::Meter;

/// The most characters on the way to a leaf.
const DEEPEST: usize = 254;

/// Adds the rules of the tree at `at`, each node with a record of the budget.
pub fn add_tree<'a>(
    source: &ListingSource<'_, 'a>,
    at: u64,
    listing: &mut Listing<'a>,
    spending: &mut Spending,
) -> Result<(), CacheFault>
    // The tree's offset is a number of 32 bits.
    requires at { at < 2 ^ 32 }
    // It adds the rules of a tree that stands, of which each node takes a record.
    ensures answer { (tree : Tree) → ReadsSuffixTree source.now.counted.now at tree →
        AddsRules (rules_in tree) (node_count tree) listing.old listing.new spending.old spending.new result }
    // On any bytes each rule that it adds is that of a leaf to which characters lead from a root, and the whole tree lies in the cache.
    ensures lists { OnOk result (ListsTree source.now.counted.now at listing.old listing.new) }
    // On any bytes it adds such rules, and looks at the tree's head besides.
    ensures adds { Adds source.now.counted.now (IsListedTreeFault source.now.counted.now at) 1
        listing.old listing.new spending.old spending.new result }
{
    let [count, first] = source.counted.cards::<2>(at, &mut spending.meter)?;
    let count = u64::from(count);
    let first = u64::from(first);
    check_block(source.counted, first, 12, count)?;
    let mut ending = NameEnding::none(source.alloc);
    add_siblings(source, first, count, &mut ending, listing, spending)?;
    Ok(())
}

/// Adds the rules of the `count` siblings from `first` on, to which an ending leads.
#[cycle(siblings)]
fn add_siblings<'a>(
    source: &ListingSource<'_, 'a>,
    first: u64,
    count: u64,
    ending: &mut NameEnding,
    listing: &mut Listing<'a>,
    spending: &mut Spending,
) -> Result<(), CacheFault>
    // The siblings lie in the cache.
    requires fits { LiesBlock source.now.counted.now first 12 count }
    // The ending is no longer than the deepest.
    requires depth { length ending.old ≤ 254 }
    // It adds the rules of siblings that stand, of which each node takes a record.
    ensures answer { (tree : Tree) → sibling_count tree ≡ count → ReadsListedTree source.now.counted.now first ending.old tree →
        AddsRules (rules_in tree) (node_count tree) listing.old listing.new spending.old spending.new result }
    // The ending is then as it was.
    ensures ending_stays { OnOk result (ending.new ≡ ending.old) }
    // On any bytes it adds rules of leaves to which characters lead from one of them, and what is below them lies in the cache.
    ensures lists { OnOk result (ListsSiblings source.now.counted.now first count ending.old listing.old listing.new) }
    // On any bytes it adds such rules.
    ensures adds { Adds source.now.counted.now (IsSiblingsFault source.now.counted.now first count (length ending.old)) 0
        listing.old listing.new spending.old spending.new result }
{
    for i in 0..count {
        add_sibling(source, first + 12 * i, ending, listing, spending)?;
    }
    Ok(())
}

/// Adds the rule of the leaf at `at`, or the rules below the node there.
#[cycle(siblings)]
#[tactic(auto, using(crate::proofs::SuffixTreeLemmas::SiblingNodes::some_node))]
fn add_sibling<'a>(
    source: &ListingSource<'_, 'a>,
    at: u64,
    ending: &mut NameEnding,
    listing: &mut Listing<'a>,
    spending: &mut Spending,
) -> Result<(), CacheFault>
    // The sibling lies in the cache.
    requires inside { at + 12 ≤ length source.now.counted.now }
    // The ending is no longer than the deepest.
    requires depth { length ending.old ≤ 254 }
    // It adds the rules of a sibling that stands, of which each node takes a record.
    ensures answer { (tree : Tree) → sibling_count tree ≡ 1 → ReadsListedTree source.now.counted.now at ending.old tree →
        AddsRules (rules_in tree) (node_count tree) listing.old listing.new spending.old spending.new result }
    // The ending is then as it was.
    ensures ending_stays { OnOk result (ending.new ≡ ending.old) }
    // On any bytes it adds rules of leaves to which characters lead from it, and what is below it lies in the cache.
    ensures lists { OnOk result (ListsSiblings source.now.counted.now at 1 ending.old listing.old listing.new) }
    // On any bytes it adds such rules.
    ensures adds { Adds source.now.counted.now (IsSiblingsFault source.now.counted.now at 1 (length ending.old)) 0
        listing.old listing.new spending.old spending.new result }
{
    let row = take_row(source.counted, at, spending)?;
    if row.first == 0 {
        add_leaf(source, row, ending, listing, &mut spending.meter)?;
        return Ok(());
    }
    if row.first > 255 {
        return Ok(());
    }
    if ending.length() == DEEPEST {
        return Err(CacheFault::TooDeep);
    }
    let count = u64::from(row.second);
    let first = u64::from(row.third);
    check_block(source.counted, first, 12, count)?;
    ending.grow(row.first as u8)?;
    add_siblings(source, first, count, ending, listing, spending)?;
    ending.shrink();
    Ok(())
}

/// Adds the rule of a leaf, unless it is a root.
fn add_leaf<'a>(
    source: &ListingSource<'_, 'a>,
    row: Row,
    ending: &NameEnding,
    listing: &mut Listing<'a>,
    meter: &mut Meter,
) -> Result<(), CacheFault>
    // The ending is no longer than the deepest.
    requires depth { length ending.now ≤ 254 }
    // It adds the rule of a leaf that stands, or is out of memory.
    ensures answer { (at : ℕ) (rule : GlobRule) → row.second ≡ field source.now.counted.now at 1 →
        ReadsListedLeaf source.now.counted.now at ending.now rule →
        MatchResult result (λ _. row.third ≡ field source.now.counted.now at 2 → listing.new ≡ listing.old ++ listed_rule rule ∷ [])
        (λ e. e ≡ CacheFault.OutOfMemory) }
    // On any bytes the rule that it adds is that of the leaf, which is none of the roots.
    ensures sources { (at : ℕ) → field source.now.counted.now at 0 ≡ 0 → row.second ≡ field source.now.counted.now at 1 →
        row.third ≡ field source.now.counted.now at 2 →
        OnOk result (AddsSome (IsLeafRule source.now.counted.now at ending.now) listing.old listing.new) }
    // On any bytes it adds a rule with a text of the cache as its type, and a short pattern.
    ensures texts { All (IsListed source.now.counted.now) listing.old → All (IsListed source.now.counted.now) listing.new }
    // It stops where the type is no text, or out of memory.
    ensures fault { IfErr result (λ e. IsNoText source.now.counted.now row.second e ⊎ (e ≡ CacheFault.OutOfMemory)) }
    // It reads the type.
    ensures cost { Looks 0 256 meter.old meter.new }
{
    if ending.length() == 0 {
        return Ok(());
    }
    let kind = source.counted.text_at(u64::from(row.second), meter)?;
    let pattern = ending.pattern(source.alloc)?;
    listing.add(kind, pattern, row.third)?;
    Ok(())
}
