//! The rules of the literal list and of the glob list ("The mime.cache files").

ghost use Rattle.std.specs.Prelude.{◌+◌, ◌*◌, ◌^◌, ◌<◌, ◌≤◌, List, [], ◌∷◌, length, OnOk};
ghost use Rattle.mime_base.specs.declared.database.rule.GlobRule.{GlobRule};
ghost use Rattle.mime_view.specs.Listing.{Adds, AddsRules};
ghost use Rattle.mime_view.specs.Listing.Faults.{IsRuleFault, IsRulesFault};
ghost use Rattle.mime_view.specs.Listing.Reads.{ReadsEntry, ReadsListedRules};
ghost use Rattle.mime_view.specs.Listing.Sources.{AddsSome, IsEntryRule};
ghost use Rattle.mime_view.specs.Listing.Walks.{ListsEntries};

use crate::fault::CacheFault;
use crate::list::count_at;
use crate::rules::listing::Listing;
use crate::rules::row::take_row;
use crate::rules::source::ListingSource;
use crate::spending::Spending;

/// Adds the rules of the list at `at`, each with a record of the budget.
pub fn add_entries<'a>(
    source: &ListingSource<'_, 'a>,
    at: u64,
    listing: &mut Listing<'a>,
    spending: &mut Spending,
) -> Result<(), CacheFault>
    // The list's offset is a number of 32 bits.
    requires at { at < 2 ^ 32 }
    // It adds the rules of a list that stands, which take a record each.
    ensures answer { (rules : List GlobRule) → ReadsListedRules source.now.counted.now at rules →
        AddsRules rules (length rules) listing.old listing.new spending.old spending.new result }
    // On any bytes each rule that it adds is that of an entry, and all entries lie in the cache.
    ensures lists { OnOk result (ListsEntries source.now.counted.now at listing.old listing.new) }
    // On any bytes it adds such rules, and looks at the list's count besides.
    ensures adds { Adds source.now.counted.now (IsRulesFault source.now.counted.now at) 1
        listing.old listing.new spending.old spending.new result }
{
    let count = count_at(source.counted, at, 12, &mut spending.meter)?;
    let first = at + 4;
    for i in 0..count {
        add_entry(source, first + 12 * i, listing, spending)?;
    }
    Ok(())
}

/// Adds the rule of the entry at `at`.
fn add_entry<'a>(
    source: &ListingSource<'_, 'a>,
    at: u64,
    listing: &mut Listing<'a>,
    spending: &mut Spending,
) -> Result<(), CacheFault>
    // The entry lies in the cache.
    requires inside { at + 12 ≤ length source.now.counted.now }
    // It adds the rule of an entry that stands, which takes a record.
    ensures answer { (rule : GlobRule) → ReadsEntry source.now.counted.now at rule →
        AddsRules (rule ∷ []) 1 listing.old listing.new spending.old spending.new result }
    // On any bytes the rule that it adds is that of the entry.
    ensures sources { OnOk result (AddsSome (IsEntryRule source.now.counted.now at) listing.old listing.new) }
    // On any bytes it takes at most a record.
    ensures most { spending.old.budget.records ≤ spending.new.budget.records + 1 }
    // On any bytes it adds such a rule.
    ensures adds { Adds source.now.counted.now (IsRuleFault source.now.counted.now at) 0
        listing.old listing.new spending.old spending.new result }
{
    let row = take_row(source.counted, at, spending)?;
    let text = source
        .counted
        .text_at(u64::from(row.first), &mut spending.meter)?;
    let kind = source
        .counted
        .text_at(u64::from(row.second), &mut spending.meter)?;
    let pattern = Vec::from_slice(source.alloc, text)?;
    listing.add(kind, pattern, row.third)?;
    Ok(())
}
