//! Whether a type is a subclass of another, by a cache ("Subclassing").

ghost use Rattle.std.specs.Prelude.{◌≡◌, ◌+◌, ◌*◌, ◌/◌, ◌<◌, ◌≤◌, length, IfErr};
ghost use Rattle.mime_lookup.specs.Asking.{KeepsAsking, SaysIsA, StopsIsA};
ghost use Rattle.mime_lookup.specs.Cached.{cause_of};
ghost use Rattle.mime_lookup.specs.Costs.{Costs};
ghost use Rattle.mime_lookup.specs.Searching.{NeedsParents, search_cost};
ghost use Rattle.mime_lookup.specs.StepFaults.{IsSearchFault};
ghost use Rattle.mime_view.specs.Spending.{Looks};

use crate::cached::ancestry::leads_to;
use crate::cached::indexed_cache::IndexedCache;
use crate::climb::{Climbed, climb};
use crate::read_back::pairs::IndexedPairs;
use crate::stopped::{Cause, Stopped};
use mime_base::{Counted, Meter, TypeName};
use mime_view::{CacheFault, Marks, Spending};
use std::alloc::Global;

/// Whether a type is another or a subclass of it, by the aliases and the parents of a cache ("Subclassing"),
/// and what it took to find out.
///
/// Both types are resolved by one alias step first. [`Cause::Cache`] says what is wrong with the cache; no
/// content is read.
pub fn is_a<'a>(
    alloc: Global,
    cache: Counted<'a>,
    kind: &'a TypeName,
    base: &'a TypeName,
) -> Result<(bool, Meter), Stopped>
    // Where the aliases and the parents stand, it says whether the one type is the other or a subclass of it, each resolved.
    ensures answer { SaysIsA (λ found. found.0) cache.entry kind.entry.now base.entry.now result }
    // Why it stops: where the aliases and the parents of a packed database stand, only for memory.
    ensures stops { StopsIsA (λ stopped. stopped.cause) cache.entry result }
    // It is spent only where more records were visited than a quarter of the cache's length.
    ensures spent { IfErr result (λ stopped. stopped.cause ≡ Cause.Cache CacheFault.Spent
        → length cache.entry / 4 < stopped.meter.nodes) }
    // No content is read.
    ensures read { IfErr result (λ stopped. stopped.read ≡ 0) }
    // Whatever the bytes are, the nodes and the bytes keep to the bounds of an empty name without content.
    ensures bounds { KeepsAsking (λ found. found.1) cache.entry result }
{
    let mut meter = Meter::new();
    match open_and_search(alloc, cache, kind.bytes(), base.bytes(), &mut meter) {
        Ok(found) => Ok((found, meter)),
        Err(fault) => Err(Stopped {
            cause: Cause::from(fault),
            read: 0,
            meter,
        }),
    }
}

/// [`is_a`] over a cache that was opened once, for many types, given as their bytes.
pub fn is_a_again<'k, 'a: 'k>(
    alloc: Global,
    indexed: &IndexedCache<'a>,
    kind: &'k [u8],
    base: &'k [u8],
) -> Result<(bool, Meter), Stopped>
    // Any type name is this short.
    requires base { length base.now ≤ 255 }
    // Where the aliases and the parents stand, it says whether the one type is the other or a subclass of it, each resolved.
    ensures answer { SaysIsA (λ found. found.0) indexed.now kind.entry.now base.entry.now result }
    // Why it stops: where the aliases and the parents of a packed database stand, only for memory.
    ensures stops { StopsIsA (λ stopped. stopped.cause) indexed.now result }
    // It is spent only where more records were visited than a quarter of the cache's length.
    ensures spent { IfErr result (λ stopped. stopped.cause ≡ Cause.Cache CacheFault.Spent
        → length indexed.now / 4 < stopped.meter.nodes) }
    // No content is read.
    ensures read { IfErr result (λ stopped. stopped.read ≡ 0) }
    // Whatever the bytes are, the nodes and the bytes keep to the bounds of an empty name without content.
    ensures bounds { KeepsAsking (λ found. found.1) indexed.now result }
{
    let mut meter = Meter::new();
    meter.add_node();
    match search_opened(alloc, indexed, kind, base, &mut meter) {
        Ok(found) => Ok((found, meter)),
        Err(fault) => Err(Stopped {
            cause: Cause::from(fault),
            read: 0,
            meter,
        }),
    }
}

/// The same, with its fault alone.
fn open_and_search<'a>(
    alloc: Global,
    cache: Counted<'a>,
    kind: &'a [u8],
    base: &'a [u8],
    meter: &mut Meter,
) -> Result<bool, CacheFault>
    // It is a type's name.
    requires base { length base.now ≤ 255 }
    // Nothing was visited before.
    requires fresh { meter.old ≡ record { nodes = 0; bytes = 0 } }
    // Where the aliases and the parents stand, it says whether the one type is the other or a subclass of it, each resolved.
    ensures answer { SaysIsA (λ is. is) cache.entry kind.entry.now base.entry.now result }
    // Why it stops: where the aliases and the parents of a packed database stand, only for memory.
    ensures stops { StopsIsA cause_of cache.entry result }
    // It is spent only where more records were visited than a quarter of the cache's length.
    ensures spent { IfErr result (λ e. e ≡ CacheFault.Spent → length cache.entry / 4 < meter.new.nodes) }
    // It visits the header, and then 87 records and 59 for each that the budget has.
    ensures cost { Looks (88 + 59 * (length cache.entry / 4)) (256 * (88 + 59 * (length cache.entry / 4))) meter.old meter.new }
{
    let indexed = IndexedCache::open(cache, meter)?;
    search_opened(alloc, &indexed, kind, base, meter)
}

/// The same over an opened cache, whose header was counted.
// Part of each of its two callers.
#[inline(always)]
fn search_opened<'k, 'a: 'k>(
    alloc: Global,
    indexed: &IndexedCache<'a>,
    kind: &'k [u8],
    base: &'k [u8],
    meter: &mut Meter,
) -> Result<bool, CacheFault>
    // It is a type's name.
    requires base { length base.now ≤ 255 }
    // Its header was counted.
    requires header { meter.old ≡ record { nodes = 1; bytes = 0 } }
    // Where the aliases and the parents stand, it says whether the one type is the other or a subclass of it, each resolved.
    ensures answer { SaysIsA (λ is. is) indexed.now kind.entry.now base.entry.now result }
    // Why it stops: where the aliases and the parents of a packed database stand, only for memory.
    ensures stops { StopsIsA cause_of indexed.now result }
    // It is spent only where more records were visited than a quarter of the cache's length.
    ensures spent { IfErr result (λ e. e ≡ CacheFault.Spent → length indexed.now / 4 < meter.new.nodes) }
    // It visits 87 records, and 59 for each that the budget has.
    ensures cost { Looks (87 + 59 * (length indexed.now / 4)) (256 * (87 + 59 * (length indexed.now / 4))) meter.old meter.new }
{
    let mut spending = Spending {
        meter: *meter,
        budget: indexed.budget(),
    };
    let found = search(alloc, indexed, kind, base, &mut spending);
    *meter = spending.meter;
    found
}

/// The same within a budget.
// Part of its caller, as that is.
#[inline(always)]
fn search<'k, 'a: 'k>(
    alloc: Global,
    indexed: &IndexedCache<'a>,
    kind: &'k [u8],
    base: &'k [u8],
    spending: &mut Spending,
) -> Result<bool, CacheFault>
    // It is a type's name.
    requires base { length base.now ≤ 255 }
    // Where the pairs stand, it says whether the one type is the other or a subclass of it, each resolved.
    ensures answer { SaysIsA (λ is. is) indexed.now kind.entry.now base.entry.now result }
    // Where the pairs stand and a record is left for each parent, only memory is refused.
    ensures need { NeedsParents indexed.now spending.old.budget result }
    // The parents of a type, an alias step or memory shows the fault.
    ensures fault { IfErr result (IsSearchFault indexed.now spending.new.budget) }
    // It costs 87 nodes, and 59 for each record that it takes.
    ensures cost { Costs search_cost 0 87 spending.old spending.new }
{
    match indexed.pairs() {
        Some(pairs) => by_pairs(alloc, indexed, pairs, kind, base, spending),
        None => walk(alloc, indexed, kind, base, spending),
    }
}

/// The same by the pairs that were read back, and by a walk from a type that has several parents.
fn by_pairs<'k, 'a: 'k>(
    alloc: Global,
    indexed: &IndexedCache<'a>,
    pairs: &IndexedPairs<'a>,
    kind: &'k [u8],
    base: &'k [u8],
    spending: &mut Spending,
) -> Result<bool, CacheFault>
    // They are those of the cache.
    requires same { pairs.now ≡ indexed.now }
    // It is a type's name.
    requires base { length base.now ≤ 255 }
    // Where the pairs stand, it says whether the one type is the other or a subclass of it, each resolved.
    ensures answer { SaysIsA (λ is. is) indexed.now kind.entry.now base.entry.now result }
    // Where the pairs stand and a record is left for each parent, only memory is refused.
    ensures need { NeedsParents indexed.now spending.old.budget result }
    // The parents of a type, an alias step or memory shows the fault.
    ensures fault { IfErr result (IsSearchFault indexed.now spending.new.budget) }
    // It costs 29 nodes, and 59 for each record that it takes.
    ensures cost { Costs search_cost 0 29 spending.old spending.new }
{
    let base = pairs.unalias(base);
    match climb(pairs, pairs.unalias(kind), base, &mut Meter::new()) {
        Climbed::Found(is) => Ok(is),
        Climbed::Open(here) => leads_to(
            alloc,
            indexed,
            &mut Marks::new(alloc),
            here,
            base,
            spending,
        ),
    }
}

/// The same by a walk of the cache.
// Part of its caller, as that is.
#[inline(always)]
fn walk<'k, 'a: 'k>(
    alloc: Global,
    indexed: &IndexedCache<'a>,
    kind: &'k [u8],
    base: &'k [u8],
    spending: &mut Spending,
) -> Result<bool, CacheFault>
    // It is a type's name.
    requires base { length base.now ≤ 255 }
    // Where the pairs stand, it says whether the one type is the other or a subclass of it, each resolved.
    ensures answer { SaysIsA (λ is. is) indexed.now kind.entry.now base.entry.now result }
    // Where the pairs stand and a record is left for each parent, only memory is refused.
    ensures need { NeedsParents indexed.now spending.old.budget result }
    // The parents of a type, an alias step or memory shows the fault.
    ensures fault { IfErr result (IsSearchFault indexed.now spending.new.budget) }
    // It costs 87 nodes, and 59 for each record that it takes.
    ensures cost { Costs search_cost 0 87 spending.old spending.new }
{
    let kind = indexed.unalias(kind, &mut spending.meter, &mut spending.budget)?;
    let base = indexed.unalias(base, &mut spending.meter, &mut spending.budget)?;
    let mut marks = Marks::new(alloc);
    leads_to(alloc, indexed, &mut marks, kind, base, spending)
}
