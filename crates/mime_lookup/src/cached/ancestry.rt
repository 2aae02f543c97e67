//! The search for a subclass over a cache ("Subclassing").
//!
//! It goes breadth first over a queue, as the search over lists does. Each entry of the parent list that it
//! expands is marked, and the marks serve all candidates of a lookup: after a search that found nothing, no
//! marked type leads to the base, so no entry is expanded twice. Over damaged bytes it ends since each type
//! that enters the queue takes a record of the budget. Where the pairs were read back, and a walk would not be
//! spent, a climb comes first, which takes nothing.

ghost use Rattle.std.specs.Prelude.{◌≡◌, ◌⊎◌, ◌+◌, ◌*◌, ◌≤◌, ◌∷◌, ◌++◌};
ghost use Rattle.std.specs.Prelude.{Contains, length, map, IfErr, IfOk, MatchResult, OnOk};
ghost use Rattle.mime_base.specs.Database.{PlainDatabase, pairs_of};
ghost use Rattle.mime_base.specs.Database.Subclass.{resolved};
ghost use Rattle.mime_lookup.specs.Ancestry.{Expanded, kinds_of};
ghost use Rattle.mime_lookup.specs.Choice.{IsFirst};
ghost use Rattle.mime_lookup.specs.Costs.{Costs};
ghost use Rattle.mime_lookup.specs.Searching.{AnswersMarked, NeedsParents, TakesMarked, expansion_price, marked_by, search_cost};
ghost use Rattle.mime_lookup.specs.Spelling.{SpellsPairs};
ghost use Rattle.mime_lookup.specs.StepFaults.{IsAliasFault, IsSearchFault};
ghost use Rattle.mime_view.specs.Spending.{Looks, Spends};

use crate::cached::indexed_cache::IndexedCache;
use crate::climb::{Climbed, climb};
use crate::queue::Queue;
use crate::subclass::is_by_itself;
use mime_base::Meter;
use mime_view::{CacheFault, Marks, Spending};
use std::alloc::Global;

/// The first of the types that is the base or a subclass of it, else the default.
pub fn first_of<'a>(
    alloc: Global,
    indexed: &IndexedCache<'a>,
    kinds: &[&'a [u8]],
    default: &'a [u8],
    base: &[u8],
    spending: &mut Spending,
) -> Result<&'a [u8], CacheFault>
    // Any text of the cache and any type name is this short.
    requires base { length base.now ≤ 255 }
    // Where the pairs stand, it is the first of the types that is the base or a subclass of it, else the default.
    ensures answer { (b : PlainDatabase) → SpellsPairs indexed.now b → IfOk result
        (λ kind. IsFirst (pairs_of b) base.now default.entry.now (kinds_of kinds.now) kind.now) }
    // It is the default, or one of the types.
    ensures one { IfOk result (λ kind. Contains (default.entry.now ∷ kinds_of kinds.now) kind.now) }
    // Where the pairs stand and a record is left for each parent, only memory is refused.
    ensures need { NeedsParents indexed.now spending.old.budget result }
    // The parents of a type, an alias step or memory shows the fault.
    ensures fault { IfErr result (IsSearchFault indexed.now spending.new.budget) }
    // It costs 29 nodes for each type, and 59 for each record that it takes.
    ensures cost { Costs search_cost 0 (29 * length kinds.now) spending.old spending.new }
{
    let mut marks = Marks::new(alloc);
    for kind in kinds {
        if climbs_to(alloc, indexed, &mut marks, *kind, base, spending)? {
            return Ok(*kind);
        }
    }
    Ok(default)
}

/// Whether a type is the base or a subclass of it, unless a marked type is: by the pairs that were read back, and by a walk from a type
/// that has several parents.
pub fn climbs_to<'k, 'a: 'k>(
    alloc: Global,
    indexed: &IndexedCache<'a>,
    marks: &mut Marks,
    kind: &'k [u8],
    base: &[u8],
    spending: &mut Spending,
) -> Result<bool, CacheFault>
    // Any text of the cache and any type name is this short.
    requires base { length base.now ≤ 255 }
    // Where the pairs stand, it says whether the type leads to the base, unless a marked type does.
    ensures answer { AnswersMarked indexed.now kind.entry.now base.now marks.old marks.new result }
    // There no more records are taken than there are pairs of the types that it marks.
    ensures takes { TakesMarked indexed.now marks.old marks.new spending.old spending.new result }
    // The parents of a type, an alias step or memory shows the fault.
    ensures fault { IfErr result (IsSearchFault indexed.now spending.new.budget) }
    // It costs 29 nodes, and 59 for each record that it takes.
    ensures cost { Costs search_cost 0 29 spending.old spending.new }
{
    match indexed.pairs() {
        Some(pairs) if indexed.has_room_for_search(spending) => {
            match climb(pairs, kind, base, &mut Meter::new()) {
                Climbed::Found(is) => Ok(is),
                Climbed::Open(here) => leads_to(alloc, indexed, marks, here, base, spending),
            }
        }
        _ => leads_to(alloc, indexed, marks, kind, base, spending),
    }
}

/// The same by a walk.
pub fn leads_to<'k, 'a: 'k>(
    alloc: Global,
    indexed: &IndexedCache<'a>,
    marks: &mut Marks,
    kind: &'k [u8],
    base: &[u8],
    spending: &mut Spending,
) -> Result<bool, CacheFault>
    // Any text of the cache and any type name is this short.
    requires base { length base.now ≤ 255 }
    // Where the pairs stand, it says whether the type leads to the base, unless a marked type does.
    ensures answer { AnswersMarked indexed.now kind.entry.now base.now marks.old marks.new result }
    // There no more records are taken than there are pairs of the types that it marks.
    ensures takes { TakesMarked indexed.now marks.old marks.new spending.old spending.new result }
    // The parents of a type, an alias step or memory shows the fault.
    ensures fault { IfErr result (IsSearchFault indexed.now spending.new.budget) }
    // It costs 29 nodes, and 59 for each record that it takes.
    ensures cost { Costs search_cost 0 29 spending.old spending.new }
{
    let mut queue = Queue::new(alloc);
    queue.push_back(kind)?;
    while let Some(here) = queue.pop_front() {
        if is_by_itself(here, base, &mut spending.meter) {
            return Ok(true);
        }
        expand(alloc, indexed, marks, here, &mut queue, spending)?;
    }
    Ok(false)
}

/// Puts what is above a type at the end of the queue, each after one alias step, and marks its entry, unless
/// it is marked.
fn expand<'k, 'a: 'k>(
    alloc: Global,
    indexed: &IndexedCache<'a>,
    marks: &mut Marks,
    kind: &[u8],
    queue: &mut Queue<'k>,
    spending: &mut Spending,
) -> Result<(), CacheFault>
    // Where the pairs stand, all above the type comes to the queue, or nothing if it was marked.
    ensures expanded { (b : PlainDatabase) → SpellsPairs indexed.now b → OnOk result (Expanded (pairs_of b) kind.now
        (marked_by indexed.now marks.old) (marked_by indexed.now marks.new) queue.old queue.new) }
    // There no more records are taken than there are pairs of the type, once it is marked.
    ensures takes { TakesMarked indexed.now marks.old marks.new spending.old spending.new result }
    // The parents of a type, an alias step or memory shows the fault.
    ensures fault { IfErr result (IsSearchFault indexed.now spending.new.budget) }
    // Each type that comes to the queue took a record.
    ensures falls { OnOk result
        (length queue.new + spending.new.budget.records ≡ length queue.old + spending.old.budget.records) }
    // It costs 29 nodes, and for each record its own and an alias step.
    ensures cost { Spends expansion_price 29 (256 * 27) spending.old spending.new }
{
    let found = indexed.cache().parents_of(
        alloc,
        kind,
        marks,
        &mut spending.meter,
        &mut spending.budget,
    )?;
    let Some(parents) = found else {
        return Ok(());
    };
    push_unaliased(indexed, parents.types.as_slice(), queue, spending)
}

/// Puts types at the end of the queue, each after one alias step.
fn push_unaliased<'k, 'a: 'k>(
    indexed: &IndexedCache<'a>,
    kinds: &[&'a [u8]],
    queue: &mut Queue<'k>,
    spending: &mut Spending,
) -> Result<(), CacheFault>
    // Where the aliases stand, the resolved types come to the end of the queue, unless memory is refused.
    ensures queue { (b : PlainDatabase) → SpellsPairs indexed.now b → MatchResult result
        (λ _. queue.new ≡ queue.old ++ map (resolved b.aliases) (kinds_of kinds.now))
        (λ e. e ≡ CacheFault.OutOfMemory) }
    // An alias step or memory shows the fault.
    ensures fault { IfErr result (λ e. IsAliasFault indexed.now e ⊎ (e ≡ CacheFault.OutOfMemory)) }
    // The queue has one more for each type.
    ensures longer { OnOk result (length queue.new ≡ length queue.old + length kinds.now) }
    // Nothing is taken of the budget.
    ensures budget { spending.new.budget ≡ spending.old.budget }
    // It visits at most 29 records for each type, and compares at most a text for each.
    ensures cost { Looks (29 * length kinds.now) (256 * 29 * length kinds.now) spending.old.meter spending.new.meter }
{
    for kind in kinds {
        let name = indexed.unalias(*kind, &mut spending.meter, &mut spending.budget)?;
        queue.push_back(name)?;
    }
    Ok(())
}
