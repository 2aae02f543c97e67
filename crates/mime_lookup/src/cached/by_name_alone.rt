//! A lookup of a name alone, for those who read contents themselves ("Recommended checking order").

ghost use Rattle.std.specs.Prelude.{◌≡◌, ◌+◌, ◌<◌, max, length, IfErr, IfOk, OnOk, ⊤};
ghost use Rattle.mime_base.specs.Cache.Bytes.{field};
ghost use Rattle.mime_base.specs.Database.{PlainDatabase};
ghost use Rattle.mime_lookup.specs.Affords.{Affords};
ghost use Rattle.mime_lookup.specs.Bounds.{stated_extent};
ghost use Rattle.mime_lookup.specs.Cached.{cause_of};
ghost use Rattle.mime_lookup.specs.CheckingOrder.{read_limit};
ghost use Rattle.mime_lookup.specs.Costs.{CostsSearch, LooksAt};
ghost use Rattle.mime_lookup.specs.LookUps.{ShowsFault};
ghost use Rattle.mime_lookup.specs.NameAlone.{CostsName, IsNameLookUp, told_name};
ghost use Rattle.mime_lookup.specs.Question.{IsDecided, NamesQuestion, SufficesUnread, extent_asked, near_most};
ghost use Rattle.mime_lookup.specs.Spelling.{SpellsGlobs, SpellsMagic};
ghost use Rattle.mime_lookup.specs.Spent.{UsesUp};
ghost use Rattle.mime_lookup.specs.StepFaults.{IsMagicHeadFault, IsNameFault};
ghost use Rattle.mime_lookup.specs.Steps.{IsPacked, Stops, StopsUnread};
ghost use Rattle.mime_view.specs.Lists.{LiesHead};

use crate::answer::NameAnswer;
use crate::cached::by_content::by_content;
use crate::cached::by_name::{NameDecision, by_name};
use crate::cached::indexed_cache::IndexedCache;
use crate::limits::LONGEST_NAME;
use crate::order::Order;
use crate::question::Question;
use crate::stopped::{Cause, Stopped};
use mime_base::{Counted, Host, Meter, TEXTUAL_FRONT};
use mime_view::{CacheFault, Spending};
use std::alloc::Global;

/// The type that the checking order gives to a name whose content is not available, and how much of a content a lookup of
/// this name reads at most: none where the globs alone give the type, else the greater of 128 and the extent that the cache
/// states ("Recommended checking order").
///
/// ```text
/// let answer = look_up_name(alloc, Counted::new(bytes), b"install.sh", Order::GlobsFirst)?;
/// // answer.kind is the type of the whole where answer.wanted is 0; else a front of answer.wanted bytes, or a shorter
/// // content, has it
/// ```
///
/// A hostile cache may state an extent of 4 GiB. It stops as [`look_up`](crate::look_up) does over this name and a content
/// that is available, but reads nothing, so never for [`Cause::Read`]. This project's own.
pub fn look_up_name<'a>(
    alloc: Global,
    cache: Counted<'a>,
    name: &[u8],
    order: Order,
) -> Result<NameAnswer<'a>, Stopped>
    // It is the type of the name without a content and how much of one is wanted, or why that can't be said.
    ensures promises { IsNameLookUp cache.entry name.now order result }
{
    let mut meter = Meter::new();
    if name.len() > LONGEST_NAME {
        return Err(Stopped {
            cause: Cause::NameTooLong,
            read: 0,
            meter,
        });
    }
    let host = Host::Little;
    let question = Question { name, host, order };
    let found = open_and_ask(alloc, cache, &question, &mut meter);
    told(found, meter)
}

/// [`look_up_name`] over a cache that was opened once, for many names: by the index of what was read back of it, and by a walk of the rest.
pub fn look_up_name_again<'a>(
    alloc: Global,
    indexed: &IndexedCache<'a>,
    name: &[u8],
    order: Order,
) -> Result<NameAnswer<'a>, Stopped>
    // It is all that is promised of the name over the bytes.
    ensures promises { IsNameLookUp indexed.now name.now order result }
{
    let mut meter = Meter::new();
    if name.len() > LONGEST_NAME {
        return Err(Stopped {
            cause: Cause::NameTooLong,
            read: 0,
            meter,
        });
    }
    meter.add_node();
    let host = Host::Little;
    let question = Question { name, host, order };
    let found = ask_opened(alloc, indexed, &question, &mut meter);
    told(found, meter)
}

/// What was found, or the cause, with what it took.
// Part of each of its two callers.
#[inline(always)]
fn told<'a>(
    found: Result<(&'a [u8], u64), CacheFault>,
    meter: Meter,
) -> Result<NameAnswer<'a>, Stopped>
    ensures { result ≡ told_name found.entry meter }
{
    match found {
        Ok((kind, wanted)) => Ok(NameAnswer {
            kind,
            wanted,
            meter,
        }),
        Err(fault) => Err(Stopped {
            cause: Cause::from(fault),
            read: 0,
            meter,
        }),
    }
}

/// The same of a name that is short enough: the type and how much is wanted, or the fault alone.
fn open_and_ask<'a>(
    alloc: Global,
    cache: Counted<'a>,
    question: &Question<'_>,
    meter: &mut Meter,
) -> Result<(&'a [u8], u64), CacheFault>
    requires fresh { meter.old ≡ record { nodes = 0; bytes = 0 } }
    ensures answers { IfOk result (λ found. NamesQuestion cache.entry question.now found.0.now found.1) }
    ensures faults { ShowsFault (λ e. e) cache.entry (IsNameFault cache.entry question.now.name.now) result }
    ensures stops { IfErr result (λ e. Stops (UsesUp cache.entry ⊤ meter.new.nodes)
        (λ b. SufficesUnread cache.entry question.now b × IsPacked cache.entry b) (λ _. ⊥) (cause_of e)) }
    ensures costs { CostsName cache.entry question.now.name.now question.now.order meter.new result }
{
    let indexed = IndexedCache::open(cache, meter)?;
    ask_opened(alloc, &indexed, question, meter)
}

/// The same over an opened cache, whose header was counted.
// Part of each of its two callers.
#[inline(always)]
fn ask_opened<'a>(
    alloc: Global,
    indexed: &IndexedCache<'a>,
    question: &Question<'_>,
    meter: &mut Meter,
) -> Result<(&'a [u8], u64), CacheFault>
    requires header { meter.old ≡ record { nodes = 1; bytes = 0 } }
    ensures answers { IfOk result (λ found. NamesQuestion indexed.now question.now found.0.now found.1) }
    ensures faults { ShowsFault (λ e. e) indexed.now (IsNameFault indexed.now question.now.name.now) result }
    ensures stops { IfErr result (λ e. Stops (UsesUp indexed.now ⊤ meter.new.nodes)
        (λ b. SufficesUnread indexed.now question.now b × IsPacked indexed.now b) (λ _. ⊥) (cause_of e)) }
    ensures costs { CostsName indexed.now question.now.name.now question.now.order meter.new result }
{
    let mut spending = Spending {
        meter: *meter,
        budget: indexed.budget(),
    };
    let found = ask(alloc, indexed, question, &mut spending);
    *meter = spending.meter;
    found
}

/// The type, and how much is wanted, within a budget.
// Part of its caller, as that is.
#[inline(always)]
fn ask<'a>(
    alloc: Global,
    indexed: &IndexedCache<'a>,
    question: &Question<'_>,
    spending: &mut Spending,
) -> Result<(&'a [u8], u64), CacheFault>
    ensures answers { IfOk result (λ found. NamesQuestion indexed.now question.now found.0.now found.1) }
    ensures stops { StopsUnread indexed.now ⊤ spending.old spending.new
        (λ b. SufficesUnread indexed.now question.now b × Affords b spending.old.budget) result }
    ensures fault { IfErr result (IsNameFault indexed.now question.now.name.now) }
    ensures near { (b : PlainDatabase) → SpellsGlobs indexed.now b → IsDecided b question.now ⊤ → OnOk result
        (spending.new.meter.nodes < spending.old.meter.nodes + near_most b question.now + extent_asked b question.now) }
    ensures cost { CostsSearch (length question.now.name.now) 1 31 spending.old spending.new }
{
    let given = by_name(alloc, indexed, question, false, spending)?;
    match given {
        NameDecision::Decided(kind) => Ok((kind, 0)),
        NameDecision::Left(candidates) => {
            let wanted = front_limit(indexed, spending)?;
            let kind = by_content(alloc, indexed, question, candidates, None, spending)?;
            Ok((kind, wanted))
        }
    }
}

/// The longest front that a lookup reads: as much as the cache says that magic can look at, and at least 128 bytes.
pub(super) fn front_limit(
    indexed: &IndexedCache<'_>,
    spending: &mut Spending,
) -> Result<u64, CacheFault>
    // On any bytes it is what the magic list states, and at least 128.
    ensures stated { IfOk result (λ size. size ≡ max 128 (stated_extent indexed.now)) }
    // Where magic stands, it is what a lookup of the database may read.
    ensures spelled { (b : PlainDatabase) → SpellsMagic indexed.now b → IfOk result (λ size. size ≡ read_limit b) }
    // Then it is given.
    ensures need { (b : PlainDatabase) → SpellsMagic indexed.now b → IfErr result (λ _. ⊥) }
    // For an answer the head of the list lies in the cache.
    ensures inside { OnOk result (LiesHead indexed.now (field indexed.now 0 6) 12) }
    // The only fault is that it doesn't.
    ensures fault { IfErr result (IsMagicHeadFault indexed.now) }
    // One record is visited.
    ensures cost { LooksAt 1 spending.old spending.new }
{
    let extent = indexed.extent(&mut spending.meter, &mut spending.budget)?;
    Ok(u64::from(TEXTUAL_FRONT.max(extent)))
}
