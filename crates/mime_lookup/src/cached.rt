//! Lookup over the bytes of a cache, whatever they are.

ghost use Rattle.std.specs.Prelude.{◌≡◌, ◌+◌, ◌<◌, IfErr, IfOk, None, OnOk, length, option_map};
ghost use Rattle.mime_base.specs.Database.{PlainDatabase};
ghost use Rattle.mime_lookup.specs.Affords.{Affords};
ghost use Rattle.mime_lookup.specs.Cached.{IsStop};
ghost use Rattle.mime_lookup.specs.Costs.{CostsSearch, LooksForContent};
ghost use Rattle.mime_lookup.specs.Fronts.{ReadsFront, TakesFront};
ghost use Rattle.mime_lookup.specs.Headline.{IsHeadline};
ghost use Rattle.mime_lookup.specs.LookUps.{AnswersLookUp, Begins, CostsLookUp, ReadsLookUp, StopsLookUp};
ghost use Rattle.mime_lookup.specs.LookUps.{cause_in, meter_in, read_in};
ghost use Rattle.mime_lookup.specs.Question.{AnswersQuestion, CostsQuestion, FaultsQuestion, IsDecided, ReadsQuestion, StopsQuestion};
ghost use Rattle.mime_lookup.specs.Question.{near_most};
ghost use Rattle.mime_lookup.specs.Spelling.{SpellsGlobs};
ghost use Rattle.mime_lookup.specs.Spent.{IsUsedUp, UsesUp};
ghost use Rattle.mime_lookup.specs.StepFaults.{IsLookUpFault, IsMagicHeadFault};
ghost use Rattle.mime_lookup.specs.Steps.{IsPacked, Stops, SufficesForContent};

mod again;
mod ancestry;
mod below;
mod by_content;
mod by_name;
mod by_name_alone;
mod content_alone;
pub mod hits;
pub mod icons;
mod indexed_cache;
mod magic_of;
pub mod name_types;
mod paid_cache;
mod sniff;
mod subclass;

use crate::answer::Answer;
use crate::cached::by_content::by_content;
use crate::cached::by_name::{NameDecision, by_name};
use crate::content::Content;
use crate::limits::LONGEST_NAME;
use crate::order::Order;
use crate::question::Question;
use crate::reading::read_front;
use crate::stopped::{Cause, Stopped};
pub use again::look_up_again;
pub use below::is_below;
pub use by_name_alone::{look_up_name, look_up_name_again};
pub use content_alone::{SniffedContent, sniff_again, sniff_alone};
pub use hits::hits_again;
pub use icons::{IconText, Icons, icon_again, icon_of};
pub use indexed_cache::IndexedCache;
use mime_base::{Counted, Host, Meter, TEXTUAL_FRONT};
use mime_view::Spending;
pub use paid_cache::PaidCache;
use std::alloc::Global;
pub use subclass::{is_a, is_a_again};

/// The type that the checking order gives to a name and a content, by a cache ("Recommended checking order").
///
/// ```text
/// let mut content = Some(&b"#!/bin/sh\n"[..]);
/// let (host, order) = (Host::Little, Order::GlobsFirst);
/// let answer = look_up(alloc, Counted::new(bytes), b"install.sh", &mut content, host, order)?;
/// // answer.kind is a slice of the cache, or one of three fixed types
/// ```
///
/// Any byte of the cache may be damaged or hostile: the lookup returns, and what it visits, compares and reads keeps to
/// bounds that depend on the lengths of the name and of the cache alone. `None` is content that is not available; a reader
/// is still there after the call. Of a content at most the greater of 128 bytes and the extent that the cache states is
/// read; under [`Order::GlobsFirst`] nothing where the globs give one type, under [`Order::AllGlobs`] nothing where all
/// rules that match give one type.
///
/// A name of more than 4,096 bytes is [`Cause::NameTooLong`], before anything else. [`Cause::Cache`] says what is wrong with
/// the cache and where; a cache that spells a database and is packed has no such fault. [`Cause::Read`] comes with a failed
/// read and with the 1,001st interruption. This project's own.
pub fn look_up<'a, R: Content>(
    alloc: Global,
    cache: Counted<'a>,
    name: &[u8],
    content: &mut Option<R>,
    host: Host,
    order: Order,
) -> Result<Answer<'a>, Stopped>
    // Where enough of a database stands, an answer is the type that the order gives to the name and the content.
    ensures answers { IfOk result
        (λ answer. AnswersLookUp R.remaining cache.entry name.now content.old host order answer.kind.now) }
    // Why it stops: over a cache that spells a database and is packed, only for a read or for memory.
    ensures stops { StopsLookUp cache.entry name.now order content.old content.new result }
    // What it reads: no more than magic can look at, and nothing where the globs suffice.
    ensures reads { ReadsLookUp R.remaining R.tally R.health cache.entry name.now order content.old content.new
        (read_in result) (cause_in result) }
    // What it costs: whatever the bytes are, it keeps to bounds by the lengths of the name and of the cache.
    ensures costs { CostsLookUp cache.entry name.now order content.old (read_in result) (meter_in result) (cause_in result) }
    // All of it in one: bounds over any bytes, and the right type over a cache that was written.
    ensures headline { IsHeadline R.remaining R.tally cache.entry name.now content.old content.new host order result }
{
    let mut read = 0;
    let mut meter = Meter::new();
    if name.len() > LONGEST_NAME {
        let cause = Cause::NameTooLong;
        return Err(Stopped { cause, read, meter });
    }
    let question = Question { name, host, order };
    match open_and_find(alloc, cache, &question, content, &mut read, &mut meter) {
        Ok(kind) => Ok(Answer { kind, read, meter }),
        Err(cause) => Err(Stopped { cause, read, meter }),
    }
}

/// The type of a name and a content by the bytes of a cache, and how many bytes of the content were read.
fn open_and_find<'a, R: Content>(
    alloc: Global,
    cache: Counted<'a>,
    question: &Question<'_>,
    content: &mut Option<R>,
    read: &mut u64,
    meter: &mut Meter,
) -> Result<&'a [u8], Cause>
    requires begins { Begins 0 read.old meter.old }
    ensures answers { IfOk result (λ kind. AnswersQuestion R.remaining cache.entry question.now content.old kind.now) }
    ensures faults { FaultsQuestion cache.entry question.now content.old result }
    ensures stops { IfErr result (StopsQuestion cache.entry question.now content.old
        (UsesUp cache.entry (content.old ≡ None) meter.new.nodes) (IsPacked cache.entry)) }
    ensures reads { ReadsQuestion R.remaining R.tally R.health cache.entry question.now
        content.old content.new read.new result }
    ensures costs { CostsQuestion cache.entry question.now content.old read.new meter.new result }
{
    let indexed = IndexedCache::open(cache, meter)?;
    find_opened(alloc, &indexed, question, content, read, meter)
}

/// The same over an opened cache, whose header was counted.
// Part of each of its two callers.
#[inline(always)]
fn find_opened<'a, R: Content>(
    alloc: Global,
    indexed: &IndexedCache<'a>,
    question: &Question<'_>,
    content: &mut Option<R>,
    read: &mut u64,
    meter: &mut Meter,
) -> Result<&'a [u8], Cause>
    requires begins { Begins 1 read.old meter.old }
    ensures answers { IfOk result (λ kind. AnswersQuestion R.remaining indexed.now question.now content.old kind.now) }
    ensures faults { FaultsQuestion indexed.now question.now content.old result }
    ensures stops { IfErr result (StopsQuestion indexed.now question.now content.old
        (UsesUp indexed.now (content.old ≡ None) meter.new.nodes) (IsPacked indexed.now)) }
    ensures reads { ReadsQuestion R.remaining R.tally R.health indexed.now question.now
        content.old content.new read.new result }
    ensures costs { CostsQuestion indexed.now question.now content.old read.new meter.new result }
{
    let mut spending = Spending {
        meter: *meter,
        budget: indexed.budget(),
    };
    let kind = find(alloc, indexed, question, content, read, &mut spending);
    *meter = spending.meter;
    kind
}

/// The lookup over an opened cache: the name, and where that leaves a choice the front of the content.
// Part of its caller, as that is.
#[inline(always)]
fn find<'a, R: Content>(
    alloc: Global,
    indexed: &IndexedCache<'a>,
    question: &Question<'_>,
    content: &mut Option<R>,
    read: &mut u64,
    spending: &mut Spending,
) -> Result<&'a [u8], Cause>
    requires none { read.old ≡ 0 }
    ensures answers { IfOk result (λ kind. AnswersQuestion R.remaining indexed.now question.now content.old kind.now) }
    ensures stops { IfErr result (StopsQuestion indexed.now question.now content.old
        (IsUsedUp indexed.now (content.old ≡ None) spending.old.budget spending.new.budget) (λ b. Affords b spending.old.budget)) }
    ensures fault { IfErr result (IsStop (IsLookUpFault indexed.now question.now.name.now (content.old ≡ None))) }
    ensures reads { ReadsQuestion R.remaining R.tally R.health indexed.now question.now
        content.old content.new read.new result }
    ensures near { (b : PlainDatabase) → SpellsGlobs indexed.now b → IsDecided b question.now (content.old ≡ None)
        → OnOk result (spending.new.meter.nodes < spending.old.meter.nodes + near_most b question.now) }
    ensures cost { CostsSearch (length question.now.name.now) (read.new + 1) 31 spending.old spending.new }
{
    let given = by_name(alloc, indexed, question, content.is_some(), spending)?;
    match given {
        NameDecision::Decided(kind) => Ok(kind),
        NameDecision::Left(candidates) => {
            let front = read_content(alloc, indexed, content, read, spending)?;
            let front = front.as_deref();
            let kind = by_content(alloc, indexed, question, candidates, front, spending)?;
            Ok(kind)
        }
    }
}

/// The front of a content that is wanted: as much as the cache says that magic can look at, and at least 128 bytes.
fn read_content<R: Content>(
    alloc: Global,
    indexed: &IndexedCache<'_>,
    content: &mut Option<R>,
    read: &mut u64,
    spending: &mut Spending,
) -> Result<Option<Vec<u8>>, Cause>
    requires none { read.old ≡ 0 }
    ensures front { IfOk result (λ front. ReadsFront R.remaining indexed.now content.old read.new
        (option_map (λ bytes. bytes.items) front)) }
    ensures stops { IfErr result (Stops ⊥ (SufficesForContent indexed.now (content.old ≡ None))
        (λ _. content.old ≡ None → ⊥)) }
    ensures fault { IfErr result (IsStop (λ e. (content.old ≡ None → ⊥) × IsMagicHeadFault indexed.now e)) }
    ensures takes { TakesFront R.remaining R.tally R.health indexed.now content.old content.new read.new result }
    ensures costs { LooksForContent (content.old ≡ None) 1 spending.old spending.new }
{
    let Some(reader) = content else {
        return Ok(None);
    };
    let extent = indexed.extent(&mut spending.meter, &mut spending.budget)?;
    let limit = TEXTUAL_FRONT.max(extent) as usize;
    let front = read_front(alloc, reader, limit, read)?;
    Ok(Some(front))
}
