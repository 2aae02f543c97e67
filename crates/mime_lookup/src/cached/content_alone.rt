//! What a content is sniffed as by itself ("Recommended checking order").

ghost use Rattle.std.specs.Prelude.{◌≡◌, ◌+◌, IfErr, length, max, take};
ghost use Rattle.mime_lookup.specs.Bounds.{KeepsBounds, stated_extent};
ghost use Rattle.mime_lookup.specs.Cached.{cause_of, plain_finding};
ghost use Rattle.mime_lookup.specs.ContentAlone.{IsSniffing, LooksAtFront, SniffsAs, told_content};
ghost use Rattle.mime_lookup.specs.Costs.{Costs};
ghost use Rattle.mime_lookup.specs.Finding.{priority_of};
ghost use Rattle.mime_lookup.specs.LookUps.{Begins, ShowsFault};
ghost use Rattle.mime_lookup.specs.Spelling.{SpellsMagic};
ghost use Rattle.mime_lookup.specs.Spent.{UsesUp};
ghost use Rattle.mime_lookup.specs.StepFaults.{IsSniffStepFault, IsSniffingFault};
ghost use Rattle.mime_lookup.specs.Steps.{IsPacked, Stops, StopsSniffing};

use crate::cached::by_name_alone::front_limit;
use crate::cached::indexed_cache::IndexedCache;
use crate::cached::sniff::{Finding, unalias};
use crate::stopped::{Cause, Stopped};
use mime_base::{Counted, Host, Meter};
use mime_view::{CacheFault, Spending};

/// What a content is sniffed as, and what it took to find out.
#[derive(Clone, Copy, Debug)]
pub struct SniffedContent<'a> {
    /// The type: a slice of the cache, or one of three fixed types.
    pub kind: &'a [u8],
    /// The priority of the section of magic that holds, if one does.
    pub priority: Option<u32>,
    /// How many bytes of the content were looked at.
    pub read: u64,
    /// What was looked at.
    pub meter: Meter,
}

/// What a content is sniffed as by itself, by a cache ("Recommended checking order").
///
/// ```text
/// let found = sniff_alone(Counted::new(bytes), b"#!/bin/sh\n", Host::Little)?;
/// // found.kind is the type, and found.priority that of the section that holds
/// ```
///
/// The type is that of the first section of magic that holds, after one alias step, else a type by the bytes alone. At most
/// the greater of 128 bytes and the extent that the cache states is looked at. It never allocates. [`Cause::Cache`] says what
/// is wrong with the cache; no read fails.
pub fn sniff_alone<'a>(
    cache: Counted<'a>,
    content: &[u8],
    host: Host,
) -> Result<SniffedContent<'a>, Stopped>
    // It is what the content is sniffed as, or why that can't be said.
    ensures promises { IsSniffing cache.entry content.now host result }
{
    let mut read = 0;
    let mut meter = Meter::new();
    let found = open_and_sniff(cache, content, host, &mut read, &mut meter);
    told(found, read, meter)
}

/// [`sniff_alone`] over a cache that was opened once, for many contents: by the index of what was read back of it, and by a walk of the
/// rest.
pub fn sniff_again<'a>(
    indexed: &IndexedCache<'a>,
    content: &[u8],
    host: Host,
) -> Result<SniffedContent<'a>, Stopped>
    // It is all that is promised of the content over the bytes.
    ensures promises { IsSniffing indexed.now content.now host result }
{
    let mut read = 0;
    let mut meter = Meter::new();
    meter.add_node();
    let found = sniff_metered(indexed, content, host, &mut read, &mut meter);
    told(found, read, meter)
}

/// What was found, or the cause, with what it took.
// Part of each of its two callers.
#[inline(always)]
fn told<'a>(
    found: Result<(&'a [u8], Option<u32>), CacheFault>,
    read: u64,
    meter: Meter,
) -> Result<SniffedContent<'a>, Stopped>
    ensures { result ≡ told_content found.entry read meter }
{
    match found {
        Ok((kind, priority)) => Ok(SniffedContent {
            kind,
            priority,
            read,
            meter,
        }),
        Err(fault) => Err(Stopped {
            cause: Cause::from(fault),
            read,
            meter,
        }),
    }
}

/// The type and the priority, with how much of the content was looked at.
fn open_and_sniff<'a>(
    cache: Counted<'a>,
    content: &[u8],
    host: Host,
    read: &mut u64,
    meter: &mut Meter,
) -> Result<(&'a [u8], Option<u32>), CacheFault>
    requires begins { Begins 0 read.old meter.old }
    ensures answers { SniffsAs cache.entry content.now host result }
    ensures faults { ShowsFault (λ e. e) cache.entry (IsSniffingFault cache.entry content.now host) result }
    ensures stops { IfErr result (λ e. Stops (UsesUp cache.entry ⊥ meter.new.nodes)
        (λ b. SpellsMagic cache.entry b × IsPacked cache.entry b) (λ _. ⊥) (cause_of e)) }
    ensures looks { LooksAtFront cache.entry content.now read.new result }
    ensures bounds { KeepsBounds 0 cache.entry read.new meter.new }
{
    let indexed = IndexedCache::open(cache, meter)?;
    sniff_metered(&indexed, content, host, read, meter)
}

/// The same over an opened cache, whose header was counted.
// Part of each of its two callers.
#[inline(always)]
fn sniff_metered<'a>(
    indexed: &IndexedCache<'a>,
    content: &[u8],
    host: Host,
    read: &mut u64,
    meter: &mut Meter,
) -> Result<(&'a [u8], Option<u32>), CacheFault>
    requires begins { Begins 1 read.old meter.old }
    ensures answers { SniffsAs indexed.now content.now host result }
    ensures faults { ShowsFault (λ e. e) indexed.now (IsSniffingFault indexed.now content.now host) result }
    ensures stops { IfErr result (λ e. Stops (UsesUp indexed.now ⊥ meter.new.nodes)
        (λ b. SpellsMagic indexed.now b × IsPacked indexed.now b) (λ _. ⊥) (cause_of e)) }
    ensures looks { LooksAtFront indexed.now content.now read.new result }
    ensures bounds { KeepsBounds 0 indexed.now read.new meter.new }
{
    let mut spending = Spending {
        meter: *meter,
        budget: indexed.budget(),
    };
    let found = sniff_opened(indexed, content, host, read, &mut spending);
    *meter = spending.meter;
    found
}

/// The same over an opened cache.
fn sniff_opened<'a>(
    indexed: &IndexedCache<'a>,
    content: &[u8],
    host: Host,
    read: &mut u64,
    spending: &mut Spending,
) -> Result<(&'a [u8], Option<u32>), CacheFault>
    requires none { read.old ≡ 0 }
    ensures answers { SniffsAs indexed.now content.now host result }
    ensures stops { StopsSniffing indexed.now ⊥ (SpellsMagic indexed.now) spending.old spending.new result }
    ensures fault { IfErr result (IsSniffStepFault indexed.now (take (max 128 (stated_extent indexed.now)) content.now)
        host spending.new.budget) }
    ensures looks { LooksAtFront indexed.now content.now read.new result }
    ensures cost { Costs 256 (read.new + 1) 31 spending.old spending.new }
{
    let limit = front_limit(indexed, spending)?;
    let front = front_of(content, limit);
    *read = front.len() as u64;
    sniff_whole(indexed, front, host, spending)
}

/// The front of a content, of at most that many bytes.
fn front_of(content: &[u8], limit: u64) -> &[u8]
    ensures { result.now ≡ take limit content.now }
{
    if content.len() as u64 <= limit {
        content
    } else {
        &content[..limit as usize]
    }
}

/// What a front is sniffed as, as if it were the whole.
fn sniff_whole<'a>(
    indexed: &IndexedCache<'a>,
    front: &[u8],
    host: Host,
    spending: &mut Spending,
) -> Result<(&'a [u8], Option<u32>), CacheFault>
    ensures answers { SniffsAs indexed.now front.now host result }
    ensures stops { StopsSniffing indexed.now ⊥ (SpellsMagic indexed.now) spending.old spending.new result }
    ensures fault { IfErr result (IsSniffStepFault indexed.now front.now host spending.new.budget) }
    ensures cost { Costs 256 (length front.now + 1) 30 spending.old spending.new }
{
    let finding = indexed.sniff_front(Some(front), host, true, spending)?;
    let kind = unalias(indexed, finding, spending)?;
    Ok((kind, priority_of(finding)))
}

/// The priority of the section that gave a finding, if one did.
fn priority_of(finding: Finding<'_>) -> Option<u32>
    ensures { result ≡ priority_of (plain_finding finding.entry) }
{
    match finding {
        Finding::Magic(_, priority) => Some(priority),
        Finding::Fixed(_) => None,
    }
}
