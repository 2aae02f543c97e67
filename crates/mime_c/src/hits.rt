//! The rules that match a name.

ghost use Rattle.std.specs.Prelude.{◌≡◌, ◌-◌, ◌≤◌, length};
ghost use Rattle.mime_c.specs.Hits.{IsAskedHits, IsHits, IsHitsReport, given, given_hits, hits_bytes, hits_nodes, plain_given, one_if};
ghost use Rattle.mime_c.specs.Parents.{AreWritten};
ghost use Rattle.mime_c.specs.Reader.{IsOfCache};
ghost use Rattle.mime_view.specs.Spending.{Looks};

use crate::look_up::Text;
use crate::opening::open;
use crate::report::{Report, answered, fault_report, status_report};
use crate::status::NAME_TOO_LONG;
use mime_base::Meter;
use mime_lookup::LONGEST_NAME;
use mime_view::{Budget, Cache, CacheFault, RuleHit, RuleHits};
use std::alloc::Global;

/// A rule that matches a name.
#[repr(C)]
#[derive(Drop)]
pub struct Hit<'a> {
    /// Its type, as the cache has it.
    pub kind: Text<'a>,
    /// Its weight, from 0 to 255.
    pub weight: u32,
    /// 1 where it is case-sensitive, else 0.
    pub cased: u16,
    /// 1 where it is kept, else 0.
    pub kept: u16,
    /// Zeros, for what is to come.
    pub spare: [u64; 2],
}

/// All glob rules that match a name, the best first, in the caller's array as far as there is room, and how many there are
/// ("Recommended checking order").
///
/// They are by falling rank, and those of one rank in the order of the cache: the first are those that are kept. No alias is
/// resolved. A name of more than 4,096 bytes is too long.
#[unsafe(no_mangle)]
pub extern "C" fn mimelook_hits<'a>(
    alloc: Global,
    cache: &'a [u8],
    name: &[u8],
    hits: &mut [Hit<'a>],
    count: &mut usize,
) -> Report
    // They are the rules that the reader gives; the array and the count are written only with an answer.
    ensures promises { IsAskedHits cache.entry.now name.now (record { hits = hits.old; count = count.old })
        (record { hits = hits.new; count = count.new }) result }
{
    if name.len() > LONGEST_NAME {
        return status_report(NAME_TOO_LONG, 0, Meter::new());
    }
    let mut meter = Meter::new();
    let found = ask(alloc, cache, name, &mut meter);
    tell(found, meter, hits, count)
}

/// The hits go out, if there are any, and how many they are.
pub(crate) fn tell<'a>(
    found: Result<RuleHits<'a>, CacheFault>,
    meter: Meter,
    hits: &mut [Hit<'a>],
    count: &mut usize,
) -> Report
    // They are written only with an answer.
    ensures { IsHitsReport (record { hits = hits.old; count = count.old }) (record { hits = hits.new; count = count.new })
        found.entry meter result }
{
    match found {
        Ok(found) => {
            put_hits(&found, hits);
            *count = found.rules.len();
            answered(0, meter)
        }
        Err(fault) => fault_report(fault, 0, meter),
    }
}

// The hits at the front of an array, as far as there is room.
fn put_hits<'a>(found: &RuleHits<'a>, array: &mut [Hit<'a>])
    ensures { AreWritten plain_given (given_hits found.now) array.old array.new }
{
    let room = found.rules.len().min(array.len());
    for i in 0..room {
        array[i] = given_hit(&found.rules[i], i < found.kept);
    }
}

// What C gets of a hit that is kept, or isn't.
fn given_hit<'a>(hit: &RuleHit<'a>, kept: bool) -> Hit<'a>
    ensures { plain_given result ≡ given (one_if kept) hit.now }
{
    Hit {
        kind: Text { bytes: hit.kind },
        weight: u32::from(hit.weight),
        cased: u16::from(hit.cased),
        kept: u16::from(kept),
        spare: [0; 2],
    }
}

// The rules themselves.
fn ask<'a>(
    alloc: Global,
    cache: &'a [u8],
    name: &[u8],
    meter: &mut Meter,
) -> Result<RuleHits<'a>, CacheFault>
    requires short { length name.now ≤ 4096 }
    ensures promises { IsOfCache cache.entry.now (IsHits cache.entry.now name.now) result }
    ensures cost { Looks (hits_nodes (length name.now) (length cache.entry.now)) (hits_bytes (length name.now) (length cache.entry.now))
        meter.old meter.new }
{
    match open(cache, meter) {
        Ok(opened) => hits_of(alloc, &opened, name, meter),
        Err(fault) => Err(fault),
    }
}

// The same over an opened cache.
fn hits_of<'a>(
    alloc: Global,
    opened: &Cache<'a>,
    name: &[u8],
    meter: &mut Meter,
) -> Result<RuleHits<'a>, CacheFault>
    requires short { length name.now ≤ 4096 }
    ensures promises { IsHits opened.now name.now result }
    ensures cost { Looks (hits_nodes (length name.now) (length opened.now) - 1) (hits_bytes (length name.now) (length opened.now))
        meter.old meter.new }
{
    let mut budget = Budget::of(opened);
    opened.rule_hits(alloc, name, meter, &mut budget)
}
