//! The types of a name over a cache ("Recommended checking order").

ghost use Rattle.std.specs.Prelude.{◌≡◌, ◌*◌, ◌<◌, ◌≤◌, false, All, length, take, IfErr, IfOk};
ghost use Rattle.mime_base.specs.Database.{PlainDatabase};
ghost use Rattle.mime_lookup.specs.Ancestry.{kinds_of};
ghost use Rattle.mime_lookup.specs.Cached.{AreCacheTexts, IsCacheText, asked_count};
ghost use Rattle.mime_lookup.specs.CheckingOrder.{are_one_type};
ghost use Rattle.mime_lookup.specs.Costs.{ComparesTypes, CostsOwing, glob_cost, record_cost};
ghost use Rattle.mime_lookup.specs.NameTypes.{CostsKinds, GivesKinds, GivesTypes, owed_types};
ghost use Rattle.mime_lookup.specs.Spelling.{SpellsGlobs};
ghost use Rattle.mime_lookup.specs.StepFaults.{IsGlobsFault};

use mime_base::{Meter, same_name};
use mime_view::{
    Cache, CacheFault, NameHits, Spending, Texts, Which, candidates_are_near, kept_are_near,
};
use std::alloc::Global;

/// The types of a name.
pub enum NameTypes<'a> {
    /// All are this one type.
    One(&'a [u8]),
    /// There is none, or they differ. Where no magic holds, that many of the first are asked: those that are kept, or one
    /// where these are one type.
    Others(Texts<'a>, usize),
}

/// The types of a name that are kept, or of all rules that match it, as one where all are one type.
// Always inlined, so that the types are not moved.
#[inline(always)]
pub fn types_of<'a>(
    alloc: Global,
    cache: &Cache<'a>,
    name: &[u8],
    which: Which,
    spending: &mut Spending,
) -> Result<NameTypes<'a>, CacheFault>
    // A lookup refuses longer names.
    requires short { length name.now ≤ 4096 }
    // Where the glob rules stand, these are the types of the name, and no more is taken than the rules have.
    ensures gives { (b : PlainDatabase) → SpellsGlobs cache.now b →
        GivesTypes which b name.now spending.old spending.new result }
    // They are texts of the cache.
    ensures text { IfOk result (AreCacheTexts cache.now) }
    // The lists of rules, the tree of suffixes or an alias step shows the fault.
    ensures fault { IfErr result (IsGlobsFault cache.now name.now spending.new.budget) }
    // Whatever the bytes are, it costs a search, and leaves enough to try each type.
    ensures cost { CostsOwing (owed_types result) (record_cost (length name.now)) 0 (glob_cost (length name.now))
        spending.old spending.new }
{
    let hits = resolved_hits(alloc, cache, name, which, spending)?;
    let types = hits.kinds.as_slice();
    if are_one_type(types, &mut spending.meter) {
        return Ok(NameTypes::One(types[0]));
    }
    let asked = count_asked(types, hits.kept, &mut spending.meter);
    Ok(NameTypes::Others(hits.kinds, asked))
}

/// The types of the rules that are asked for, each after one alias step, and how many of these are kept.
// Always inlined, as its caller is.
#[inline(always)]
fn resolved_hits<'a>(
    alloc: Global,
    cache: &Cache<'a>,
    name: &[u8],
    which: Which,
    spending: &mut Spending,
) -> Result<NameHits<'a>, CacheFault>
    requires short { length name.now ≤ 4096 }
    ensures gives { (b : PlainDatabase) → SpellsGlobs cache.now b →
        GivesKinds which b name.now spending.old spending.new result }
    ensures text { IfOk result (λ hits. All (IsCacheText cache.now) hits.kinds) }
    ensures front { IfOk result (λ hits. hits.kept ≤ length hits.kinds) }
    ensures fault { IfErr result (IsGlobsFault cache.now name.now spending.new.budget) }
    ensures cost { CostsKinds (length name.now) spending.old spending.new result }
{
    let hits = cache.glob_hits(
        alloc,
        name,
        which,
        &mut spending.meter,
        &mut spending.budget,
    )?;
    let NameHits { mut kinds, kept } = hits;
    for place in 0..kinds.as_slice().len() {
        let kind = cache.unalias(
            kinds.as_slice()[place],
            &mut spending.meter,
            &mut spending.budget,
        )?;
        kinds.replace(place, kind);
    }
    kept_are_near();
    candidates_are_near();
    Ok(NameHits { kinds, kept })
}

/// How many of the first types are asked where no magic holds: those that are kept, or one where these are one type.
pub fn count_asked(types: &[&[u8]], kept: usize, meter: &mut Meter) -> usize
    // The kept types come first.
    requires front { kept ≤ length types.now }
    // They are not all one type.
    requires conflict { are_one_type (kinds_of types.now) ≡ false }
    // It is how many of the kept types are asked.
    ensures count { result ≡ asked_count (take kept (kinds_of types.now)) }
    // There are as many types.
    ensures within { result ≤ length types.now }
    // It compares at most 256 bytes of each type, and visits no record.
    ensures compares { ComparesTypes types.now meter.old meter.new }
{
    if kept == types.len() {
        return kept;
    }
    if are_one_type(&types[..kept], meter) {
        return 1;
    }
    kept
}

/// Whether there are types, and all are one type.
pub fn are_one_type(kinds: &[&[u8]], meter: &mut Meter) -> bool
    // It is so by the definition.
    ensures answer { result ≡ are_one_type (kinds_of kinds.now) }
    // It compares at most 256 bytes of each type, and visits no record.
    ensures compares { ComparesTypes kinds.now meter.old meter.new }
{
    let Some((first, more)) = kinds.split_first() else {
        return false;
    };
    for kind in more {
        if !same_name(*first, *kind, meter) {
            return false;
        }
    }
    true
}
