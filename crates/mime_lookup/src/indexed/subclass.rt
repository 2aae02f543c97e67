//! Whether a type is a subclass of another, over an index ("Subclassing").

ghost use Rattle.std.specs.Prelude.{◌≡◌, ◌↔◌, IfOk, IsTrue};
ghost use Rattle.mime_base.specs.Database.{pairs_of, plain_database};
ghost use Rattle.mime_base.specs.Database.Subclass.{IsA, resolved};
ghost use Rattle.mime_lookup.specs.Places.{ArePlaced, placed};

use crate::ancestry::leads_to;
use crate::climb::{Climbed, climb};
use crate::indexed::IndexedDatabase;
use crate::places::{PlacedPairs, unalias_at};
use mime_base::{Meter, OutOfMemory, TypeName};
use std::alloc::Global;

/// Whether a type is another or a subclass of it, over an index ("Subclassing"), and what was compared.
///
/// Both types are resolved by one alias step first.
pub fn is_a_indexed<'a>(
    alloc: Global,
    index: &IndexedDatabase<'a>,
    kind: &'a TypeName,
    base: &'a TypeName,
) -> Result<(bool, Meter), OutOfMemory>
    // It says whether the one type is the other or a subclass of it, each resolved.
    ensures answer { IfOk result (λ found. IsTrue found.0 ↔ IsA (pairs_of (plain_database index.now))
        (resolved (plain_database index.now).aliases kind.entry.now) (resolved (plain_database index.now).aliases base.entry.now)) }
    // No record of a cache is visited.
    ensures nodes { IfOk result (λ found. found.1.nodes ≡ 0) }
{
    let mut meter = Meter::new();
    let aliases = &index.pairs.aliases;
    let kind = unalias_at(aliases, kind.bytes());
    let base = unalias_at(aliases, base.bytes());
    let found = climbs_to(alloc, &index.pairs, kind, base, &mut meter)?;
    Ok((found, meter))
}

/// Whether a type is the base or a subclass of it.
fn climbs_to<'a>(
    alloc: Global,
    both: &PlacedPairs<'a>,
    kind: &'a [u8],
    base: &[u8],
    meter: &mut Meter,
) -> Result<bool, OutOfMemory>
    requires placed { ArePlaced both.now }
    ensures nodes { meter.new.nodes ≡ meter.old.nodes }
    ensures answer { IfOk result (λ is. IsTrue is ↔ IsA (placed both.now) kind.entry.now base.now) }
{
    match climb(both, kind, base, meter) {
        Climbed::Found(is) => Ok(is),
        Climbed::Open(here) => leads_to(alloc, both, here, base, meter),
    }
}
