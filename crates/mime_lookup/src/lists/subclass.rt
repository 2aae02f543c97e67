//! Whether a type is a subclass of another, for one question over a database ("Subclassing").

ghost use Rattle.std.specs.Prelude.{◌≡◌, ◌↔◌, IfOk, IsTrue};
ghost use Rattle.mime_base.specs.Database.{pairs_of, plain_database};
ghost use Rattle.mime_base.specs.Database.Subclass as above;
ghost use Rattle.mime_base.specs.Database.Subclass.{IsA, resolved};
ghost use Rattle.mime_lookup.specs.Places.{IsAbove, pairs_at};

use crate::ancestry::leads_to;
use crate::climb::{Climbed, Hierarchy, climb};
use crate::pairs::{is_same, unalias};
use crate::places::{Above, placed_pairs};
use mime_base::{Database, Meter, OutOfMemory, Pair, TypeName};
use std::alloc::Global;

/// Whether a type is another or a subclass of it, over a database ("Subclassing"), and what was compared.
///
/// Both types are resolved by one alias step first. While each type has one parent, that is looked for among all pairs, at most 16
/// times; then the search goes on by the places of all pairs, for which alone memory is taken. So it is the way for one question, and
/// [`crate::is_a_indexed`] the one for many. The meter counts what is compared with the base.
pub fn is_a_plain<'a>(
    alloc: Global,
    database: &'a Database,
    kind: &'a TypeName,
    base: &'a TypeName,
) -> Result<(bool, Meter), OutOfMemory>
    // It says whether the one type is the other or a subclass of it, each resolved.
    ensures answer { IfOk result (λ found. IsTrue found.0 ↔ IsA (pairs_of (plain_database database.entry.now))
        (resolved (plain_database database.entry.now).aliases kind.entry.now)
        (resolved (plain_database database.entry.now).aliases base.entry.now)) }
    // No record of a cache is visited.
    ensures nodes { IfOk result (λ found. found.1.nodes ≡ 0) }
{
    let mut meter = Meter::new();
    let kind = unalias(&database.aliases, kind.bytes());
    let base = unalias(&database.aliases, base.bytes());
    let found = climbs_to(alloc, database, kind, base, &mut meter)?;
    Ok((found, meter))
}

/// Whether a type is the base or a subclass of it.
fn climbs_to<'a>(
    alloc: Global,
    database: &'a Database,
    kind: &'a [u8],
    base: &[u8],
    meter: &mut Meter,
) -> Result<bool, OutOfMemory>
    ensures nodes { meter.new.nodes ≡ meter.old.nodes }
    ensures answer { IfOk result (λ is. IsTrue is ↔ IsA (pairs_of (plain_database database.entry.now)) kind.entry.now base.now) }
{
    match climb(&database, kind, base, meter) {
        Climbed::Found(is) => Ok(is),
        Climbed::Open(here) => search(alloc, database, here, base, meter),
    }
}

/// The same by the places of all pairs, and marks of the types that were met.
fn search<'a>(
    alloc: Global,
    database: &'a Database,
    kind: &'a [u8],
    base: &[u8],
    meter: &mut Meter,
) -> Result<bool, OutOfMemory>
    ensures nodes { meter.new.nodes ≡ meter.old.nodes }
    ensures answer { IfOk result (λ is. IsTrue is ↔ IsA (pairs_of (plain_database database.entry.now)) kind.entry.now base.now) }
{
    let both = placed_pairs(alloc, database)?;
    let is = leads_to(alloc, &both, kind, base, meter)?;
    Ok(is)
}

impl<'a> Hierarchy<'a> for &'a Database {
    ghost use Rattle.std.specs.Prelude.{◌≡◌};
    ghost use Rattle.mime_base.specs.Database.{pairs_of, plain_database};

    ghost holds = { λ _. Unit {0} };

    ghost is_of = { λ database pairs. pairs ≡ pairs_of (plain_database database.now) };

    fn above(&self, kind: &[u8]) -> Above<'a> {
        let database: &'a Database = self;
        above_among(&database.aliases, &database.parents, kind)
    }
}

/// What is one step above a type, by these pairs.
fn above_among<'a>(aliases: &'a [Pair], parents: &'a [Pair], kind: &[u8]) -> Above<'a>
    ensures { IsAbove (above.above (pairs_at aliases.entry.now parents.entry.now) kind.now) result }
{
    let mut found = None;
    for pair in parents {
        if is_same(pair.name.bytes(), kind) {
            if found.is_some() {
                return Above::Several;
            }
            found = Some(pair.target.bytes());
        }
    }
    match found {
        Some(parent) => Above::One(unalias(aliases, parent)),
        None => Above::Nothing,
    }
}
