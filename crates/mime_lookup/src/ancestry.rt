//! The search for a subclass over lists of pairs ("Subclassing").
//!
//! It goes breadth first over a queue, and marks each type that it expands. The marks serve all
//! candidates of a lookup: after a search that found nothing, no marked type leads to the base, so
//! no type is expanded twice. The places of all pairs are found once, so a search goes through the
//! pairs of the types that it meets, and no others.

ghost use Rattle.std.specs.Prelude.{◌≡◌, ◌↔◌, ◌+◌, ◌≤◌, false, length, IfOk, IsTrue, OnOk};
ghost use Rattle.mime_base.specs.Database.{pairs_of, plain_database};
ghost use Rattle.mime_base.specs.Database.Subclass.{IsA};
ghost use Rattle.mime_lookup.specs.Ancestry.{AnswersSearch, Expanded, is_among, kinds_of, unmarked};
ghost use Rattle.mime_lookup.specs.Choice.{IsFirst};
ghost use Rattle.mime_lookup.specs.IndexBytes.{search_bytes};
ghost use Rattle.mime_lookup.specs.Places.{ArePlaced, placed};

use crate::places::{PlacedPairs, placed_pairs, push_parents};
use crate::queue::Queue;
use crate::subclass::is_by_itself;
use indexmap::IndexSet;
use mime_base::{Database, Meter, OutOfMemory};
use std::alloc::Global;

/// The first of the types that is the base or a subclass of it, else the default.
pub fn first_of<'a>(
    alloc: Global,
    database: &'a Database,
    kinds: &[&'a [u8]],
    default: &'a [u8],
    base: &[u8],
    meter: &mut Meter,
) -> Result<&'a [u8], OutOfMemory>
    // No record of a cache is visited.
    ensures nodes { meter.new.nodes ≡ meter.old.nodes }
    // Each type that is met is compared with the base once, and no more bytes are.
    ensures bytes { meter.new.bytes ≤ meter.old.bytes
        + search_bytes (length kinds.now) (length (plain_database database.entry.now).parents) (length base.now) }
    // It is the first of the types that is the base or a subclass of it, else the default.
    ensures first { IfOk result (λ kind. IsFirst (pairs_of (plain_database database.entry.now))
        base.now default.entry.now (kinds_of kinds.now) kind.now) }
{
    let both = placed_pairs(alloc, database)?;
    let kind = first_at(alloc, &both, kinds, default, base, meter)?;
    Ok(kind)
}

/// The same over pairs whose places are known.
pub fn first_at<'a>(
    alloc: Global,
    both: &PlacedPairs<'a>,
    kinds: &[&'a [u8]],
    default: &'a [u8],
    base: &[u8],
    meter: &mut Meter,
) -> Result<&'a [u8], OutOfMemory>
    // The places are those of all pairs.
    requires placed { ArePlaced both.now }
    // No record of a cache is visited.
    ensures nodes { meter.new.nodes ≡ meter.old.nodes }
    // Each type that is met is compared with the base once, and no more bytes are.
    ensures bytes { meter.new.bytes ≤ meter.old.bytes
        + search_bytes (length kinds.now) (length (placed both.now).parents) (length base.now) }
    // It is the first of the types that is the base or a subclass of it, else the default.
    ensures first { IfOk result (λ kind. IsFirst (placed both.now)
        base.now default.entry.now (kinds_of kinds.now) kind.now) }
{
    let mut marks = IndexSet::new(alloc);
    for kind in kinds {
        if is_a(alloc, both, &mut marks, *kind, base, meter)? {
            return Ok(*kind);
        }
    }
    Ok(default)
}

/// Whether a type is the base or a subclass of it.
pub fn leads_to<'a>(
    alloc: Global,
    both: &PlacedPairs<'a>,
    kind: &'a [u8],
    base: &[u8],
    meter: &mut Meter,
) -> Result<bool, OutOfMemory>
    // The places are of all pairs.
    requires placed { ArePlaced both.now }
    // No record of a cache is visited.
    ensures nodes { meter.new.nodes ≡ meter.old.nodes }
    // Each type that is met is compared with the base once, and no more bytes are.
    ensures bytes { meter.new.bytes ≤ meter.old.bytes + search_bytes 1 (length (placed both.now).parents) (length base.now) }
    // It says so.
    ensures answer { IfOk result (λ is. IsTrue is ↔ IsA (placed both.now) kind.entry.now base.now) }
{
    let mut marks = IndexSet::new(alloc);
    let is = is_a(alloc, both, &mut marks, kind, base, meter)?;
    Ok(is)
}

/// Whether a type is the base or a subclass of it, unless a marked type is.
fn is_a<'a>(
    alloc: Global,
    both: &PlacedPairs<'a>,
    marks: &mut IndexSet<&'a [u8]>,
    kind: &'a [u8],
    base: &[u8],
    meter: &mut Meter,
) -> Result<bool, OutOfMemory>
    requires placed { ArePlaced both.now }
    ensures nodes { meter.new.nodes ≡ meter.old.nodes }
    ensures bytes { meter.new.bytes ≤ meter.old.bytes
        + search_bytes 1 (unmarked (placed both.now).parents (is_among marks.old.keys)) (length base.now) }
    ensures left { OnOk result (meter.new.bytes
        + search_bytes 0 (unmarked (placed both.now).parents (is_among marks.new.keys)) (length base.now) ≤ meter.old.bytes
        + search_bytes 1 (unmarked (placed both.now).parents (is_among marks.old.keys)) (length base.now)) }
    ensures answer { AnswersSearch (placed both.now) kind.entry.now base.now
        (is_among marks.old.keys) (is_among marks.new.keys) result }
{
    let mut queue = Queue::new(alloc);
    queue.push_back(kind)?;
    while let Some(here) = queue.pop_front() {
        if is_by_itself(here, base, meter) {
            return Ok(true);
        }
        expand(both, marks, here, &mut queue)?;
    }
    Ok(false)
}

/// Puts what is above a type at the end of the queue and marks it, unless it is marked.
fn expand<'a>(
    both: &PlacedPairs<'a>,
    marks: &mut IndexSet<&'a [u8]>,
    kind: &'a [u8],
    queue: &mut Queue<'a>,
) -> Result<(), OutOfMemory>
    requires placed { ArePlaced both.now }
    ensures expanded { OnOk result (Expanded (placed both.now) kind.entry.now (is_among marks.old.keys)
        (is_among marks.new.keys) queue.old queue.new) }
    ensures falls { OnOk result (length queue.new + unmarked (placed both.now).parents (is_among marks.new.keys)
        ≡ length queue.old + unmarked (placed both.now).parents (is_among marks.old.keys)) }
{
    if is_marked(marks, kind) {
        return Ok(());
    }
    push_parents(both, kind, queue)?;
    marks.insert(kind)?;
    Ok(())
}

/// Whether a type is marked.
fn is_marked(marks: &IndexSet<&[u8]>, kind: &[u8]) -> bool
    ensures { result ≡ is_among marks.now.keys kind.now }
{
    marks.contains(kind)
}
