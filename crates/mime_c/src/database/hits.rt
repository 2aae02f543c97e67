//! The rules that match a name, by a database that is open.

ghost use Rattle.std.specs.Prelude.{◌≡◌, ◌-◌, ◌≤◌, length};
ghost use Rattle.mime_c.specs.Handle.{IsByHandle, StaysOpen};
ghost use Rattle.mime_c.specs.Hits.{IsAskedHits, IsHits, hits_bytes, hits_nodes};
ghost use Rattle.mime_c.specs.Reader.{IsOfCache};
ghost use Rattle.mime_view.specs.Spending.{Looks};

use crate::database::handle::Handle;
use crate::database::kept::HandleReport;
use crate::database::open_database::OpenDatabase;
use crate::hits::{Hit, tell};
use crate::report::{Report, status_report};
use crate::status::NAME_TOO_LONG;
use mime_base::Meter;
use mime_lookup::{LONGEST_NAME, hits_again};
use mime_view::{CacheFault, RuleHits};
use std::alloc::Global;

/// What `mimelook_hits` gives, over what is open.
#[unsafe(no_mangle)]
pub extern "C" fn mimelook_database_hits(
    alloc: Global,
    database: Handle,
    name: &[u8],
    hits: &mut [Hit<'static>],
    count: &mut usize,
) -> HandleReport
    // They are what is given over the bytes; where nothing is open, the array and the count stay.
    ensures promises { IsByHandle database.opened (λ cache told. IsAskedHits cache name.now (record { hits = hits.old; count = count.old })
        (record { hits = hits.new; count = count.new }) told) ((hits.new ≡ hits.old) × (count.new ≡ count.old)) result.report }
    // What is open stays so, where it lies.
    ensures stays { StaysOpen database.address database.opened result.kept }
{
    match database.into_value() {
        Some(mut opened) => {
            let report = ask(alloc, opened.as_mut(), name, hits, count);
            HandleReport::of(report, opened)
        }
        None => HandleReport::not_open(alloc),
    }
}

// The same of what is open.
fn ask(
    alloc: Global,
    opened: &mut OpenDatabase,
    name: &[u8],
    hits: &mut [Hit<'static>],
    count: &mut usize,
) -> Report
    ensures same { opened.new ≡ opened.old }
    ensures promises { IsAskedHits opened.old.cache name.now (record { hits = hits.old; count = count.old })
        (record { hits = hits.new; count = count.new }) result }
{
    if name.len() > LONGEST_NAME {
        return status_report(NAME_TOO_LONG, 0, Meter::new());
    }
    let mut meter = Meter::new();
    let found = search(alloc, opened, name, &mut meter);
    tell(found, meter, hits, count)
}

// The rules of a name that is not too long.
fn search(
    alloc: Global,
    opened: &mut OpenDatabase,
    name: &[u8],
    meter: &mut Meter,
) -> Result<RuleHits<'static>, CacheFault>
    requires short { length name.now ≤ 4096 }
    ensures same { opened.new ≡ opened.old }
    ensures promises { IsOfCache opened.old.cache (IsHits opened.old.cache name.now) result }
    ensures cost { Looks (hits_nodes (length name.now) (length opened.old.cache) - 1) (hits_bytes (length name.now)
        (length opened.old.cache))
        meter.old meter.new }
{
    opened.read_paid(alloc);
    let indexed = opened.indexed();
    let mut budget = indexed.budget();
    let found = hits_again(alloc, indexed, name, meter, &mut budget);
    pay(opened, &found, *meter);
    found
}

// Counts what an answer visited.
fn pay(opened: &mut OpenDatabase, found: &Result<RuleHits<'static>, CacheFault>, meter: Meter)
    ensures same { opened.new ≡ opened.old }
{
    if found.is_ok() {
        opened.pay(meter.nodes, false);
    }
}
