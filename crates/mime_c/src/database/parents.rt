//! The parents of a type, by a database that is open.

ghost use Rattle.std.specs.Prelude.{◌≡◌};
ghost use Rattle.mime_c.specs.Handle.{IsByHandle, StaysOpen};
ghost use Rattle.mime_c.specs.Parents.{IsAskedParents};

use crate::database::handle::Handle;
use crate::database::kept::HandleReport;
use crate::database::open_database::OpenDatabase;
use crate::look_up::Text;
use crate::parents::{parents_of, tell};
use crate::report::Report;
use mime_base::Meter;
use std::alloc::Global;

/// What `mimelook_parents` gives, over what is open.
#[unsafe(no_mangle)]
pub extern "C" fn mimelook_database_parents(
    alloc: Global,
    database: Handle,
    kind: &[u8],
    parents: &mut [Text<'static>],
    count: &mut usize,
) -> HandleReport
    // They are what is given over the bytes; where nothing is open, the array and the count stay.
    ensures promises { IsByHandle database.opened (λ cache told. IsAskedParents cache kind.now
        (record { texts = parents.old; count = count.old }) (record { texts = parents.new; count = count.new }) told)
        ((parents.new ≡ parents.old) × (count.new ≡ count.old)) result.report }
    // What is open stays so, where it lies.
    ensures stays { StaysOpen database.address database.opened result.kept }
{
    match database.into_value() {
        Some(mut opened) => {
            let report = ask(alloc, opened.as_mut(), kind, parents, count);
            HandleReport::of(report, opened)
        }
        None => HandleReport::not_open(alloc),
    }
}

// The same of what is open.
fn ask(
    alloc: Global,
    opened: &OpenDatabase,
    kind: &[u8],
    parents: &mut [Text<'static>],
    count: &mut usize,
) -> Report
    ensures { IsAskedParents opened.now.cache kind.now (record { texts = parents.old; count = count.old })
        (record { texts = parents.new; count = count.new }) result }
{
    let mut meter = Meter::new();
    let found = parents_of(alloc, opened.cache(), kind, &mut meter);
    tell(found, meter, parents, count)
}
