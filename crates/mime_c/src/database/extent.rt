//! How much of a content a database that is open can look at.

ghost use Rattle.std.specs.Prelude.{◌≡◌};
ghost use Rattle.mime_c.specs.Extent.{IsAskedExtent};
ghost use Rattle.mime_c.specs.Handle.{IsByHandle, StaysOpen};

use crate::database::handle::Handle;
use crate::database::kept::HandleReport;
use crate::database::open_database::OpenDatabase;
use crate::extent::{extent_of, tell};
use crate::report::Report;
use mime_base::Meter;
use std::alloc::Global;

/// What `mimelook_extent` gives, over what is open.
#[unsafe(no_mangle)]
pub extern "C" fn mimelook_database_extent(
    alloc: Global,
    database: Handle,
    extent: &mut u64,
) -> HandleReport
    // It is what is given over the bytes; where nothing is open, the number stays.
    ensures promises { IsByHandle database.opened (λ cache told. IsAskedExtent cache extent.old extent.new told)
        (extent.new ≡ extent.old) result.report }
    // What is open stays so, where it lies.
    ensures stays { StaysOpen database.address database.opened result.kept }
{
    match database.into_value() {
        Some(mut opened) => {
            let report = ask(opened.as_mut(), extent);
            HandleReport::of(report, opened)
        }
        None => HandleReport::not_open(alloc),
    }
}

// The same of what is open.
fn ask(opened: &OpenDatabase, extent: &mut u64) -> Report
    ensures { IsAskedExtent opened.now.cache extent.old extent.new result }
{
    let mut meter = Meter::new();
    let found = extent_of(opened.cache(), &mut meter);
    tell(found, meter, extent)
}
