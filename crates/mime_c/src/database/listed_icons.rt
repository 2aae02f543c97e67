//! The icons that a database that is open lists for a type.

ghost use Rattle.std.specs.Prelude.{◌≡◌};
ghost use Rattle.mime_c.specs.Handle.{IsByHandle, StaysOpen};
ghost use Rattle.mime_c.specs.ListedIcons.{IsAskedListedIcons};

use crate::database::handle::Handle;
use crate::database::kept::HandleReport;
use crate::database::open_database::OpenDatabase;
use crate::listed_icons::{listed_names, tell};
use crate::look_up::Text;
use crate::report::Report;
use mime_base::Meter;
use std::alloc::Global;

/// What `mimelook_listed_icons` gives, over what is open.
#[unsafe(no_mangle)]
pub extern "C" fn mimelook_database_listed_icons(
    alloc: Global,
    database: Handle,
    kind: &[u8],
    icon: &mut Text<'static>,
    generic: &mut Text<'static>,
) -> HandleReport
    // They are what is given over the bytes; where nothing is open, both texts stay.
    ensures promises { IsByHandle database.opened (λ cache told. IsAskedListedIcons cache kind.now
        (icon.old, generic.old) (icon.new, generic.new) told) ((icon.new ≡ icon.old) × (generic.new ≡ generic.old)) result.report }
    // What is open stays so, where it lies.
    ensures stays { StaysOpen database.address database.opened result.kept }
{
    match database.into_value() {
        Some(mut opened) => {
            let report = ask(opened.as_mut(), kind, icon, generic);
            HandleReport::of(report, opened)
        }
        None => HandleReport::not_open(alloc),
    }
}

// The same of what is open.
fn ask(
    opened: &OpenDatabase,
    kind: &[u8],
    icon: &mut Text<'static>,
    generic: &mut Text<'static>,
) -> Report
    ensures { IsAskedListedIcons opened.now.cache kind.now (icon.old, generic.old) (icon.new, generic.new) result }
{
    let mut meter = Meter::new();
    let found = listed_names(opened.cache(), kind, &mut meter);
    tell(found, meter, icon, generic)
}
