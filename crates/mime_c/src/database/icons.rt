//! The icons of a type, by a database that is open.

ghost use Rattle.std.specs.Prelude.{◌≡◌};
ghost use Rattle.mime_c.specs.Handle.{IsByHandle, StaysOpen};
ghost use Rattle.mime_c.specs.Icons.{IsAskedIcons, IsFoundIcons, IsIcons};

use crate::database::handle::Handle;
use crate::database::kept::HandleReport;
use crate::database::open_database::OpenDatabase;
use crate::icons::{IconLengths, put_icons};
use crate::report::{Report, status_report, stop_report};
use crate::status::NOT_A_TYPE;
use mime_base::{Meter, is_type_name};
use mime_lookup::{Icons, Stopped, icon_again};
use std::alloc::Global;

/// What `mimelook_icons` gives, over what is open.
#[unsafe(no_mangle)]
pub extern "C" fn mimelook_database_icons(
    alloc: Global,
    database: Handle,
    kind: &[u8],
    icon: &mut [u8],
    generic: &mut [u8],
    lengths: &mut IconLengths,
) -> HandleReport
    // They are what is given over the bytes; where nothing is open, the buffers and their lengths stay.
    ensures promises { IsByHandle database.opened (λ cache told. IsAskedIcons cache kind.now
        (record { icon = icon.old; generic = generic.old; lengths = lengths.old })
        (record { icon = icon.new; generic = generic.new; lengths = lengths.new }) told)
        ((icon.new ≡ icon.old) × (generic.new ≡ generic.old) × (lengths.new ≡ lengths.old)) result.report }
    // What is open stays so, where it lies.
    ensures stays { StaysOpen database.address database.opened result.kept }
{
    match database.into_value() {
        Some(mut opened) => {
            let report = ask(alloc, opened.as_mut(), kind, icon, generic, lengths);
            HandleReport::of(report, opened)
        }
        None => HandleReport::not_open(alloc),
    }
}

// The same of what is open.
fn ask(
    alloc: Global,
    opened: &mut OpenDatabase,
    kind: &[u8],
    icon: &mut [u8],
    generic: &mut [u8],
    lengths: &mut IconLengths,
) -> Report
    ensures same { opened.new ≡ opened.old }
    ensures promises { IsAskedIcons opened.old.cache kind.now
        (record { icon = icon.old; generic = generic.old; lengths = lengths.old })
        (record { icon = icon.new; generic = generic.new; lengths = lengths.new }) result }
{
    if is_type_name(kind) {
        find(alloc, opened, kind, icon, generic, lengths)
    } else {
        status_report(NOT_A_TYPE, 0, Meter::new())
    }
}

// The same of a type name.
fn find(
    alloc: Global,
    opened: &mut OpenDatabase,
    kind: &[u8],
    icon: &mut [u8],
    generic: &mut [u8],
    lengths: &mut IconLengths,
) -> Report
    ensures same { opened.new ≡ opened.old }
    ensures promises { IsFoundIcons opened.old.cache kind.now
        (record { icon = icon.old; generic = generic.old; lengths = lengths.old })
        (record { icon = icon.new; generic = generic.new; lengths = lengths.new }) result }
{
    match search(alloc, opened, kind) {
        Ok(icons) => put_icons(&icons, icon, generic, lengths),
        Err(stopped) => stop_report(stopped),
    }
}

// The icons of a type name.
fn search(alloc: Global, opened: &mut OpenDatabase, kind: &[u8]) -> Result<Icons, Stopped>
    ensures same { opened.new ≡ opened.old }
    ensures promises { IsIcons opened.old.cache kind.now result }
{
    opened.read_paid(alloc);
    let found = icon_again(alloc, opened.indexed(), kind);
    pay(opened, &found);
    found
}

// Counts what an answer visited.
fn pay(opened: &mut OpenDatabase, found: &Result<Icons, Stopped>)
    ensures same { opened.new ≡ opened.old }
{
    if let Ok(icons) = found {
        opened.pay_icons(icons.meter.nodes);
    }
}
