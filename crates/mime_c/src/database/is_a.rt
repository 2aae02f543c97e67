//! Whether a type is a subclass of another, by a database that is open.

ghost use Rattle.std.specs.Prelude.{◌≡◌, ◌≢◌, IfErr, true};
ghost use Rattle.mime_base.specs.Names.{is_type_name};
ghost use Rattle.mime_c.specs.Handle.{IsByHandle, StaysOpen};
ghost use Rattle.mime_c.specs.IsA.{IsAsked, IsSubclassSearch};

use crate::database::handle::Handle;
use crate::database::kept::HandleReport;
use crate::database::open_database::OpenDatabase;
use crate::is_a::tell;
use crate::report::{Report, status_report};
use crate::status::NOT_A_TYPE;
use mime_base::{Meter, is_type_name};
use mime_lookup::{Cause, Stopped, is_a_again};
use std::alloc::Global;

/// What `mimelook_is_a` gives, over what is open.
#[unsafe(no_mangle)]
pub extern "C" fn mimelook_database_is_a(
    alloc: Global,
    database: Handle,
    kind: &[u8],
    base: &[u8],
    is: &mut bool,
) -> HandleReport
    // It is what is given over the bytes; where nothing is open, the flag stays.
    ensures promises { IsByHandle database.opened (λ cache told. IsAsked cache kind.now base.now is.old is.new told)
        (is.new ≡ is.old) result.report }
    // What is open stays so, where it lies.
    ensures stays { StaysOpen database.address database.opened result.kept }
{
    match database.into_value() {
        Some(mut opened) => {
            let report = ask(alloc, opened.as_mut(), kind, base, is);
            HandleReport::of(report, opened)
        }
        None => HandleReport::not_open(alloc),
    }
}

// The same of what is open.
fn ask(alloc: Global, opened: &mut OpenDatabase, kind: &[u8], base: &[u8], is: &mut bool) -> Report
    ensures same { opened.new ≡ opened.old }
    ensures promises { IsAsked opened.old.cache kind.now base.now is.old is.new result }
{
    if is_type_name(kind) && is_type_name(base) {
        let found = search(alloc, opened, kind, base);
        tell(found, is)
    } else {
        status_report(NOT_A_TYPE, 0, Meter::new())
    }
}

// The answer for type names.
fn search(
    alloc: Global,
    opened: &mut OpenDatabase,
    kind: &[u8],
    base: &[u8],
) -> Result<(bool, Meter), Stopped>
    requires base { is_type_name base.now ≡ true }
    ensures same { opened.new ≡ opened.old }
    ensures promises { IsSubclassSearch opened.old.cache kind.now base.now result }
    ensures readable { IfErr result (λ stopped. stopped.cause ≢ Cause.Read) }
{
    opened.read_paid(alloc);
    let found = is_a_again(alloc, opened.indexed(), kind, base);
    pay(opened, &found);
    found
}

// Counts what an answer visited.
fn pay(opened: &mut OpenDatabase, found: &Result<(bool, Meter), Stopped>)
    ensures same { opened.new ≡ opened.old }
{
    if let Ok((_, meter)) = found {
        opened.pay_types(meter.nodes);
    }
}
