//! What a content is sniffed as, by a database that is open.

ghost use Rattle.std.specs.Prelude.{◌≡◌};
ghost use Rattle.mime_base.specs.declared.magic.host.Host.TheVariants.{Little};
ghost use Rattle.mime_c.specs.Handle.{IsByHandle, StaysOpen};
ghost use Rattle.mime_c.specs.Sniff.{IsAskedSniff};
ghost use Rattle.mime_lookup.specs.ContentAlone.{IsSniffing};

use crate::database::handle::Handle;
use crate::database::kept::HandleReport;
use crate::database::open_database::OpenDatabase;
use crate::report::Report;
use crate::sniff::{Sniffed, tell};
use mime_base::Host;
use mime_lookup::{SniffedContent, Stopped, sniff_again};
use std::alloc::Global;

/// What `mimelook_sniff` gives, over what is open.
#[unsafe(no_mangle)]
pub extern "C" fn mimelook_database_sniff(
    alloc: Global,
    database: Handle,
    content: &[u8],
    sniffed: &mut Sniffed<'static>,
) -> HandleReport
    // It is what is given over the bytes; where nothing is open, the struct stays.
    ensures promises { IsByHandle database.opened (λ cache told. IsAskedSniff cache content.now sniffed.old sniffed.new told)
        (sniffed.new ≡ sniffed.old) result.report }
    // What is open stays so, where it lies.
    ensures stays { StaysOpen database.address database.opened result.kept }
{
    match database.into_value() {
        Some(mut opened) => {
            let report = ask(alloc, opened.as_mut(), content, sniffed);
            HandleReport::of(report, opened)
        }
        None => HandleReport::not_open(alloc),
    }
}

// The same of what is open.
fn ask(
    alloc: Global,
    opened: &mut OpenDatabase,
    content: &[u8],
    sniffed: &mut Sniffed<'static>,
) -> Report
    ensures same { opened.new ≡ opened.old }
    ensures promises { IsAskedSniff opened.old.cache content.now sniffed.old sniffed.new result }
{
    let found = sniff(alloc, opened, content);
    tell(found, sniffed)
}

// The answer itself.
fn sniff(
    alloc: Global,
    opened: &mut OpenDatabase,
    content: &[u8],
) -> Result<SniffedContent<'static>, Stopped>
    ensures same { opened.new ≡ opened.old }
    ensures promises { IsSniffing opened.old.cache content.now Little result }
{
    opened.read_paid(alloc);
    let found = sniff_again(opened.indexed(), content, Host::Little);
    pay(opened, &found);
    found
}

// Counts what an answer visited.
fn pay(opened: &mut OpenDatabase, found: &Result<SniffedContent<'static>, Stopped>)
    ensures same { opened.new ≡ opened.old }
{
    if let Ok(found) = found {
        opened.pay_sniffed(found.meter.nodes);
    }
}
