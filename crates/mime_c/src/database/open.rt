//! A database is opened.

ghost use Rattle.std.specs.Prelude.{◌≡◌, ◌+◌, ◌≤◌, MatchResult, None};
ghost use denote.RawPtr.{null_ptr};
ghost use Rattle.mime_c.specs.Open.{IsOpened, IsUnopened};
ghost use Rattle.mime_view.specs.Opening.{Opens};

use crate::database::heap_value::HeapValue;
use crate::database::kept::{HandleReport, Kept};
use crate::database::open_database::OpenDatabase;
use crate::report::{answered, fault_report};
use mime_base::Meter;
use mime_view::CacheFault;
use std::alloc::Global;
use std::marker::Send;
use std::ptr::null_mut;

/// Opens a cache, for many questions. Its memory stays the caller's.
///
/// The status says whether the bytes open as a cache, as `mimelook_check` does, or that memory was refused.
#[unsafe(no_mangle)]
pub extern "C" fn mimelook_open(
    alloc: Global,
    cache: &'static [u8],
    database: &mut *mut u8,
) -> HandleReport
    // The bytes are open, or the status says why nothing is.
    ensures opened { IsOpened cache.now result.kept.opened result.report }
    // C gets the address of what is open.
    ensures address { database.new ≡ result.kept.address }
    // It is NULL where nothing is.
    ensures null { result.kept.opened ≡ None → database.new ≡ null_ptr }
    // At most the header is visited.
    ensures nodes { result.report.nodes ≤ 1 }
    // Nothing is compared.
    ensures bytes { result.report.bytes ≡ 0 }
{
    let mut meter = Meter::new();
    match open(alloc, cache, &[], &mut meter) {
        Ok(opened) => {
            let (address, kept) = Kept::of(opened);
            *database = address;
            HandleReport {
                report: answered(0, meter),
                kept,
            }
        }
        Err(fault) => {
            *database = null_mut();
            HandleReport {
                report: fault_report(fault, 0, meter),
                kept: Kept::nothing(alloc),
            }
        }
    }
}

/// What is open, on the heap, with the memory that closing gives back.
pub(super) fn open(
    alloc: Global,
    cache: &'static [u8],
    memory: &'static [u8],
    meter: &mut Meter,
) -> Result<HeapValue<OpenDatabase, Global>, CacheFault>
    // The cache is open with this memory; else its header is at fault, or memory was refused.
    ensures opened { MatchResult result
        (λ opened. (opened.value ≡ record { cache = cache.entry.now; memory = memory.entry.now }) × Opens cache.entry.now)
        (IsUnopened cache.entry.now) }
    // At most the header is visited.
    ensures nodes { meter.new.nodes ≤ meter.old.nodes + 1 }
    // Nothing is compared.
    ensures bytes { meter.new.bytes ≡ meter.old.bytes }
{
    let opened = OpenDatabase::new(cache, memory, meter)?;
    match Box::new(alloc, opened) {
        Ok(opened) => Ok(to_any_thread(HeapValue::of(opened))),
        Err(_) => Err(CacheFault::OutOfMemory),
    }
}

// What C may pass to another thread between two calls.
fn to_any_thread<T: Send>(value: T) -> T
    ensures { result ≡ value }
{
    value
}
