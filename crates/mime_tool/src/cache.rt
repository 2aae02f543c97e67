//! What is said of a CACHE that gives no answer. This project's own.

ghost use Rattle.std.specs.Prelude.{◌≡◌, ◌≢◌, IfOk, string_bytes};
ghost use Rattle.mime_tool.specs.Cache.{IsCacheFaultStop, cache_fault_name};
ghost use Rattle.mime_tool.specs.Run.{refusal};
ghost use Rattle.mime_tool.specs.Stop.{IsRefusal};

use crate::stop::Stop;
use mime_lookup::Cause;
use mime_view::CacheFault;
use std::alloc::{AllocError, Global};

/// The stop of a fault of the cache at this path.
pub(crate) fn faulty(alloc: Global, path: &str, fault: CacheFault) -> Stop
    // The stop has the message on this fault, or says that memory ran out.
    ensures { IsCacheFaultStop path.now fault result }
{
    match fault {
        CacheFault::OutOfMemory => Stop::OutOfMemory,
        _ => refused(alloc, path, fault),
    }
}

/// The stop of a question that stopped for this, and that has no name and reads no content.
pub(crate) fn stopped_for(alloc: Global, path: &str, cause: Cause) -> Stop
    // No name was too long.
    requires named { cause ≢ Cause.NameTooLong }
    // No read failed.
    requires readable { cause ≢ Cause.Read }
    // A fault of the cache is that stop.
    ensures fault { (fault : CacheFault) → cause ≡ Cause.Cache fault → IsCacheFaultStop path.now fault result }
    // Where memory ran out, the stop says so.
    ensures memory { cause ≡ Cause.OutOfMemory → result ≡ Stop.OutOfMemory }
{
    match cause {
        Cause::Cache(fault) => faulty(alloc, path, fault),
        Cause::OutOfMemory => Stop::OutOfMemory,
        Cause::NameTooLong | Cause::Read => unreachable!(),
    }
}

fn refused(alloc: Global, path: &str, fault: CacheFault) -> Stop
    ensures { IsRefusal (refusal path.now (cache_fault_name fault)) result }
{
    match message_of(alloc, path, fault) {
        Ok(message) => Stop::Refused(message),
        Err(_) => Stop::OutOfMemory,
    }
}

fn message_of(alloc: Global, path: &str, fault: CacheFault) -> Result<String, AllocError>
    ensures { IfOk result (λ message. string_bytes message ≡ refusal path.now (cache_fault_name fault)) }
{
    let name = name_of(alloc, fault)?;
    format!(in alloc; "mimelook: {path}: {name}\n")
}

// What the message on a fault calls it.
fn name_of(alloc: Global, fault: CacheFault) -> Result<String, AllocError>
    ensures { IfOk result (λ name. string_bytes name ≡ cache_fault_name fault) }
{
    match fault {
        CacheFault::Truncated => format!(in alloc; "truncated"),
        CacheFault::Version(major, minor) => format!(in alloc; "version {major}.{minor}"),
        CacheFault::TooLarge => format!(in alloc; "too large"),
        CacheFault::OutOfRange(at) => format!(in alloc; "out of range at {at}"),
        CacheFault::LongText(at) => format!(in alloc; "long text at {at}"),
        CacheFault::Spent => format!(in alloc; "budget spent"),
        CacheFault::TooDeep => format!(in alloc; "too deep"),
        CacheFault::OutOfMemory => format!(in alloc; "out of memory"),
    }
}
