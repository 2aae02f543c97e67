//! What a call reports to C. This project's own.

ghost use Rattle.std.specs.Prelude.{◌≡◌, ◌≢◌};
ghost use Rattle.mime_c.specs.Report.{IsStopReport, fault_report, status_report};

use crate::status::{
    ANSWERED, LONG_TEXT, NAME_TOO_LONG, OUT_OF_MEMORY, OUT_OF_RANGE, SPENT, TOO_DEEP, TOO_LARGE,
    TRUNCATED, VERSION,
};
use mime_base::Meter;
use mime_lookup::{Cause, Stopped};
use mime_view::CacheFault;

/// How a call ended, and what it took.
#[repr(C)]
#[derive(Clone, Copy, Debug)]
pub struct Report {
    /// 0 where there is an answer, else why there is none.
    pub status: u32,
    /// The major number of the cache's version, where that is why.
    pub major: u16,
    /// The minor number of it.
    pub minor: u16,
    /// The offset of a fault that has one, in bytes from the front of the cache.
    pub at: u64,
    /// How many bytes of the content were read.
    pub read: u64,
    /// Records of the cache that were visited.
    pub nodes: u64,
    /// Bytes that were read or compared, and tests of a pattern's elements.
    pub bytes: u64,
    /// Zeros, for what is to come.
    pub spare: [u64; 3],
}

/// A report of a status, and of what was read, visited and compared.
pub fn status_report(status: u32, read: u64, meter: Meter) -> Report
    // A report of these numbers, with no fault.
    ensures { result ≡ status_report status read meter }
{
    Report {
        status,
        major: 0,
        minor: 0,
        at: 0,
        read,
        nodes: meter.nodes,
        bytes: meter.bytes,
        spare: [0; 3],
    }
}

/// A report of an answer.
pub fn answered(read: u64, meter: Meter) -> Report
    // A report of the status of an answer.
    ensures { result ≡ status_report 0 read meter }
{
    status_report(ANSWERED, read, meter)
}

/// A report of a fault of the cache.
pub fn fault_report(fault: CacheFault, read: u64, meter: Meter) -> Report
    // A report of the fault's status and its place.
    ensures { result ≡ fault_report fault read meter }
{
    match fault {
        CacheFault::Truncated => status_report(TRUNCATED, read, meter),
        CacheFault::Version(major, minor) => Report {
            major,
            minor,
            ..status_report(VERSION, read, meter)
        },
        CacheFault::TooLarge => status_report(TOO_LARGE, read, meter),
        CacheFault::OutOfRange(at) => Report {
            at,
            ..status_report(OUT_OF_RANGE, read, meter)
        },
        CacheFault::LongText(at) => Report {
            at,
            ..status_report(LONG_TEXT, read, meter)
        },
        CacheFault::Spent => status_report(SPENT, read, meter),
        CacheFault::TooDeep => status_report(TOO_DEEP, read, meter),
        CacheFault::OutOfMemory => status_report(OUT_OF_MEMORY, read, meter),
    }
}

/// A report of a lookup that stopped; bytes never fail to be read.
pub fn stop_report(stopped: Stopped) -> Report
    // No read failed: a content of bytes has no such stop.
    requires readable { stopped.cause ≢ Cause.Read }
    // A report of the cause, and of what was read and looked at.
    ensures { IsStopReport stopped.cause stopped.read stopped.meter result }
{
    match stopped.cause {
        Cause::NameTooLong => status_report(NAME_TOO_LONG, stopped.read, stopped.meter),
        Cause::Cache(fault) => fault_report(fault, stopped.read, stopped.meter),
        Cause::OutOfMemory => status_report(OUT_OF_MEMORY, stopped.read, stopped.meter),
        Cause::Read => unreachable!(),
    }
}
