//! What a call by a handle gives back.

ghost use Rattle.std.specs.Prelude.{◌≡◌, Option, Some, None};
ghost use denote.RawPtr.{Ptr, coded_ptr, null_ptr};
ghost use Rattle.mime_c.specs.Opened.{Opened};
ghost use Rattle.mime_c.specs.Owned.{owns_open};
ghost use Rattle.mime_c.specs.Report.{IsStatusAlone};
ghost use Rattle.mime_c.specs.Status.{status_not_open};

use crate::database::heap_value::HeapValue;
use crate::database::open_database::OpenDatabase;
use crate::merge::MergeReport;
use crate::report::{Report, status_report};
use crate::status::NOT_OPEN;
use mime_base::Meter;
use std::alloc::Global;
use std::marker::Model;

/// What lies at the address of a database that is open, or nothing at NULL. It has no bytes: C has the address.
#[repr(C)]
pub struct Kept {
    alloc: Global,
    /// The address.
    pub ghost address: { Ptr } by { coded_ptr },
    /// What is open, if anything is.
    pub ghost opened: { Option Opened },
}

impl Model for Kept {
    ghost also_owns = { λ it. owns_open it.alloc it.address it.opened };
}

/// A report, with what lies at the handle's address. To C it is the report alone.
#[repr(C)]
pub struct HandleReport {
    /// The report.
    pub report: Report,
    /// What is still open.
    pub kept: Kept,
}

/// A report of a merging, with what is open after it. To C it is the report alone.
#[repr(C)]
pub struct DirectoriesReport {
    /// The report.
    pub report: MergeReport,
    /// What is open.
    pub kept: Kept,
}

impl Kept {
    /// The address of what is open, and the right to it.
    pub(super) fn of(opened: HeapValue<OpenDatabase, Global>) -> (*mut u8, Kept)
        // Both are of what is open, where it lies.
        ensures { (result.0 ≡ opened.address) × (result.1.address ≡ opened.address) × (result.1.opened ≡ Some opened.value) }
    {
        let HeapValue { address, alloc } = opened;
        (address as *mut u8, Kept { alloc })
    }

    /// Nothing, at NULL.
    pub(super) fn nothing(alloc: Global) -> Kept
        // There is nothing at NULL.
        ensures { (result.address ≡ null_ptr) × (result.opened ≡ None) }
    {
        Kept { alloc }
    }
}

impl HandleReport {
    /// A report, after which what is open stays so.
    pub(super) fn of(report: Report, opened: HeapValue<OpenDatabase, Global>) -> HandleReport
        // It is this report.
        ensures report { result.report ≡ report }
        // What is open lies where it lay.
        ensures address { result.kept.address ≡ opened.address }
        // It is the same.
        ensures opened { result.kept.opened ≡ Some opened.value }
    {
        let (_, kept) = Kept::of(opened);
        HandleReport { report, kept }
    }

    /// A report that there is nothing open.
    pub(super) fn not_open(alloc: Global) -> HandleReport
        // Nothing was looked at.
        ensures report { IsStatusAlone status_not_open result.report }
        // There is nothing at NULL.
        ensures address { result.kept.address ≡ null_ptr }
        // Nothing is open.
        ensures opened { result.kept.opened ≡ None }
    {
        HandleReport {
            report: status_report(NOT_OPEN, 0, Meter::new()),
            kept: Kept::nothing(alloc),
        }
    }
}
