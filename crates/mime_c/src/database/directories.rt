//! A database is opened over data directories.
//!
//! The cache is made and opened in one call. Its memory is lent for good, so that the database may be open over it, and is never freed
//! here: the database keeps it, and closing gives it to C, which frees it.

ghost use Rattle.std.specs.Prelude.{◌≡◌, MatchOption, None};
ghost use denote.RawPtr.{null_ptr};
ghost use Rattle.mime_c.specs.OpenDirectories.{IsLeftOver, IsOpenedDirs, IsOpenedMade};

use crate::database::kept::{DirectoriesReport, Kept};
use crate::database::open::open;
use crate::look_up::Text;
use crate::merge::{MergeReport, merge_fault_report, merge_status, merged_cache};
use crate::status::{ANSWERED, OUT_OF_MEMORY};
use mime_base::Meter;
use mime_text::DirTexts;
use std::alloc::Global;
use std::ptr::null_mut;

/// Opens the cache of the text files of directories, the most preferred first, for many questions ("Directory layout").
///
/// The report is that of `mimelook_merge`, which is never too short of room here. C calls this through `mimelook_open_directories`,
/// which frees the memory that is left over.
#[unsafe(no_mangle)]
pub extern "C" fn open_directories(
    alloc: Global,
    directories: &[DirTexts<'_>],
    database: &mut *mut u8,
    left_over: &mut Text<'static>,
) -> DirectoriesReport
    // A cache of what the directories say is open, with its memory, or the report says why nothing is.
    ensures opened { IsOpenedDirs directories.now result.kept.opened result.report }
    // C gets the address of what is open.
    ensures address { database.new ≡ result.kept.address }
    // It is NULL where nothing is.
    ensures null { result.kept.opened ≡ None → database.new ≡ null_ptr }
    // Memory is left over only of a cache that was made and is not open.
    ensures left_over { IsLeftOver directories.now result.kept.opened left_over.old left_over.new }
{
    match merged_cache(alloc, directories) {
        Ok(made) => open_made(alloc, made.leak(), database, left_over),
        Err(fault) => not_open(alloc, merge_fault_report(fault), database),
    }
}

// A cache that was made is opened, or its memory is left over.
fn open_made(
    alloc: Global,
    cache: &'static [u8],
    database: &mut *mut u8,
    left_over: &mut Text<'static>,
) -> DirectoriesReport
    ensures opened { IsOpenedMade cache.entry.now result.kept.opened result.report }
    ensures address { database.new ≡ result.kept.address }
    ensures null { result.kept.opened ≡ None → database.new ≡ null_ptr }
    ensures left_over { MatchOption result.kept.opened (left_over.new.bytes.now ≡ cache.entry.now) (λ _. left_over.new ≡ left_over.old) }
{
    match open(alloc, cache, cache, &mut Meter::new()) {
        Ok(opened) => {
            let (address, kept) = Kept::of(opened);
            *database = address;
            DirectoriesReport {
                report: merge_status(ANSWERED),
                kept,
            }
        }
        Err(_) => {
            left_over.bytes = cache;
            not_open(alloc, merge_status(OUT_OF_MEMORY), database)
        }
    }
}

// A report that nothing is open.
fn not_open(alloc: Global, report: MergeReport, database: &mut *mut u8) -> DirectoriesReport
    ensures report { result.report ≡ report }
    ensures opened { result.kept.opened ≡ None }
    ensures address { database.new ≡ result.kept.address }
    ensures null { database.new ≡ null_ptr }
{
    *database = null_mut();
    DirectoriesReport {
        report,
        kept: Kept::nothing(alloc),
    }
}
