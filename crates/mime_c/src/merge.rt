//! A cache of data directories, in memory ("Directory layout").

ghost use Rattle.std.specs.Prelude.{◌≡◌, MatchResult};
ghost use Rattle.mime_c.specs.Merge.{IsCacheOfDirs, IsCachePut, IsMergeFault, IsMergeAnswer};
ghost use Rattle.mime_c.specs.Merge.{magic_number, merge_fault_report, merge_status};

use crate::status::{ANSWERED, BAD_MAGIC, OUT_OF_MEMORY, SHORT_BUFFER, TOO_LARGE};
use mime_base::LARGEST_CACHE;
use mime_store::{StoreFault, write_cache};
use mime_text::{DirTexts, DirsFault, MagicFaultKind, merge_visible, read_dirs};
use std::alloc::Global;

/// How a merging ended.
#[repr(C)]
#[derive(Clone, Copy, Debug)]
pub struct MergeReport {
    /// 0 where there is a cache, else why there is none.
    pub status: u32,
    /// What is wrong with a text of `magic`, where that is why.
    pub fault: u32,
    /// Which directory it is of, counted from 0.
    pub directory: u64,
    /// Where it is wrong, in bytes from the front of that text.
    pub at: u64,
    /// Zero.
    pub spare: [u64; 2],
}

/// Why there is no cache.
#[derive(Clone, Copy, Debug)]
pub(crate) enum MergeFault {
    /// The first directory whose `magic` is refused, and its first fault.
    Magic {
        directory: usize,
        kind: MagicFaultKind,
        offset: u64,
    },
    /// No cache can hold what the directories say.
    TooLarge,
    /// An allocation was refused.
    OutOfMemory,
}

impl From<DirsFault> for MergeFault {
    ghost use Rattle.std.specs.Prelude.{◌≡◌};
    ghost use Rattle.mime_c.specs.Merge.{of_dirs};

    ghost from_gives = { λ fault e. e ≡ of_dirs fault };

    fn from(fault: DirsFault) -> MergeFault {
        match fault {
            DirsFault::Magic {
                directory,
                kind,
                offset,
            } => MergeFault::Magic {
                directory,
                kind,
                offset,
            },
            DirsFault::OutOfMemory => MergeFault::OutOfMemory,
        }
    }
}

/// One cache of the text files of directories, the most preferred first, at the front of a buffer: what the command `build`
/// writes ("The mime.cache files").
///
/// Where the buffer has no room for it, the length alone is written: as much room is needed. Malformed lines are skipped;
/// the first directory whose `magic` is refused is told, with what is wrong and where.
#[unsafe(no_mangle)]
pub extern "C" fn mimelook_merge(
    alloc: Global,
    directories: &[DirTexts<'_>],
    buffer: &mut [u8],
    length: &mut usize,
) -> MergeReport
    // It is a cache of what the directories say, or why there is none; the buffer is written only with an answer.
    ensures promises { IsMergeAnswer directories.now (record { buffer = buffer.old; length = length.old })
        (record { buffer = buffer.new; length = length.new }) result }
{
    match merged_cache(alloc, directories) {
        Ok(cache) => put_cache(&cache, buffer, length),
        Err(fault) => merge_fault_report(fault),
    }
}

// The cache, where there is room for it, and its length.
fn put_cache(bytes: &[u8], buffer: &mut [u8], length: &mut usize) -> MergeReport
    ensures { IsCachePut bytes.now (record { buffer = buffer.old; length = length.old })
        (record { buffer = buffer.new; length = length.new }) result }
{
    let size = bytes.len();
    *length = size;
    if buffer.len() < size {
        return merge_status(SHORT_BUFFER);
    }
    buffer[..size].copy_from_slice(bytes);
    merge_status(ANSWERED)
}

/// The cache of the directories.
pub(crate) fn merged_cache(
    alloc: Global,
    directories: &[DirTexts<'_>],
) -> Result<Vec<u8>, MergeFault>
    // It is a cache of what they say, or why there is none.
    ensures { MatchResult result (λ cache. IsCacheOfDirs directories.now cache.items) (IsMergeFault directories.now) }
{
    let files = match read_dirs(alloc, directories) {
        Ok(files) => files,
        Err(fault) => return Err(MergeFault::from(fault)),
    };
    let Ok(database) = merge_visible(alloc, files) else {
        return Err(MergeFault::OutOfMemory);
    };
    match write_cache(alloc, &database, LARGEST_CACHE) {
        Ok(cache) => Ok(cache),
        Err(StoreFault::TooLarge) => Err(MergeFault::TooLarge),
        Err(StoreFault::OutOfMemory) => Err(MergeFault::OutOfMemory),
    }
}

/// A status alone.
pub(crate) fn merge_status(status: u32) -> MergeReport
    // A report of this status, with no fault.
    ensures { result ≡ merge_status status }
{
    MergeReport {
        status,
        fault: 0,
        directory: 0,
        at: 0,
        spare: [0; 2],
    }
}

/// Why there is no cache.
pub(crate) fn merge_fault_report(fault: MergeFault) -> MergeReport
    // A report of the fault's status and its place.
    ensures { result ≡ merge_fault_report fault }
{
    match fault {
        MergeFault::Magic {
            directory,
            kind,
            offset,
        } => MergeReport {
            fault: magic_number(kind),
            directory: directory as u64,
            at: offset,
            ..merge_status(BAD_MAGIC)
        },
        MergeFault::TooLarge => merge_status(TOO_LARGE),
        MergeFault::OutOfMemory => merge_status(OUT_OF_MEMORY),
    }
}

// The number of what is wrong with a text of `magic`.
fn magic_number(kind: MagicFaultKind) -> u32
    ensures { result ≡ magic_number kind }
{
    match kind {
        MagicFaultKind::NoHeader => 1,
        MagicFaultKind::Truncated => 2,
        MagicFaultKind::BadSection => 3,
        MagicFaultKind::BadNumber => 4,
        MagicFaultKind::BadWord => 5,
        MagicFaultKind::BadIndent => 6,
        MagicFaultKind::TooDeep => 7,
    }
}
