//! The six text files of each of several data directories ("Directory layout").

ghost use Rattle.std.specs.Prelude.{◌≡◌, IfErr, IfOk};
ghost use Rattle.mime_text.specs.DirTexts.{FileSays, IsFaultIn, IsFaultOfDirs, SayDirs, SaysDir};
ghost use Rattle.mime_text.specs.Merging.{plain_dir, plain_dirs};
ghost use Rattle.mime_text.specs.declared.dir_texts.DirsFault.TheVariants as faults;

use crate::lines::globs2::read_globs2;
use crate::lines::icons::read_icons;
use crate::lines::pairs::read_pairs;
use crate::magic::{MagicFault, MagicFaultKind, MagicFile, read_magic};
use crate::merging::DirFiles;
use mime_base::OutOfMemory;
use std::alloc::{AllocFailed, Global};
use thiserror::Error;

/// The texts of one data directory's files. A missing file is one of no bytes.
#[repr(C)]
#[derive(Clone, Copy)]
pub struct DirTexts<'a> {
    /// The file `globs2`.
    pub globs2: &'a [u8],
    /// The file `magic`.
    pub magic: &'a [u8],
    /// The file `aliases`.
    pub aliases: &'a [u8],
    /// The file `subclasses`.
    pub subclasses: &'a [u8],
    /// The file `icons`.
    pub icons: &'a [u8],
    /// The file `generic-icons`.
    pub generic_icons: &'a [u8],
}

/// Why the texts of directories are not read.
#[derive(Clone, Copy, Debug, PartialEq, Eq, Error)]
pub enum DirsFault {
    /// The first directory whose `magic` is refused, and the first fault of that text.
    #[error("directory {directory}: magic {kind} at {offset}")]
    Magic {
        /// Which directory it is, counted from 0.
        directory: usize,
        /// What is wrong.
        kind: MagicFaultKind,
        /// Where it is wrong, in bytes from the front of the text.
        offset: u64,
    },
    /// An allocation was refused.
    #[error("out of memory")]
    OutOfMemory,
}

impl From<OutOfMemory> for DirsFault {
    ghost from_gives = { λ _ fault. fault ≡ faults.OutOfMemory };

    fn from(_error: OutOfMemory) -> DirsFault {
        DirsFault::OutOfMemory
    }
}

impl<T: Drop> From<AllocFailed<T>> for DirsFault {
    ghost from_gives = { λ _ fault. fault ≡ faults.OutOfMemory };

    fn from(_error: AllocFailed<T>) -> DirsFault {
        DirsFault::OutOfMemory
    }
}

/// Reads the text files of directories, of which [`merge_visible`](crate::merge_visible) makes one database.
///
/// Malformed lines are skipped. A directory is named only where no directory before it is refused.
pub fn read_dirs(alloc: Global, dirs: &[DirTexts<'_>]) -> Result<Vec<DirFiles>, DirsFault>
    // What is read of each directory is what its six texts say.
    ensures says { IfOk result (λ files. SayDirs dirs.now (plain_dirs files.items)) }
    // It is refused for the first fault of the first directory whose magic has one, or for memory.
    ensures fault { IfErr result (IsFaultOfDirs dirs.now) }
{
    let mut files = Vec::new(alloc);
    for (number, dir) in dirs.iter().enumerate() {
        let read = read_dir(alloc, number, dir)?;
        files.push(read)?;
    }
    Ok(files)
}

/// What the files of the directory of this number say.
fn read_dir(alloc: Global, number: usize, dir: &DirTexts<'_>) -> Result<DirFiles, DirsFault>
    ensures says { IfOk result (λ files. SaysDir dir.now (plain_dir files)) }
    ensures fault { IfErr result (IsFaultIn dir.now.magic.now number) }
{
    let globs = read_globs2(alloc, dir.globs2)?;
    let magic = read_numbered(alloc, number, dir.magic)?;
    let aliases = read_pairs(alloc, dir.aliases)?;
    let subclasses = read_pairs(alloc, dir.subclasses)?;
    let icons = read_icons(alloc, dir.icons)?;
    let generic_icons = read_icons(alloc, dir.generic_icons)?;
    Ok(DirFiles {
        globs,
        magic,
        aliases,
        subclasses,
        icons,
        generic_icons,
    })
}

/// The file `magic` of the directory of this number.
fn read_numbered(alloc: Global, number: usize, text: &[u8]) -> Result<MagicFile, DirsFault>
    ensures says { IfOk result (FileSays text.now) }
    ensures fault { IfErr result (IsFaultIn text.now number) }
{
    match read_magic(alloc, text) {
        Ok(file) => Ok(file),
        Err(MagicFault::Malformed { kind, offset }) => Err(DirsFault::Magic {
            directory: number,
            kind,
            offset,
        }),
        Err(MagicFault::OutOfMemory) => Err(DirsFault::OutOfMemory),
    }
}
