//! Databases of the texts of data directories.

use mime_base::{Database, OutOfMemory};
pub use mime_text::DirTexts as Texts;
use mime_text::{DirsFault, merge, read_dirs, read_globs2};
use std::alloc::Global;

/// A directory whose files are empty.
pub const EMPTY: Texts<'static> = Texts {
    globs2: b"",
    magic: b"",
    aliases: b"",
    subclasses: b"",
    icons: b"",
    generic_icons: b"",
};

/// The texts that [`SAMPLE`](crate::caches::SAMPLE) is made of.
pub const SAMPLE_TEXTS: Texts<'static> = Texts {
    globs2: b"50:t/m:mk\n50:t/g:*.gz\n",
    magic: b"MIME-Magic\0\n[40:t/g]\n>0=\0\x02\x1f\x8b\n",
    aliases: b"t/h t/g\n",
    subclasses: b"t/g t/m\n",
    ..EMPTY
};

/// The database of directories, the most preferred first.
pub fn merged(alloc: Global, dirs: &[Texts<'_>]) -> Result<Database, DirsFault> {
    Ok(merge(alloc, read_dirs(alloc, dirs)?)?)
}

/// The database of the rules of `globs2` alone.
pub fn of_rules(alloc: Global, globs2: &[u8]) -> Result<Database, OutOfMemory> {
    let file = read_globs2(alloc, globs2)?;
    Ok(Database::of_rules(alloc, file.rules))
}
