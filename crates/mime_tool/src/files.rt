//! Where files come from. This project's own.

ghost use Rattle.std.specs.Prelude.{◌≡◌, ◌++◌, ℕ, List, IfOk};
ghost use Rattle.mime_tool.specs.Files.{IsOfKind, IsOpening, IsThere, Replaces, Stored, Tells, Writing, as_list, unforeseen, unknown};
ghost use Rattle.mime_tool.specs.declared.files.FileFault.TheVariants.{OutOfMemory};

use mime_base::OutOfMemory;
use mime_lookup::Content;
use std::alloc::{AllocError, Global};
use thiserror::Error;

/// Why a file was not opened, not read or not replaced.
#[derive(Clone, Copy, Debug, PartialEq, Eq, Error)]
pub enum FileFault {
    /// It is a folder.
    #[error("is a folder")]
    Folder,
    /// The file can't be opened, read or replaced, or is past a limit of its reader.
    #[error("cannot read")]
    Failed,
    /// There was no memory for it.
    #[error("out of memory")]
    OutOfMemory,
}

/// What lies at a path, where it is no regular file. A link counts as what it leads to.
#[derive(Clone, Copy, Debug, PartialEq, Eq)]
pub enum Inode {
    /// A folder.
    Directory,
    /// A device of characters, such as a terminal.
    CharDevice,
    /// A device of blocks, such as a disk.
    BlockDevice,
    /// A pipe.
    Fifo,
    /// A socket.
    Socket,
    /// A link that leads nowhere: to nothing, to itself, or to where nothing may be looked at.
    Symlink,
}

impl From<AllocError> for FileFault {
    ghost from_gives = { λ _ fault. fault ≡ OutOfMemory };

    fn from(_error: AllocError) -> FileFault {
        FileFault::OutOfMemory
    }
}

/// Files, by their paths.
pub trait Files {
    // What is stored at each path.
    ghost tells: { Self → List ℕ → Stored } = { λ _ _. unknown };

    // What is known of replacing the file of a path by way of this path with an ending. It stays.
    ghost writes: { Self → List ℕ → List ℕ → Writing } = { λ _ _ _. unforeseen };

    /// A reader of a file's content.
    type Reader: Content + Drop;

    /// All the bytes of a file, or `None` where there is no such file.
    ///
    /// Errors: [`FileFault::Folder`] for a folder; [`FileFault::Failed`] for anything else that is there
    /// and can't be read; [`FileFault::OutOfMemory`] where there is no memory for it.
    fn whole(&mut self, alloc: Global, path: &str) -> Result<Option<Vec<u8>>, FileFault>
        // The answer is what is stored, unless memory ran out.
        ensures told { Tells (tells self.old path.now) result }
        // What is stored stays.
        ensures stays { tells self.new ≡ tells self.old }
        // What is known of replacing files stays.
        ensures writes { writes self.new ≡ writes self.old };

    /// Whether something is at a path, of whatever kind.
    fn exists(&mut self, alloc: Global, path: &str) -> Result<bool, OutOfMemory>
        // It says whether nothing is stored there.
        ensures there { IfOk result (IsThere (tells self.old path.now)) }
        // What is stored stays.
        ensures stays { tells self.new ≡ tells self.old }
        // What is known of replacing files stays.
        ensures writes { writes self.new ≡ writes self.old };

    /// What kind of thing lies at a path, or `None` where it is a regular file or none, or can't be looked at.
    /// Nothing is opened.
    fn inode(&mut self, alloc: Global, path: &[u8]) -> Result<Option<Inode>, OutOfMemory>
        // It is the kind of what is stored there.
        ensures kind { IfOk result (IsOfKind (tells self.old path.now)) }
        // What is stored stays.
        ensures stays { tells self.new ≡ tells self.old }
        // What is known of replacing files stays.
        ensures writes { writes self.new ≡ writes self.old };

    /// Opens a file, of which nothing is read yet.
    ///
    /// Errors: [`FileFault::Folder`] for a folder; [`FileFault::Failed`] where there is no such file or it
    /// can't be opened; [`FileFault::OutOfMemory`] where there is no memory for it.
    fn open(&mut self, alloc: Global, path: &[u8]) -> Result<Self::Reader, FileFault>
        // The reader gives just what is stored; a fault says that it is a folder or that it can't be opened, or memory ran out.
        ensures opened { IsOpening Self.Reader.remaining Self.Reader.health
            (tells self.old path.now) result }
        // What is stored stays.
        ensures stays { tells self.new ≡ tells self.old }
        // What is known of replacing files stays.
        ensures writes { writes self.new ≡ writes self.old };

    /// Opens a list of names, of which nothing is read yet. It may be a pipe, where these files open one.
    ///
    /// Errors: as those of [`open`](Files::open).
    fn open_list(&mut self, alloc: Global, path: &str) -> Result<Self::Reader, FileFault>
        // The reader gives just what is stored, where it is no pipe; a fault says that it is a folder or that it can't be opened, or
        // memory ran out.
        ensures opened { IsOpening Self.Reader.remaining Self.Reader.health
            (as_list (tells self.old path.now)) result }
        // What is stored stays.
        ensures stays { tells self.new ≡ tells self.old }
        // What is known of replacing files stays.
        ensures writes { writes self.new ≡ writes self.old }
    {
        self.open(alloc, path.as_bytes())
    }

    /// Makes these bytes the file of `path`, whole: they are written to the path with this ending, and
    /// that file is then renamed.
    ///
    /// What was stored at the path with the ending is lost. After a fault the file of `path` is as it was,
    /// and one of the path with the ending may stand.
    ///
    /// Errors: [`FileFault::Folder`] for a folder; [`FileFault::Failed`] for anything else but a regular
    /// file or none, and where the bytes can't be written or renamed; [`FileFault::OutOfMemory`] where
    /// there is no memory for that.
    fn replace(
        &mut self,
        alloc: Global,
        path: &str,
        ending: &str,
        bytes: &[u8],
    ) -> Result<(), FileFault>
        // The bytes take the place of what was stored, by way of a file beside it; or all but that file is as it was.
        ensures replaced { Replaces (path.now ++ ending.now) path.now bytes.now (writes self.old path.now ending.now)
            (tells self.old) (tells self.new) result }
        // What is known of replacing files stays.
        ensures writes { writes self.new ≡ writes self.old };
}
