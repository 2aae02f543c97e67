//! Files in memory that tell what is stored, and that none can be replaced.

ghost use Rattle.std.specs.Prelude.{◌≡◌};
ghost use Rattle.mime_fakes.specs.Shelf.{entry_in, stored_at};

use mime_base::OutOfMemory;
use mime_lookup::{Content, ReadFault};
use mime_tool::{FileFault, Files, Inode};
use std::alloc::Global;
use std::io;
use std::io::{ErrorKind, Read};

/// What is stored at a path.
#[derive(Clone, Copy)]
pub enum Entry<'a> {
    Bytes(&'a [u8]),
    Folder,
    /// A device, a pipe or a socket, which is never opened.
    Special(Inode),
    /// A link that leads nowhere.
    Dangling,
    /// It is no folder, and can't be opened.
    Closed,
    /// It can be opened, and each read fails.
    Unreadable,
}

/// A file of a shelf that was opened: what is left of its bytes, or that each read fails.
#[derive(Clone, Copy)]
pub enum Page<'a> {
    Bytes(&'a [u8]),
    Unreadable,
}

impl Read for Page<'_> {
    ghost use Rattle.std.specs.Prelude.{Some};
    ghost use Rattle.mime_fakes.specs.Shelf.{left_of};

    ghost remaining = { λ page. Some (left_of page) };

    fn read(&mut self, buffer: &mut [u8]) -> io::Result<usize> {
        match self {
            Page::Bytes(bytes) => bytes.read(buffer),
            Page::Unreadable => Err(io::Error::from(ErrorKind::Other)),
        }
    }
}

impl Content for Page<'_> {
    ghost use Rattle.mime_fakes.specs.Shelf.{health_of};

    ghost health = { health_of };

    fn read_piece(&mut self, buffer: &mut [u8]) -> Result<usize, ReadFault> {
        match self {
            Page::Bytes(bytes) => bytes.read_piece(buffer),
            Page::Unreadable => Err(ReadFault::Failed),
        }
    }
}

/// Files in memory, by their paths.
#[derive(Clone, Copy)]
pub struct Shelf<'a> {
    pub entries: &'a [(&'a str, Entry<'a>)],
}

impl<'a> Files for Shelf<'a> {
    ghost use Rattle.mime_tool.specs.Files.{fails};

    ghost tells = { λ shelf. stored_at shelf.entries.now };

    ghost writes = { λ _ _ _. fails };

    type Reader = Page<'a>;

    fn whole(&mut self, alloc: Global, path: &str) -> Result<Option<Vec<u8>>, FileFault> {
        match find_entry(self.entries, path.as_bytes()) {
            None | Some(Entry::Dangling) => Ok(None),
            Some(Entry::Folder) => Err(FileFault::Folder),
            Some(Entry::Special(_) | Entry::Closed | Entry::Unreadable) => {
                Err(FileFault::Failed)
            }
            Some(Entry::Bytes(bytes)) => match bytes.to_vec(alloc) {
                Ok(bytes) => Ok(Some(bytes)),
                Err(_) => Err(FileFault::OutOfMemory),
            },
        }
    }

    fn exists(&mut self, _alloc: Global, path: &str) -> Result<bool, OutOfMemory> {
        Ok(match find_entry(self.entries, path.as_bytes()) {
            None | Some(Entry::Dangling) => false,
            Some(_) => true,
        })
    }

    fn inode(&mut self, _alloc: Global, path: &[u8]) -> Result<Option<Inode>, OutOfMemory> {
        Ok(match find_entry(self.entries, path) {
            Some(Entry::Folder) => Some(Inode::Directory),
            Some(Entry::Special(kind)) => Some(kind),
            Some(Entry::Dangling) => Some(Inode::Symlink),
            _ => None,
        })
    }

    fn open(&mut self, _alloc: Global, path: &[u8]) -> Result<Page<'a>, FileFault> {
        match find_entry(self.entries, path) {
            Some(Entry::Folder) => Err(FileFault::Folder),
            None | Some(Entry::Special(_) | Entry::Dangling | Entry::Closed) => {
                Err(FileFault::Failed)
            }
            Some(Entry::Unreadable) => Ok(Page::Unreadable),
            Some(Entry::Bytes(bytes)) => Ok(Page::Bytes(bytes)),
        }
    }

    // Nothing on a shelf can be replaced.
    fn replace(
        &mut self,
        _alloc: Global,
        _path: &str,
        _ending: &str,
        _bytes: &[u8],
    ) -> Result<(), FileFault> {
        Err(FileFault::Failed)
    }
}

fn find_entry<'a>(entries: &[(&'a str, Entry<'a>)], path: &[u8]) -> Option<Entry<'a>>
    ensures { result ≡ entry_in entries.now path.now }
{
    for named in entries {
        if named.0.as_bytes() == path {
            return Some(named.1);
        }
    }
    None
}
