//! Files of a runtime, made up: each open answers alike.

use std::alloc::Allocator;
use std::fs::{Files, Metadata, OpenFile, OpenOptions, Permissions};
use std::io;
use std::io::{ErrorKind, Read, Seek, SeekFrom, Write};

/// Files of which nothing can be asked, for this reason; or each of which fails to open so, or is opened so.
#[derive(Clone, Copy)]
pub enum Disk {
    Hides(ErrorKind),
    Fails(ErrorKind),
    Gives(Opened),
}

/// An open file: what it says its size is, and what each read fails with, if it isn't at its end.
#[derive(Clone, Copy)]
pub struct Opened {
    pub size: Result<u64, ErrorKind>,
    pub read: Option<ErrorKind>,
}

fn unsupported() -> io::Error {
    io::Error::from(ErrorKind::Unsupported)
}

impl Read for Opened {
    fn read(&mut self, _buf: &mut [u8]) -> io::Result<usize> {
        match self.read {
            Some(kind) => Err(io::Error::from(kind)),
            None => Ok(0),
        }
    }
}

impl Write for Opened {
    fn write(&mut self, _buf: &[u8]) -> io::Result<usize> {
        Err(unsupported())
    }

    fn flush(&mut self) -> io::Result<()> {
        Err(unsupported())
    }
}

impl Seek for Opened {
    fn seek(&mut self, _to: SeekFrom) -> io::Result<u64> {
        Err(unsupported())
    }
}

impl OpenFile for Opened {
    fn metadata(&self) -> io::Result<Metadata> {
        match self.size {
            Ok(size) => Ok(Metadata::of_file(size)),
            Err(kind) => Err(io::Error::from(kind)),
        }
    }

    fn set_len(&self, _size: u64) -> io::Result<()> {
        Err(unsupported())
    }

    fn sync_all(&self) -> io::Result<()> {
        Err(unsupported())
    }

    fn sync_data(&self) -> io::Result<()> {
        Err(unsupported())
    }

    fn set_permissions(&self, _perm: Permissions) -> io::Result<()> {
        Ok(())
    }
}

impl Files for Disk {
    type File = Opened;

    type Dir = Opened;

    fn open_file(&self, _how: &OpenOptions, _path: &str) -> io::Result<Opened> {
        match self {
            Disk::Hides(kind) | Disk::Fails(kind) => Err(io::Error::from(*kind)),
            Disk::Gives(opened) => Ok(*opened),
        }
    }

    fn open_dir(&self, _path: &str) -> io::Result<Opened> {
        Err(unsupported())
    }

    fn metadata(&self, _path: &str) -> io::Result<Metadata> {
        match self {
            Disk::Hides(kind) => Err(io::Error::from(*kind)),
            Disk::Fails(_) | Disk::Gives(_) => Ok(Metadata::of_file(0)),
        }
    }

    fn symlink_metadata(&self, path: &str) -> io::Result<Metadata> {
        self.metadata(path)
    }

    fn copy(&self, _from: &str, _to: &str) -> io::Result<u64> {
        Err(unsupported())
    }

    fn rename(&self, _from: &str, _to: &str) -> io::Result<()> {
        Err(unsupported())
    }

    fn remove_file(&self, _path: &str) -> io::Result<()> {
        match self {
            Disk::Hides(kind) | Disk::Fails(kind) => Err(io::Error::from(*kind)),
            Disk::Gives(_) => Ok(()),
        }
    }

    fn create_dir(&self, _path: &str) -> io::Result<()> {
        Err(unsupported())
    }

    fn remove_dir(&self, _path: &str) -> io::Result<()> {
        Err(unsupported())
    }

    fn remove_dir_all<B: Allocator>(&self, _alloc: B, _path: &str) -> io::Result<()> {
        Err(unsupported())
    }
}
