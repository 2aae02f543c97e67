//! Files in memory of which one can be replaced, and which tell that.

ghost use Rattle.std.specs.Prelude.{◌≡◌, ◌++◌, IfOk, string_bytes};
ghost use Rattle.mime_fakes.specs.Drawer.{stored_in, writes_of};
ghost use Rattle.mime_fakes.specs.Shelf.{stored_at};

use crate::{Page, Shelf};
use mime_base::OutOfMemory;
use mime_lookup::{Content, ReadFault};
use mime_tool::{FileFault, Files, Inode};
use std::alloc::{AllocError, Global};
use std::io;
use std::io::{Cursor, Read};

/// Files of a shelf, of which one can be replaced, by way of one path.
#[derive(Drop)]
pub struct Drawer<'a> {
    pub shelf: Shelf<'a>,
    /// The path of the file that can be replaced.
    pub path: &'a str,
    /// What the path that its bytes are written to has after it.
    pub ending: &'a str,
    /// What it was last replaced by.
    pub laid: Option<Vec<u8>>,
}

/// A file of a drawer that was opened: one of its shelf, or what took the place of one.
#[derive(Drop)]
pub enum Sheet<'a> {
    Shelved(Page<'a>),
    Laid(Cursor<Vec<u8>>),
}

impl Read for Sheet<'_> {
    ghost use Rattle.std.specs.Prelude.{Some};
    ghost use Rattle.mime_fakes.specs.Drawer.{left_in};

    ghost remaining = { λ sheet. Some (left_in sheet) };

    fn read(&mut self, buffer: &mut [u8]) -> io::Result<usize> {
        match self {
            Sheet::Shelved(page) => page.read(buffer),
            Sheet::Laid(bytes) => bytes.read(buffer),
        }
    }
}

impl Content for Sheet<'_> {
    ghost use Rattle.mime_fakes.specs.Drawer.{health_in};

    ghost health = { health_in };

    fn read_piece(&mut self, buffer: &mut [u8]) -> Result<usize, ReadFault> {
        match self {
            Sheet::Shelved(page) => page.read_piece(buffer),
            Sheet::Laid(bytes) => match bytes.read(buffer) {
                Ok(count) => Ok(count),
                Err(_) => Err(ReadFault::Failed),
            },
        }
    }
}

impl Drawer<'_> {
    // The path that the bytes of a file are written to.
    fn temp(&self, alloc: Global) -> Result<String, AllocError>
        ensures { IfOk result (λ temp. string_bytes temp ≡ self.now.path.now ++ self.now.ending.now) }
    {
        let Drawer { path, ending, .. } = self;
        format!(in alloc; "{path}{ending}")
    }
}

impl<'a> Files for Drawer<'a> {
    ghost tells = { λ drawer. stored_in drawer.path.now drawer.ending.now
        (stored_at drawer.shelf.entries.now) drawer.laid };

    ghost writes = { λ drawer. writes_of drawer.path.now drawer.ending.now };

    type Reader = Sheet<'a>;

    fn whole(&mut self, alloc: Global, path: &str) -> Result<Option<Vec<u8>>, FileFault> {
        let temp = self.temp(alloc)?;
        match &self.laid {
            Some(bytes) if path == self.path => Ok(Some(bytes.as_slice().to_vec(alloc)?)),
            Some(_) if path == temp.as_str() => Ok(None),
            _ => self.shelf.whole(alloc, path),
        }
    }

    fn exists(&mut self, alloc: Global, path: &str) -> Result<bool, OutOfMemory> {
        let temp = self.temp(alloc)?;
        match &self.laid {
            Some(_) if path == self.path => Ok(true),
            Some(_) if path == temp.as_str() => Ok(false),
            _ => self.shelf.exists(alloc, path),
        }
    }

    fn inode(&mut self, alloc: Global, path: &[u8]) -> Result<Option<Inode>, OutOfMemory> {
        let temp = self.temp(alloc)?;
        match &self.laid {
            Some(_) if path == self.path.as_bytes() || path == temp.as_bytes() => Ok(None),
            _ => self.shelf.inode(alloc, path),
        }
    }

    fn open(&mut self, alloc: Global, path: &[u8]) -> Result<Sheet<'a>, FileFault> {
        let temp = self.temp(alloc)?;
        match &self.laid {
            Some(bytes) if path == self.path.as_bytes() => {
                Ok(Sheet::Laid(Cursor::new(bytes.as_slice().to_vec(alloc)?)))
            }
            Some(_) if path == temp.as_bytes() => Err(FileFault::Failed),
            _ => Ok(Sheet::Shelved(self.shelf.open(alloc, path)?)),
        }
    }

    fn replace(
        &mut self,
        alloc: Global,
        path: &str,
        ending: &str,
        bytes: &[u8],
    ) -> Result<(), FileFault> {
        if path != self.path || ending != self.ending {
            return Err(FileFault::Failed);
        }
        self.laid = Some(bytes.to_vec(alloc)?);
        Ok(())
    }
}
