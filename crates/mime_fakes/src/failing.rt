//! Files and sinks that fail at a call of choice, and tell nothing.

use crate::{Drawer, Page, Sheet, Shelf};
use mime_base::OutOfMemory;
use mime_tool::{FileFault, Files, Inode, Sink, SinkFault};
use std::alloc::Global;

/// Files that always fail so.
#[derive(Clone, Copy)]
pub struct FailingFiles(pub FileFault);

impl Files for FailingFiles {
    type Reader = Page<'static>;

    fn whole(&mut self, _alloc: Global, _path: &str) -> Result<Option<Vec<u8>>, FileFault> {
        Err(self.0)
    }

    fn exists(&mut self, _alloc: Global, _path: &str) -> Result<bool, OutOfMemory> {
        Ok(true)
    }

    fn inode(&mut self, _alloc: Global, _path: &[u8]) -> Result<Option<Inode>, OutOfMemory> {
        Err(OutOfMemory)
    }

    fn open(&mut self, _alloc: Global, _path: &[u8]) -> Result<Page<'static>, FileFault> {
        Err(self.0)
    }

    fn replace(
        &mut self,
        _alloc: Global,
        _path: &str,
        _ending: &str,
        _bytes: &[u8],
    ) -> Result<(), FileFault> {
        Err(self.0)
    }
}

/// Files of a shelf of which one call fails: that many are met before it.
#[derive(Drop)]
pub struct FailingShelf<'a> {
    pub shelf: Shelf<'a>,
    pub calls: usize,
    pub fault: FileFault,
}

impl<'a> Files for FailingShelf<'a> {
    type Reader = Page<'a>;

    fn whole(&mut self, alloc: Global, path: &str) -> Result<Option<Vec<u8>>, FileFault> {
        step(&mut self.calls, self.fault)?;
        self.shelf.whole(alloc, path)
    }

    fn exists(&mut self, alloc: Global, path: &str) -> Result<bool, OutOfMemory> {
        self.shelf.exists(alloc, path)
    }

    fn inode(&mut self, alloc: Global, path: &[u8]) -> Result<Option<Inode>, OutOfMemory> {
        self.shelf.inode(alloc, path)
    }

    fn open(&mut self, alloc: Global, path: &[u8]) -> Result<Page<'a>, FileFault> {
        step(&mut self.calls, self.fault)?;
        self.shelf.open(alloc, path)
    }

    fn replace(
        &mut self,
        alloc: Global,
        path: &str,
        ending: &str,
        bytes: &[u8],
    ) -> Result<(), FileFault> {
        step(&mut self.calls, self.fault)?;
        self.shelf.replace(alloc, path, ending, bytes)
    }
}

/// Files of a drawer of which one call fails: that many are met before it.
#[derive(Drop)]
pub struct FailingDrawer<'a> {
    pub drawer: Drawer<'a>,
    pub calls: usize,
    pub fault: FileFault,
}

impl<'a> Files for FailingDrawer<'a> {
    type Reader = Sheet<'a>;

    fn whole(&mut self, alloc: Global, path: &str) -> Result<Option<Vec<u8>>, FileFault> {
        step(&mut self.calls, self.fault)?;
        self.drawer.whole(alloc, path)
    }

    fn exists(&mut self, alloc: Global, path: &str) -> Result<bool, OutOfMemory> {
        self.drawer.exists(alloc, path)
    }

    fn inode(&mut self, alloc: Global, path: &[u8]) -> Result<Option<Inode>, OutOfMemory> {
        self.drawer.inode(alloc, path)
    }

    fn open(&mut self, alloc: Global, path: &[u8]) -> Result<Sheet<'a>, FileFault> {
        step(&mut self.calls, self.fault)?;
        self.drawer.open(alloc, path)
    }

    fn replace(
        &mut self,
        alloc: Global,
        path: &str,
        ending: &str,
        bytes: &[u8],
    ) -> Result<(), FileFault> {
        step(&mut self.calls, self.fault)?;
        self.drawer.replace(alloc, path, ending, bytes)
    }
}

fn step(calls: &mut usize, fault: FileFault) -> Result<(), FileFault> {
    if *calls == 0 {
        *calls = usize::MAX;
        return Err(fault);
    }
    *calls -= 1;
    Ok(())
}

/// A sink of which some calls fail, flushes too: that many are met, then that many fail, and the rest
/// are met.
#[derive(Drop)]
pub struct FailingSink {
    /// The bytes that it took.
    pub taken: Vec<u8>,
    /// How many of them were flushed.
    pub flushed: usize,
    /// How many calls are still met before one fails.
    pub calls: usize,
    /// How many calls fail then.
    pub faults: usize,
    pub fault: SinkFault,
}

impl FailingSink {
    pub fn new(alloc: Global, calls: usize, faults: usize, fault: SinkFault) -> FailingSink {
        FailingSink {
            taken: Vec::new(alloc),
            flushed: 0,
            calls,
            faults,
            fault,
        }
    }

    fn step(&mut self) -> Result<(), SinkFault> {
        if self.calls > 0 {
            self.calls -= 1;
            return Ok(());
        }
        if self.faults > 0 {
            self.faults -= 1;
            return Err(self.fault);
        }
        Ok(())
    }
}

impl Sink for FailingSink {
    fn put(&mut self, bytes: &[u8]) -> Result<(), SinkFault> {
        self.step()?;
        self.taken.put(bytes)
    }

    fn flush(&mut self) -> Result<(), SinkFault> {
        self.step()?;
        self.flushed = self.taken.len();
        Ok(())
    }
}
