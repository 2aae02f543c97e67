//! Files in memory: the text files of data directories, a cache, and contents that are made when they are opened.

use crate::contents::Pools;
use crate::database::Made;
use crate::random::Random;
use mime_base::OutOfMemory;
use mime_lookup::Untold;
use mime_tool::{FileFault, Files, Inode};
use std::alloc::Global;
use std::io::Cursor;

/// The path of the cache.
pub const CACHE: &str = "mime.cache";

/// Files in memory.
///
/// The directories are `0` and `1` and so on. Any path that is opened has a content of its own.
#[derive(Drop)]
pub struct Shelf<'m> {
    /// What the directories say.
    pub directories: &'m [&'m Made],
    /// What contents are cut from.
    pub pools: &'m Pools,
    /// What contents are made by.
    pub random: Random,
    /// How many contents are made to be hard, in 100.
    pub awkward: usize,
    /// The file of the path of the cache.
    pub cache: Vec<u8>,
}

impl Shelf<'_> {
    // The text file at a path, if there is one.
    fn text(&self, path: &str) -> Option<&[u8]> {
        let (directory, name) = path.split_once("/mime/")?;
        let number: usize = directory.parse().ok()?;
        let made = self.directories.get(number)?;
        match name {
            "globs2" => Some(&made.globs2),
            "magic" => Some(&made.magic),
            "aliases" => Some(&made.aliases),
            "subclasses" => Some(&made.subclasses),
            "generic-icons" => Some(&made.generic_icons),
            _ => None,
        }
    }
}

impl Files for Shelf<'_> {
    type Reader = Untold<Cursor<Vec<u8>>>;

    fn whole(&mut self, alloc: Global, path: &str) -> Result<Option<Vec<u8>>, FileFault> {
        if path == CACHE {
            return Ok(Some(self.cache.to_vec(alloc)?));
        }
        match self.text(path) {
            Some(bytes) => Ok(Some(bytes.to_vec(alloc)?)),
            None => Ok(None),
        }
    }

    fn exists(&mut self, _alloc: Global, path: &str) -> Result<bool, OutOfMemory> {
        Ok(path == CACHE || self.text(path).is_some())
    }

    fn inode(&mut self, _alloc: Global, _path: &[u8]) -> Result<Option<Inode>, OutOfMemory> {
        Ok(None)
    }

    fn open(&mut self, alloc: Global, _path: &[u8]) -> Result<Self::Reader, FileFault> {
        let content = if self.random.chance(self.awkward) {
            self.pools.make_awkward(alloc, &mut self.random)?
        } else {
            match self.directories.first() {
                Some(made) => self.pools.make(alloc, &mut self.random, made)?,
                None => Vec::new(alloc),
            }
        };
        Ok(Untold(Cursor::new(content)))
    }

    fn replace(
        &mut self,
        alloc: Global,
        _path: &str,
        _ending: &str,
        bytes: &[u8],
    ) -> Result<(), FileFault> {
        self.cache = bytes.to_vec(alloc)?;
        Ok(())
    }
}
