//! The names that a list gives, each ended by a zero byte. This project's own.
//!
//! A list is read block by block, as it comes, and what is kept of it is a block and the name that is
//! being read: it may be longer than memory, and its writer may still be at work. A name that was printed gives its memory to the
//! next.

ghost use Rattle.std.specs.Prelude.{◌≡◌, ◌≤◌, IfOk, IsErr, IsOk, Ok, [], drop, false, length};
ghost use Rattle.std.specs.Io.KnownBytes.{ReadConsumes};
ghost use Rattle.mime_lookup.specs.Content.{broken, sound};
ghost use Rattle.mime_tool.specs.Desk.{Works};
ghost use Rattle.mime_tool.specs.Names.{CutsPiece, GivesName, ReadsMore, TakesPiece, left_in, unread_in};
ghost use Rattle.mime_tool.specs.Process.{given_by};

use crate::desk::Desk;
use crate::stop::{Stop, unreadable};
use memchr::memchr;
use mime_lookup::{Content, ReadFault};
use std::alloc::{AllocError, Global};
use std::mem;

/// How many bytes are asked for at once.
const BLOCK: usize = 4_096;

/// How many interrupted reads of a block are tried again.
const RETRIES: u32 = 1_000;

/// The names of a list that are still to come.
#[derive(Drop)]
pub(crate) struct Names<R: Drop> {
    reader: R,
    /// What was read last.
    block: Vec<u8>,
    /// How much of it was given.
    given: usize,
    /// Memory for the next name.
    spare: Vec<u8>,
}

impl<R: Content + Drop> Names<R> {
    /// All the names that a reader gives.
    pub(crate) fn new(alloc: Global, reader: R) -> Names<R>
        // All that the reader gives is left.
        ensures { left_in R.remaining R.health result ≡ given_by (R.remaining reader) (R.health reader) }
    {
        Names {
            reader,
            block: Vec::new(alloc),
            given: 0,
            spare: Vec::new(alloc),
        }
    }

    /// Takes back the memory of a name that was given, for the next one, unless it is more than a block's.
    pub(crate) fn take_back(&mut self, name: Vec<u8>)
        // What is left of the list stays.
        ensures { left_in R.remaining R.health self.new ≡ left_in R.remaining R.health self.old }
    {
        if name.capacity() <= BLOCK {
            self.spare = name;
        }
    }

    // A name of no bytes, in the memory of an earlier one where there is some.
    fn empty_name(&mut self, alloc: Global) -> Vec<u8>
        ensures empty { result.items ≡ [] }
        ensures stays { left_in R.remaining R.health self.new ≡ left_in R.remaining R.health self.old }
    {
        let mut name = mem::replace(&mut self.spare, Vec::new(alloc));
        name.clear();
        name
    }

    // Adds to a name what the block has of it, and says whether that ends it.
    fn add_to(&mut self, name: &mut Vec<u8>) -> Result<bool, AllocError>
        ensures piece { IfOk result (TakesPiece (left_in R.remaining R.health self.old) (left_in R.remaining R.health self.new)
            name.old.items name.new.items) }
        ensures drained { result ≡ Ok false → unread_in self.new ≡ [] }
    {
        let (piece, is_ended) = first_piece(unread(self.block.as_slice(), self.given));
        let taken = piece.len() + usize::from(is_ended);
        name.extend_from_slice(piece)?;
        self.given += taken;
        Ok(is_ended)
    }

    // Reads the next block, and says whether there was one.
    fn read(&mut self, alloc: Global, list: &str) -> Result<bool, Stop>
        requires { unread_in self.old ≡ [] }
        ensures { ReadsMore list.now (left_in R.remaining R.health self.old) (left_in R.remaining R.health self.new) result }
    {
        let mut block = [0u8; BLOCK];
        let Ok(count) = read_block(&mut self.reader, &mut block) else {
            return Err(unreadable(alloc, list));
        };
        self.block.clear();
        self.block.extend_from_slice(&block[..count])?;
        self.given = 0;
        Ok(count > 0)
    }
}

// What of a block was not given yet.
fn unread(block: &[u8], given: usize) -> &[u8]
    ensures { result.now ≡ drop given block.entry.now }
{
    match block.get(given..) {
        Some(unread) => unread,
        None => &[],
    }
}

// The bytes before the first zero byte, and whether there is one.
fn first_piece(bytes: &[u8]) -> (&[u8], bool)
    ensures { CutsPiece bytes.entry.now result.0.now result.1 }
{
    match memchr(0, bytes) {
        Some(end) => (&bytes[..end], true),
        None => (bytes, false),
    }
}

// One read, tried again while it is interrupted. Gives how many bytes came.
fn read_block<R: Content>(reader: &mut R, block: &mut [u8]) -> Result<usize, ReadFault>
    ensures within { IfOk result (λ count. count ≤ length block.new) }
    ensures bytes { ReadConsumes (R.remaining reader.old) (R.remaining reader.new) result block.new }
    ensures sound { R.health reader.old ≡ sound → IsOk result × (R.health reader.new ≡ sound) }
    ensures broken { R.health reader.old ≡ broken → IsErr result × (R.health reader.new ≡ broken) }
{
    for _ in 0..RETRIES {
        match reader.read_piece(block) {
            Ok(count) => return Ok(count),
            Err(ReadFault::Failed) => return Err(ReadFault::Failed),
            Err(ReadFault::Interrupted) => {}
        }
    }
    reader.read_piece(block)
}

/// The next name, or `None` at the end of the list. What was printed is handed on before more is read.
pub(crate) fn next_name<D: Desk, R: Content + Drop>(
    desk: &mut D,
    names: &mut Names<R>,
    list: &str,
) -> Result<Option<Vec<u8>>, Stop>
    // It is the next of those that are left, where that is known; a list that can't be read is named.
    ensures { Works (GivesName list.now (left_in R.remaining R.health names.old) (left_in R.remaining R.health names.new))
        (D.state desk.old) (D.state desk.new) result }
{
    let mut name = names.empty_name(desk.alloc());
    for _ in 0..u64::MAX {
        if names.add_to(&mut name)? {
            return Ok(Some(name));
        }
        desk.hand_on()?;
        if !names.read(desk.alloc(), list)? {
            return Ok(if name.is_empty() { None } else { Some(name) });
        }
    }
    // The name grew in each turn, and there is no memory for so long a one.
    Err(Stop::OutOfMemory)
}
