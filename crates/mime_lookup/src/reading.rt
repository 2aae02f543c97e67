//! How the front of a content is read.

ghost use Rattle.std.specs.Prelude.{◌≡◌, ◌≢◌, ◌+◌, ◌-◌, ◌<◌, ◌≤◌, length, Some, OnOk, IfErr, IfOk, IsOk, IsErr};
ghost use Rattle.std.specs.Io.KnownBytes.{Consumes, IsAtEnd, ReadConsumes};
ghost use Rattle.mime_lookup.specs.Content.{broken, sound};
ghost use Rattle.mime_lookup.specs.Reads.{IsReadOrMemory, Reads, TriesAgain};

use crate::content::{Content, ReadFault};
use crate::stopped::Cause;
use std::alloc::Global;

/// How many interrupted reads are tried again in a lookup.
const RETRIES: u32 = 1_000;

/// How many bytes are asked for at once.
const BLOCK: usize = 4_096;

/// For how many bytes there is room at once, at most, in a front of more than one block.
const ROOM: usize = 65_536;

/// The front of a content, up to its end or to `limit` bytes, and how many bytes were delivered.
///
/// The front grows with what was delivered: with the first whole block there is room for all up to `limit`, or for 64 KiB if that is
/// less. [`Cause::Read`] comes with a failed read and with the 1,001st interruption, [`Cause::OutOfMemory`] where an allocation was
/// refused.
pub fn read_front<R: Content>(
    alloc: Global,
    reader: &mut R,
    limit: usize,
    read: &mut u64,
) -> Result<Vec<u8>, Cause>
    // Nothing was read.
    requires none { read.old ≡ 0 }
    // The front is what the reader gave, and as many bytes as were read.
    ensures front { IfOk result (λ front.
        (length front.items ≡ read.new) × Consumes (R.remaining reader.old) (R.remaining reader.new) front.items) }
    // Where fewer were read than the limit, the content is at its end.
    ensures whole { OnOk result (read.new < limit → IsAtEnd (R.remaining reader.new)) }
    // It reads no more than the limit, tries interrupted reads again, and gives up only where one failed.
    ensures reader { Reads R.remaining R.tally R.health limit (Some reader.old) (Some reader.new) read.new result }
    // A reader whose reads all fail gives no front, unless nothing is asked.
    ensures broken { OnOk result (0 < limit → R.health reader.old ≢ broken) }
    // It stops only for a read or for memory.
    ensures causes { IfErr result IsReadOrMemory }
{
    let mut front = Vec::new(alloc);
    let mut block = [0u8; BLOCK];
    let mut retries = RETRIES;
    while front.len() < limit {
        let room = BLOCK.min(limit - front.len());
        let count = read_block(reader, &mut block[..room], &mut retries)?;
        if count == 0 {
            return Ok(front);
        }
        *read += count as u64;
        if front.is_empty() && count == BLOCK {
            front.reserve(ROOM.min(limit))?;
        }
        front.extend_from_slice(&block[..count])?;
    }
    Ok(front)
}

/// One read, tried again while it is interrupted and retries are left. Answers how many bytes came.
fn read_block<R: Content>(
    reader: &mut R,
    block: &mut [u8],
    retries: &mut u32,
) -> Result<usize, Cause>
    ensures within { IfOk result (λ count. count ≤ length block.new) }
    ensures bytes { ReadConsumes (R.remaining reader.old) (R.remaining reader.new) result block.new }
    ensures tally { TriesAgain (R.tally reader.old) (R.tally reader.new) retries.old retries.new result }
    ensures sound { R.health reader.old ≡ sound → IsOk result × (R.health reader.new ≡ sound) }
    ensures broken { R.health reader.old ≡ broken → IsErr result × (R.health reader.new ≡ broken) }
    ensures fewer { retries.new ≤ retries.old }
{
    loop {
        match reader.read_piece(block) {
            Ok(count) => return Ok(count),
            Err(ReadFault::Failed) => return Err(Cause::Read),
            Err(ReadFault::Interrupted) => {
                if *retries == 0 {
                    return Err(Cause::Read);
                }
                *retries -= 1;
            }
        }
    }
}
