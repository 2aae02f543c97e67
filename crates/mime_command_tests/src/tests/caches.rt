//! What the commands over a cache print and say.

mod answers;
mod checks;
mod cost;
mod explains;
mod failing;
mod faults;
mod files;
mod output;
mod prepared;

use crate::tests::ran::says_over;
use mime_fakes::{Entry, Said};
use mime_samples::caches::SAMPLE;
use std::alloc::Global;
use std::process::Abort;
use std::test::Fail;

/// What is stored at the path `/c`: a front of the cache, with one byte changed.
#[derive(Clone, Copy)]
struct Cache {
    length: usize,
    at: usize,
    byte: u8,
    zeros: usize,
}

const WHOLE: Cache = Cache {
    length: 240,
    at: 0,
    byte: 0,
    zeros: 0,
};

/// Words over a cache, and the status and the texts that answer them.
#[derive(Clone, Copy)]
struct Row {
    name: &'static str,
    words: &'static [&'static str],
    cache: Cache,
    status: u8,
    out: &'static str,
    err: &'static str,
}

const ROW: Row = Row {
    name: "",
    words: &[],
    cache: WHOLE,
    status: 0,
    out: "",
    err: "",
};

/// Each row is answered by its texts.
fn are_answered(rt: &impl Abort, alloc: Global, rows: &[Row]) -> Result<(), Fail> {
    for row in rows {
        is_answered(rt, alloc, row)?;
    }
    Ok(())
}

/// A row is answered by its texts.
fn is_answered(rt: &impl Abort, alloc: Global, row: &Row) -> Result<(), Fail> {
    let cache = bytes_of(alloc, &row.cache)?;
    is_answered_over(rt, alloc, row, cache.as_slice())
}

/// A row is answered by its texts over this cache.
fn is_answered_over(rt: &impl Abort, alloc: Global, row: &Row, cache: &[u8]) -> Result<(), Fail> {
    let wanted = Said {
        status: row.status,
        out: row.out,
        err: row.err,
    };
    let entries = entries_beside(cache);
    says_over(rt, alloc, row.name, row.words, &entries, wanted)
}

/// The cache, and the files beside it.
fn entries_beside<'a>(cache: &'a [u8]) -> [(&'a str, Entry<'a>); 5] {
    [
        ("/c", Entry::Bytes(cache)),
        ("/closed", Entry::Closed),
        ("/folder", Entry::Folder),
        ("/x", Entry::Bytes(b"\x1f\x8b\x08")),
        ("/mk", Entry::Bytes(b"\x1f\x8b\x08")),
    ]
}

/// The sample with one byte changed, unless it is the first.
fn changed(at: usize, byte: u8) -> [u8; 240] {
    let mut cache = SAMPLE;
    if 0 < at && at < 240 {
        cache[at] = byte;
    }
    cache
}

static ZEROS: [u8; 960] = [0; 960];

fn bytes_of(alloc: Global, cache: &Cache) -> Result<Vec<u8>, Fail> {
    let sample = changed(cache.at, cache.byte);
    let mut bytes = sample[..cache.length.min(240)].to_vec(alloc)?;
    bytes.extend_from_slice(&ZEROS[..cache.zeros.min(960)])?;
    Ok(bytes)
}
