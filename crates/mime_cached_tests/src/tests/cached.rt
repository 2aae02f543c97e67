//! Lookups over the bytes of caches, also of damaged and hostile ones. Each keeps to the bounds on what it visits
//! and compares.

mod again;
mod aliases;
mod counts;
mod cut;
mod hostile;
mod icons;
mod many;
mod name_alone;
mod names;
mod orders;
mod paid;
mod readers;
mod several;
mod subclasses;

use crate::tests::checked::alike;
use mime_base::{Counted, Database, Host, Meter};
use mime_load::Unread;
use mime_lookup::{Answer, Cause, Content, IndexedCache, Order, Stopped, look_up, look_up_again};
use mime_samples::caches::write_at;
use mime_samples::texts::{Texts, merged};
use mime_store::write_cache;
use std::alloc::Global;
use std::process::Abort;

/// The type and how much was read, or why there is none and how much was read.
type Outcome<'a> = Result<(&'a [u8], u64), (Cause, u64)>;

/// A name and a content that are looked up, and in which order.
type Asked<'a> = (&'a [u8], Option<&'a [u8]>, Order);

fn outcome_of<'a>(found: Result<Answer<'a>, Stopped>) -> Outcome<'a> {
    match found {
        Ok(answer) => Ok((answer.kind, answer.read)),
        Err(stopped) => Err((stopped.cause, stopped.read)),
    }
}

/// The database of a directory. It is boxed, so that to let it go is one call, whose proof is short.
fn database_of(rt: &impl Abort, alloc: Global, dirs: &[Texts<'_>]) -> Box<Database> {
    let database = merged(alloc, dirs).expect(rt, "a database");
    Box::new(alloc, database).expect(rt, "room")
}

/// The bytes of the cache of a directory.
fn cache_of(rt: &impl Abort, alloc: Global, dirs: &[Texts<'_>]) -> Vec<u8> {
    let database = database_of(rt, alloc, dirs);
    write_cache(alloc, &database, 8192).expect(rt, "its cache")
}

/// The bytes of a cache with other numbers at these offsets.
fn with_numbers(rt: &impl Abort, alloc: Global, cache: &[u8], numbers: &[(usize, u32)]) -> Vec<u8> {
    let mut cache = Vec::from_slice(alloc, cache).expect(rt, "a copy");
    for (at, number) in numbers {
        write_at(&mut cache, *at, &number.to_be_bytes());
    }
    cache
}

/// Whether a cache can be opened.
fn is_opened(cache: &[u8]) -> bool {
    IndexedCache::open(Counted::new(cache), &mut Meter::new()).is_ok()
}

/// A cache that is opened. It is boxed too.
fn opened<'a>(rt: &impl Abort, alloc: Global, cache: &'a [u8]) -> Box<IndexedCache<'a>> {
    let indexed = IndexedCache::open(Counted::new(cache), &mut Meter::new());
    Box::new(alloc, indexed.expect(rt, "an opened cache")).expect(rt, "room")
}

/// Which parts of a cache are read back.
#[derive(Clone, Copy)]
struct Parts {
    names: bool,
    magic: bool,
    pairs: bool,
}

/// Reads parts of a cache back: none where one that is asked for isn't.
fn read_parts(alloc: Global, indexed: &mut IndexedCache<'_>, parts: Parts) -> Result<(), Unread> {
    read_names(alloc, indexed, parts.names)?;
    read_magic(alloc, indexed, parts.magic)?;
    read_pairs(alloc, indexed, parts.pairs)
}

fn read_names(alloc: Global, indexed: &mut IndexedCache<'_>, is_asked: bool) -> Result<(), Unread> {
    if !is_asked {
        return Ok(());
    }
    indexed.read_names(alloc, &mut Meter::new())
}

fn read_magic(alloc: Global, indexed: &mut IndexedCache<'_>, is_asked: bool) -> Result<(), Unread> {
    if !is_asked {
        return Ok(());
    }
    indexed.read_magic(alloc, &mut Meter::new())
}

fn read_pairs(alloc: Global, indexed: &mut IndexedCache<'_>, is_asked: bool) -> Result<(), Unread> {
    if !is_asked {
        return Ok(());
    }
    indexed.read_pairs(alloc, &mut Meter::new())
}

/// A cache, a name and a content, and what is answered.
#[derive(Drop)]
struct Row<'a> {
    name: &'static str,
    cache: &'a [u8],
    file: &'static [u8],
    content: Option<&'static [u8]>,
    order: Order,
    outcome: Outcome<'static>,
}

/// Each row is answered by its outcome.
fn are_answered(rt: &impl Abort, alloc: Global, rows: &[Row<'_>]) {
    for row in rows {
        is_answered(rt, alloc, row);
    }
}

/// A row is answered by its outcome.
fn is_answered(rt: &impl Abort, alloc: Global, row: &Row<'_>) {
    let (mut content, host) = (row.content, Host::Little);
    let found = look_up_in(
        rt,
        alloc,
        row.cache,
        row.file,
        &mut content,
        host,
        row.order,
    );
    alike(rt, row.name, (row.order, found), (row.order, row.outcome));
}

/// The outcome of a lookup over the bytes of a cache.
fn look_up_in<'a, R: Content>(
    rt: &impl Abort,
    alloc: Global,
    cache: &'a [u8],
    file: &[u8],
    content: &mut Option<R>,
    host: Host,
    order: Order,
) -> Outcome<'a> {
    let found = look_up_over(alloc, cache, file, content, host, order);
    let (read, meter) = spent(&found);
    let within = is_within_bounds(file.len(), cache.len(), read, &meter);
    alike(rt, "bounds", (meter, within), (meter, true));
    outcome_of(found)
}

/// A lookup over the bytes of a cache, of which nothing is known.
fn look_up_over<'a, R: Content>(
    alloc: Global,
    cache: &'a [u8],
    file: &[u8],
    content: &mut Option<R>,
    host: Host,
    order: Order,
) -> Result<Answer<'a>, Stopped> {
    look_up(alloc, Counted::new(cache), file, content, host, order)
}

/// The outcome by a walk over the bytes of a cache.
fn walked<'a>(alloc: Global, cache: &'a [u8], (file, content, order): Asked<'_>) -> Outcome<'a> {
    let mut content = content;
    outcome_of(look_up_over(alloc, cache, file, &mut content, Host::Little, order))
}

/// The outcome by a cache that is opened, and by what was read back of it.
fn found_again<'a>(
    alloc: Global,
    indexed: &IndexedCache<'a>,
    (file, content, order): Asked<'_>,
) -> Outcome<'a> {
    let mut content = content;
    outcome_of(look_up_again(alloc, indexed, file, &mut content, Host::Little, order))
}

/// What is damaged at an offset isn't read back, and what is found then is what a walk finds: its fault.
fn is_fault(
    rt: &impl Abort,
    at: usize,
    read: Option<Unread>,
    walked: Option<Cause>,
    again: Option<Cause>,
) {
    alike(rt, "read back", (at, read), (at, Some(Unread::NotSpelled)));
    alike(rt, "a fault", (at, walked.is_some()), (at, true));
    alike(rt, "found", (at, again), (at, walked));
}

/// Whether what was visited and compared is within the bounds, for the lengths of a name and of a cache and for
/// what was read of the content.
fn is_within_bounds(file: usize, cache: usize, read: u64, meter: &Meter) -> bool {
    let (nodes, bytes) = bounds(short(file as u64), short(cache as u64), short(read));
    u128::from(meter.nodes) <= nodes && u128::from(meter.bytes) <= bytes
}

/// How much was read of the content and visited of the cache.
fn spent(found: &Result<Answer<'_>, Stopped>) -> (u64, Meter) {
    match found {
        Ok(answer) => (answer.read, answer.meter),
        Err(stopped) => (stopped.read, stopped.meter),
    }
}

/// A length in 32 bits; a longer one is taken for the longest of these.
fn short(length: u64) -> u32 {
    u32::try_from(length).unwrap_or(u32::MAX)
}

/// The most records that are visited and bytes that are compared, for the lengths of a name and of a cache and
/// for what was read of the content.
fn bounds(name: u32, cache: u32, read: u32) -> (u128, u128) {
    let (name, cache, read) = (u128::from(name), u128::from(cache), u128::from(read));
    let nodes = 64 * (name + 2) + 16 * cache;
    let bytes = 256 * nodes + 64 * (cache + 1) * (name + 1) + (read + 1) * cache;
    (nodes, bytes)
}
