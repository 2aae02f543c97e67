//! Contents that tell whether their reads can fail, and what follows of it.

ghost use Rattle.std.specs.Prelude.{◌≡◌, ◌≢◌, true, false, IfErr, IsErr};
ghost use Rattle.mime_base.specs.Database.{PlainDatabase, plain_database};
ghost use Rattle.mime_base.specs.Database.Limits.{IsWithinLimits};
ghost use Rattle.mime_base.specs.Format.Spells.{Spells};
ghost use Rattle.mime_lookup.specs.CheckingOrder.{globs_suffice};

use super::{Outcome, cache_of, of_globs, outcome_of};
use crate::tests::checked::alike;
use mime_base::{Counted, Database, Host};
use mime_lookup::{Answer, Cause, Content, Order, ReadFault, Stopped, look_up, look_up_plain};
use std::alloc::Global;
use std::io;
use std::io::{ErrorKind, Read};
use std::process::Abort;

/// A content each read of which fails.
#[derive(Drop)]
struct Broken;

impl Read for Broken {
    fn read(&mut self, _buffer: &mut [u8]) -> io::Result<usize> {
        Err(io::Error::from(ErrorKind::Other))
    }
}

impl Content for Broken {
    ghost use Rattle.mime_lookup.specs.Content.{broken};

    ghost health = { λ _. broken };

    fn read_piece(&mut self, _buffer: &mut [u8]) -> Result<usize, ReadFault> {
        Err(ReadFault::Failed)
    }
}

/// A lookup in bytes, which never stops for a read.
fn look_up_bytes<'a>(
    alloc: Global,
    database: &'a Database,
    name: &[u8],
    bytes: &[u8],
) -> Result<Answer<'a>, Stopped>
    ensures { IfErr result (λ stopped. stopped.cause ≢ Cause.Read) }
{
    let mut content = Some(bytes);
    look_up_plain(
        alloc,
        database,
        name,
        &mut content,
        Host::Little,
        Order::GlobsFirst,
    )
}

/// A lookup in what can't be read, which answers only what the globs alone give.
fn look_up_broken<'a>(
    alloc: Global,
    database: &'a Database,
    name: &[u8],
    order: Order,
) -> Result<Answer<'a>, Stopped>
    ensures refused { globs_suffice (plain_database database.entry.now) name.now order ≡ false → IsErr result }
    ensures not_read { globs_suffice (plain_database database.entry.now) name.now order ≡ true →
        IfErr result (λ stopped. stopped.cause ≢ Cause.Read) }
{
    let mut content = Some(Broken);
    look_up_plain(alloc, database, name, &mut content, Host::Little, order)
}

/// A lookup over a cache in bytes, which never stops for a read.
fn look_up_bytes_in<'a>(
    alloc: Global,
    cache: Counted<'a>,
    name: &[u8],
    bytes: &[u8],
) -> Result<Answer<'a>, Stopped>
    ensures { IfErr result (λ stopped. stopped.cause ≢ Cause.Read) }
{
    let mut content = Some(bytes);
    let (host, order) = (Host::Little, Order::GlobsFirst);
    look_up(alloc, cache, name, &mut content, host, order)
}

/// A lookup over a cache in what can't be read, which answers only what the globs alone give.
fn look_up_broken_in<'a>(
    alloc: Global,
    cache: Counted<'a>,
    name: &[u8],
    order: Order,
) -> Result<Answer<'a>, Stopped>
    ensures refused { (b : PlainDatabase) → IsWithinLimits b → Spells cache.entry b →
        globs_suffice b name.now order ≡ false → IsErr result }
    ensures not_read { (b : PlainDatabase) → IsWithinLimits b → Spells cache.entry b →
        globs_suffice b name.now order ≡ true → IfErr result (λ stopped. stopped.cause ≢ Cause.Read) }
{
    let mut content = Some(Broken);
    look_up(alloc, cache, name, &mut content, Host::Little, order)
}

/// What bytes of a text give to a name, by the lists and by the cache.
fn are_read(rt: &impl Abort, alloc: Global, database: &Database, cache: &[u8]) {
    let text = Ok((&b"text/plain"[..], 3));
    let found = look_up_bytes(alloc, database, b"x", b"hi\n");
    alike(rt, "a text", outcome_of(found), text);
    let found = look_up_bytes_in(alloc, Counted::new(cache), b"x", b"hi\n");
    alike(rt, "a text, by the cache", outcome_of(found), text);
}

/// A name whose content can't be read, and its outcome.
struct Unread {
    name: &'static str,
    file: &'static [u8],
    order: Order,
    outcome: Outcome<'static>,
}

static UNREAD: [Unread; 3] = [
    Unread {
        name: "one type of the globs",
        file: b"mk",
        order: Order::GlobsFirst,
        outcome: Ok((b"t/m", 0)),
    },
    Unread {
        name: "magic first",
        file: b"mk",
        order: Order::MagicFirst,
        outcome: Err((Cause::Read, 0)),
    },
    Unread {
        name: "no type of the globs",
        file: b"x",
        order: Order::GlobsFirst,
        outcome: Err((Cause::Read, 0)),
    },
];

/// A row has its outcome by the lists and by the cache.
fn is_unread(rt: &impl Abort, alloc: Global, database: &Database, cache: &[u8], row: &Unread) {
    let found = look_up_broken(alloc, database, row.file, row.order);
    alike(rt, row.name, outcome_of(found), row.outcome);
    let found = look_up_broken_in(alloc, Counted::new(cache), row.file, row.order);
    alike(rt, row.name, outcome_of(found), row.outcome);
}

#[test]
fn contents_that_tell_their_health(rt: HostRuntime) {
    let alloc = rt.alloc();
    let database = of_globs(&rt, alloc, b"50:t/m:mk\n");
    let cache = cache_of(&rt, alloc, &database);
    are_read(&rt, alloc, &database, &cache);
    for row in &UNREAD {
        is_unread(&rt, alloc, &database, &cache, row);
    }
}
