//! Types of names and contents, by the lists of a database, by the bytes of its cache, and from the texts of directories in
//! one run. A [`Row`] is a lookup over such texts; where it has a content, that comes also in pieces, with interruptions and failures.

mod all_globs;
mod by_name;
mod globs;
mod health;
mod hits;
mod indexed;
mod limits;
mod magic;
mod magic_index;
mod near_front;
mod pieces;
mod reads;
mod sample;
mod shortest;
mod sniffed;
mod steps;

use crate::tests::checked::alike;
use crate::tests::lookup::pieces::{is_answered_in_pieces, is_interrupted, is_refused_by_failures};
use mime_base::{Counted, Database, Host, Meter};
use mime_lookup::{
    Answer, Cause, Content, IndexedCache, IndexedDatabase, Order, Stopped, look_up,
    look_up_indexed, look_up_plain,
};
use mime_samples::texts::{EMPTY, Texts, merged, of_rules};
use mime_store::write_cache;
use mime_tool::{AnswerFault, answer};
use std::alloc::Global;
use std::process::Abort;

/// The type and how much was read, or why there is none and how much was read.
pub type Outcome<'a> = Result<(&'a [u8], u64), (Cause, u64)>;

pub fn outcome_of<'a>(found: Result<Answer<'a>, Stopped>) -> Outcome<'a> {
    match found {
        Ok(answer) => Ok((answer.kind, answer.read)),
        Err(stopped) => Err((stopped.cause, stopped.read)),
    }
}

/// The database of directories. It is boxed, so that to let it go is one call, whose proof is short.
pub fn database_of(rt: &impl Abort, alloc: Global, dirs: &[Texts<'_>]) -> Box<Database> {
    let database = merged(alloc, dirs).expect(rt, "a database");
    Box::new(alloc, database).expect(rt, "room")
}

/// The database of a text of glob rules, boxed too.
fn of_globs(rt: &impl Abort, alloc: Global, globs2: &[u8]) -> Box<Database> {
    let database = of_rules(alloc, globs2).expect(rt, "a database");
    Box::new(alloc, database).expect(rt, "room")
}

/// The database of a text of magic.
fn of_magic(rt: &impl Abort, alloc: Global, magic: &[u8]) -> Box<Database> {
    let texts = Texts { magic, ..EMPTY };
    database_of(rt, alloc, &[texts])
}

/// The bytes of the cache of a database.
fn cache_of(rt: &impl Abort, alloc: Global, database: &Database) -> Vec<u8> {
    write_cache(alloc, database, usize::MAX).expect(rt, "its cache")
}

/// A name that is looked up, and its outcome.
#[derive(Clone, Copy)]
struct Asked<'a> {
    name: &'static str,
    file: &'a [u8],
    host: Host,
    order: Order,
    outcome: Outcome<'static>,
}

/// The lists of a database and the bytes of its cache have the same outcome, each with one of two equal contents.
fn are_answered_alike<R: Content + Drop>(
    rt: &impl Abort,
    alloc: Global,
    database: &Database,
    asked: &Asked<'_>,
    contents: (Option<R>, Option<R>),
) {
    let (of_lists, of_cache) = contents;
    is_answered_by_lists(rt, alloc, database, asked, of_lists);
    is_answered_by_cache(rt, alloc, &cache_of(rt, alloc, database), asked, of_cache);
}

/// What is asked has its outcome by the lists of a database.
fn is_answered_by_lists<R: Content + Drop>(
    rt: &impl Abort,
    alloc: Global,
    database: &Database,
    asked: &Asked<'_>,
    content: Option<R>,
) {
    let (mut content, file) = (content, asked.file);
    let found = look_up_lists(alloc, database, file, &mut content, asked.host, asked.order);
    is_outcome(rt, asked.name, "by the lists", found, asked.outcome);
}

/// What is asked has its outcome by the bytes of a cache.
fn is_answered_by_cache<R: Content + Drop>(
    rt: &impl Abort,
    alloc: Global,
    cache: &[u8],
    asked: &Asked<'_>,
    content: Option<R>,
) {
    let (mut content, file) = (content, asked.file);
    let found = look_up_cache(alloc, cache, file, &mut content, asked.host, asked.order);
    is_outcome(rt, asked.name, "by the cache", found, asked.outcome);
}

/// The outcome of a lookup by the lists of a database, of which nothing is known.
fn look_up_lists<'a, R: Content>(
    alloc: Global,
    database: &'a Database,
    file: &[u8],
    content: &mut Option<R>,
    host: Host,
    order: Order,
) -> Outcome<'a> {
    outcome_of(look_up_plain(alloc, database, file, content, host, order))
}

/// The same of a name and a content.
fn by_lists<'a>(
    alloc: Global,
    database: &'a Database,
    name: &[u8],
    content: Option<&[u8]>,
    (host, order): (Host, Order),
) -> Outcome<'a> {
    let mut content = content;
    look_up_lists(alloc, database, name, &mut content, host, order)
}

/// The outcome of a lookup of a name and a content by an index, of which nothing is known.
fn by_index<'a>(
    alloc: Global,
    index: &IndexedDatabase<'a>,
    name: &[u8],
    content: Option<&[u8]>,
    (host, order): (Host, Order),
) -> Outcome<'a> {
    let mut content = content;
    outcome_of(look_up_indexed(alloc, index, name, &mut content, host, order))
}

/// The outcome of a lookup over the bytes of a cache, of which nothing is known.
fn look_up_cache<'a, R: Content>(
    alloc: Global,
    cache: &'a [u8],
    file: &[u8],
    content: &mut Option<R>,
    host: Host,
    order: Order,
) -> Outcome<'a> {
    outcome_of(look_up(alloc, Counted::new(cache), file, content, host, order))
}

/// What was found this way is what is wanted.
fn is_outcome(rt: &impl Abort, name: &str, way: &str, found: Outcome<'_>, wanted: Outcome<'_>) {
    alike(rt, name, (way, found), (way, wanted));
}

/// A name in these directories, a content, and the type and how much was read of it.
#[derive(Drop)]
struct Row {
    name: &'static str,
    dirs: &'static [Texts<'static>],
    file: &'static [u8],
    content: Option<&'static [u8]>,
    host: Host,
    order: Order,
    kind: &'static [u8],
    read: u64,
}

/// Each row is answered by its type.
fn are_answered(rt: &impl Abort, alloc: Global, rows: &[Row]) {
    for row in rows {
        is_answered(rt, alloc, row);
    }
}

/// A row is answered by its type.
fn is_answered(rt: &impl Abort, alloc: Global, row: &Row) {
    let asked = Asked {
        name: row.name,
        file: row.file,
        host: row.host,
        order: row.order,
        outcome: Ok((row.kind, row.read)),
    };
    let database = database_of(rt, alloc, row.dirs);
    is_answered_by_each(rt, alloc, &database, &asked, row.content);
    is_answered_from_texts(rt, alloc, row.dirs, &asked, row.content);
}

/// What is asked has its outcome by the lists, by the cache and by the index of a database.
fn is_answered_by_each(
    rt: &impl Abort,
    alloc: Global,
    database: &Database,
    asked: &Asked<'_>,
    content: Option<&[u8]>,
) {
    are_answered_alike(rt, alloc, database, asked, (content, content));
    is_answered_by_index(rt, alloc, database, asked, content);
    if let Some(content) = content {
        is_answered_by_reads(rt, alloc, database, asked, content);
    }
}

/// The index of a database has the outcome too.
fn is_answered_by_index(
    rt: &impl Abort,
    alloc: Global,
    database: &Database,
    asked: &Asked<'_>,
    content: Option<&[u8]>,
) {
    let index = index_of(rt, alloc, database);
    let way = (asked.host, asked.order);
    let found = by_index(alloc, &index, asked.file, content, way);
    is_outcome(rt, asked.name, "by the index", found, asked.outcome);
}

/// The index of a database. It is boxed, so that to let it go is one call, whose proof is short.
pub fn unprepared_index_of<'a>(
    rt: &impl Abort,
    alloc: Global,
    database: &'a Database,
) -> Box<IndexedDatabase<'a>> {
    let index = IndexedDatabase::new(alloc, database).expect(rt, "an index");
    Box::new(alloc, index).expect(rt, "room")
}

/// The index of a database, with its magic prepared.
pub fn index_of<'a>(
    rt: &impl Abort,
    alloc: Global,
    database: &'a Database,
) -> Box<IndexedDatabase<'a>> {
    let mut index = unprepared_index_of(rt, alloc, database);
    index.prepare_magic(alloc).expect(rt, "its magic");
    index
}

/// A cache that is opened. It is boxed too.
pub fn opened<'a>(rt: &impl Abort, alloc: Global, cache: &'a [u8]) -> Box<IndexedCache<'a>> {
    let indexed = IndexedCache::open(Counted::new(cache), &mut Meter::new());
    Box::new(alloc, indexed.expect(rt, "an opened cache")).expect(rt, "room")
}

/// The content comes in pieces, with interruptions and failures.
fn is_answered_by_reads(
    rt: &impl Abort,
    alloc: Global,
    database: &Database,
    asked: &Asked<'_>,
    content: &[u8],
) {
    is_answered_in_pieces(rt, alloc, database, asked, content);
    is_interrupted(rt, alloc, database, asked, content);
    is_refused_by_failures(rt, alloc, database, asked, content)
}

/// What is asked has its outcome from the texts of directories in one run.
fn is_answered_from_texts<R: Content + Drop>(
    rt: &impl Abort,
    alloc: Global,
    dirs: &[Texts<'_>],
    asked: &Asked<'_>,
    content: Option<R>,
) {
    let (mut content, file) = (content, asked.file);
    match answer(alloc, dirs, file, &mut content, asked.host, asked.order) {
        Err(AnswerFault::Lookup(stopped)) => {
            let found = Err((stopped.cause, stopped.read));
            is_outcome(rt, asked.name, "from texts", found, asked.outcome);
        }
        found => {
            let found = found.expect(rt, "an answer");
            let found = Ok((found.kind.as_slice(), found.read));
            is_outcome(rt, asked.name, "from texts", found, asked.outcome);
        }
    }
}
