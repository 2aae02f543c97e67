//! What is read of contents, through readers that follow a script and tell their failures, and
//! through the same readers where they tell nothing.

use super::{
    Asked, Outcome, are_answered_alike, cache_of, is_answered_from_texts, look_up_cache,
    look_up_lists, of_globs,
};
use crate::tests::checked::alike;
use mime_base::{Database, Host};
use mime_lookup::{Cause, Order, Script, Step, Untold};
use mime_samples::texts::{EMPTY, Texts};
use std::alloc::Global;
use std::process::Abort;

struct Row {
    name: &'static str,
    globs2: &'static [u8],
    file: &'static [u8],
    content: Option<&'static [Step<'static>]>,
    order: Order,
    outcome: Outcome<'static>,
}

const NOTES: &[u8] = b"50:application/msword:*.doc\n50:text/x-notes:*.doc\n";

const MAKEFILE: &[u8] = b"50:t/m:mk\n";

static ROWS: [Row; 12] = [
    Row {
        name: "no-directories",
        globs2: b"",
        file: b"a",
        content: None,
        order: Order::GlobsFirst,
        outcome: Ok((b"application/octet-stream", 0)),
    },
    Row {
        name: "no-directories-content, empty",
        globs2: b"",
        file: b"a",
        content: Some(&[]),
        order: Order::GlobsFirst,
        outcome: Ok((b"application/x-zerosize", 0)),
    },
    Row {
        name: "no-directories-content, a line",
        globs2: b"",
        file: b"a",
        content: Some(&[Step::Piece(b"hi\n")]),
        order: Order::GlobsFirst,
        outcome: Ok((b"text/plain", 3)),
    },
    Row {
        name: "control-byte-at-128, after 128 bytes",
        globs2: b"",
        file: b"a",
        content: Some(&[Step::Piece(&[b'a'; 128]), Step::Piece(&[0])]),
        order: Order::GlobsFirst,
        outcome: Ok((b"text/plain", 128)),
    },
    Row {
        name: "control-byte-at-128, after 127 bytes",
        globs2: b"",
        file: b"a",
        content: Some(&[Step::Piece(&[b'a'; 127]), Step::Piece(&[0])]),
        order: Order::GlobsFirst,
        outcome: Ok((b"application/octet-stream", 128)),
    },
    Row {
        name: "conflict-textual",
        globs2: NOTES,
        file: b"a.doc",
        content: Some(&[Step::Piece(b"hello")]),
        order: Order::GlobsFirst,
        outcome: Ok((b"text/x-notes", 5)),
    },
    Row {
        name: "conflict-textual, empty",
        globs2: NOTES,
        file: b"a.doc",
        content: Some(&[]),
        order: Order::GlobsFirst,
        outcome: Ok((b"application/msword", 0)),
    },
    Row {
        name: "conflict-textual, not available",
        globs2: NOTES,
        file: b"a.doc",
        content: None,
        order: Order::GlobsFirst,
        outcome: Ok((b"application/msword", 0)),
    },
    Row {
        name: "one type of the globs, a read that fails",
        globs2: MAKEFILE,
        file: b"mk",
        content: Some(&[Step::Fault]),
        order: Order::GlobsFirst,
        outcome: Ok((b"t/m", 0)),
    },
    Row {
        name: "magic first, a read that fails",
        globs2: MAKEFILE,
        file: b"mk",
        content: Some(&[Step::Fault]),
        order: Order::MagicFirst,
        outcome: Err((Cause::Read, 0)),
    },
    Row {
        name: "a fault after a byte",
        globs2: b"",
        file: b"x",
        content: Some(&[Step::Piece(&[0x1f]), Step::Fault]),
        order: Order::GlobsFirst,
        outcome: Err((Cause::Read, 1)),
    },
    Row {
        name: "three pieces, an interruption between each two",
        globs2: b"",
        file: b"x",
        content: Some(&[
            Step::Piece(&[0x1f]),
            Step::Interruption,
            Step::Piece(&[0x8b]),
            Step::Interruption,
            Step::Piece(&[0x08]),
        ]),
        order: Order::GlobsFirst,
        outcome: Ok((b"application/octet-stream", 3)),
    },
];

/// A row is answered by its outcome, whether its content tells its failures or not.
fn is_answered(rt: &impl Abort, alloc: Global, row: &Row) {
    let database = of_globs(rt, alloc, row.globs2);
    let asked = Asked {
        name: row.name,
        file: row.file,
        host: Host::Little,
        order: row.order,
        outcome: row.outcome,
    };
    let told = row.content.map(Script::new);
    are_answered_alike(rt, alloc, &database, &asked, (told, told));
    let untold = (told.map(Untold), told.map(Untold));
    are_answered_alike(rt, alloc, &database, &asked, untold);
    is_answered_from_globs(rt, alloc, row.globs2, &asked, told)
}

/// What is asked has its outcome from the text of one directory in one run.
fn is_answered_from_globs(
    rt: &impl Abort,
    alloc: Global,
    globs2: &[u8],
    asked: &Asked<'_>,
    told: Option<Script<'_>>,
) {
    let texts = Texts { globs2, ..EMPTY };
    is_answered_from_texts(rt, alloc, &[texts], asked, told)
}

#[test]
fn rows(rt: HostRuntime) {
    for row in &ROWS {
        is_answered(&rt, rt.alloc(), row);
    }
}

/// A slice that is read to its end has this outcome.
fn is_at_its_end(rt: &impl Abort, name: &str, found: Outcome<'_>, rest: Option<&[u8]>) {
    alike(rt, name, found, Ok((b"text/plain", 3)));
    alike(rt, name, rest, Some(b"".as_slice()));
}

/// So it has by the lists of a database.
fn is_read_by_lists(rt: &impl Abort, alloc: Global, database: &Database) {
    let (mut content, host, order) = (Some(&b"hi\n"[..]), Host::Little, Order::GlobsFirst);
    let found = look_up_lists(alloc, database, b"a", &mut content, host, order);
    is_at_its_end(rt, "by the lists", found, content);
}

/// So it has by a cache.
fn is_read_by_cache(rt: &impl Abort, alloc: Global, cache: &[u8]) {
    let (mut content, host, order) = (Some(&b"hi\n"[..]), Host::Little, Order::GlobsFirst);
    let found = look_up_cache(alloc, cache, b"a", &mut content, host, order);
    is_at_its_end(rt, "by the cache", found, content);
}

#[test]
fn a_slice(rt: HostRuntime) {
    let alloc = rt.alloc();
    let database = of_globs(&rt, alloc, b"");
    is_read_by_lists(&rt, alloc, &database);
    is_read_by_cache(&rt, alloc, &cache_of(&rt, alloc, &database));
}
