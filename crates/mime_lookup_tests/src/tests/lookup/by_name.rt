//! Types of names without content, over glob rules alone.

use super::{Asked, are_answered_alike, of_globs, outcome_of};
use crate::tests::checked::alike;
use mime_base::{Database, GlobRule, Host, Meter, glob_matches};
use mime_lookup::{Answer, Cause, Order, Stopped, look_up_plain};
use std::alloc::Global;
use std::process::Abort;

struct Row {
    name: &'static str,
    globs2: &'static [u8],
    file: &'static [u8],
    kind: &'static [u8],
}

const ARCHIVES: &[u8] = b"50:application/gzip:*.gz\n50:application/x-compressed-tar:*.tar.gz\n";

const SOURCES: &[u8] = b"50:text/x-c++src:*.C:cs\n50:text/x-csrc:*.c\n";

static ROWS: [Row; 11] = [
    Row {
        name: "no-directories",
        globs2: b"",
        file: b"a",
        kind: b"application/octet-stream",
    },
    Row {
        name: "longest-suffix",
        globs2: ARCHIVES,
        file: b"Data.tar.gz",
        kind: b"application/x-compressed-tar",
    },
    Row {
        name: "literal-before-weight",
        globs2: b"50:t/m:makefile\n90:t/f:*file\n",
        file: b"Makefile",
        kind: b"t/m",
    },
    Row {
        name: "weight-before-length",
        globs2: b"60:t/g:*.gz\n50:t/t:*.tar.gz\n",
        file: b"a.tar.gz",
        kind: b"t/g",
    },
    Row {
        name: "case-preference, a capital",
        globs2: SOURCES,
        file: b"main.C",
        kind: b"text/x-c++src",
    },
    Row {
        name: "case-preference, a small letter",
        globs2: SOURCES,
        file: b"main.c",
        kind: b"text/x-csrc",
    },
    Row {
        name: "case-preference, the longer ending in another case",
        globs2: ARCHIVES,
        file: b"Foo.TAR.gz",
        kind: b"application/x-compressed-tar",
    },
    Row {
        name: "star-weight",
        globs2: b"50:t/any:*\n10:t/g:*.gz\n",
        file: b"a.gz",
        kind: b"t/any",
    },
    Row {
        name: "conflict-textual",
        globs2: b"50:application/msword:*.doc\n50:text/x-notes:*.doc\n",
        file: b"a.doc",
        kind: b"application/msword",
    },
    Row {
        name: "an inode is no octet stream",
        globs2: b"50:inode/x:*.a\n50:t/b:*.a\n",
        file: b"q.a",
        kind: b"t/b",
    },
    Row {
        name: "the empty name",
        globs2: b"50:t/any:*\n",
        file: b"",
        kind: b"t/any",
    },
];

/// The answer to a name whose content is not available.
fn look_up_name<'a>(
    alloc: Global,
    database: &'a Database,
    name: &[u8],
) -> Result<Answer<'a>, Stopped> {
    let mut content: Option<&[u8]> = None;
    look_up_plain(
        alloc,
        database,
        name,
        &mut content,
        Host::Little,
        Order::GlobsFirst,
    )
}

/// A row is answered by its type.
fn is_answered(rt: &impl Abort, alloc: Global, row: &Row) {
    let database = of_globs(rt, alloc, row.globs2);
    let asked = Asked {
        name: row.name,
        file: row.file,
        host: Host::Little,
        order: Order::GlobsFirst,
        outcome: Ok((row.kind, 0)),
    };
    let contents: (Option<&[u8]>, Option<&[u8]>) = (None, None);
    are_answered_alike(rt, alloc, &database, &asked, contents)
}

#[test]
fn rows(rt: HostRuntime) {
    for row in &ROWS {
        is_answered(&rt, rt.alloc(), row);
    }
}

/// A name one byte past the limit.
static LONG: [u8; 4097] = [b'a'; 4097];

/// The names are refused and answered.
fn is_limit(rt: &impl Abort, alloc: Global, database: &Database) {
    let refused = look_up_name(alloc, database, &LONG).err();
    let too_long = Stopped {
        cause: Cause::NameTooLong,
        read: 0,
        meter: Meter::new(),
    };
    alike(rt, "4,097 bytes", refused, Some(too_long));
    let answer = outcome_of(look_up_name(alloc, database, &LONG[..4096]));
    let octets = Ok((b"application/octet-stream".as_slice(), 0));
    alike(rt, "4,096 bytes", answer, octets);
}

#[test]
fn name_too_long(rt: HostRuntime) {
    let database = of_globs(&rt, rt.alloc(), ARCHIVES);
    is_limit(&rt, rt.alloc(), &database);
}

/// A name counts what matching it counts.
fn is_counted(rt: &impl Abort, alloc: Global, database: &Database) {
    let counted = counted_by(&database.rules);
    let answer = look_up_name(alloc, database, b"Data.tar.gz").expect(rt, "an answer");
    let meter = answer.meter;
    alike(rt, "counted", meter, counted);
    alike(rt, "nothing is counted", meter == Meter::new(), false);
}

#[test]
fn counts_what_matching_counts(rt: HostRuntime) {
    let database = of_globs(&rt, rt.alloc(), ARCHIVES);
    is_counted(&rt, rt.alloc(), &database);
}

/// What matching a name by each rule counts.
fn counted_by(rules: &[GlobRule]) -> Meter {
    let mut meter = Meter::new();
    for rule in rules {
        glob_matches(rule.pattern.bytes(), rule.cased, b"Data.tar.gz", &mut meter);
    }
    meter
}

/// A cause is told so, and what stopped for it too.
fn is_told(rt: &impl Abort, alloc: Global, cause: Cause, text: &str) {
    let stopped = Stopped {
        cause,
        read: 0,
        meter: Meter::new(),
    };
    let told = format!(in alloc; "{cause}").expect(rt, "a text");
    alike(rt, text, told.as_str(), text);
    let told = format!(in alloc; "{stopped}").expect(rt, "a text");
    alike(rt, text, told.as_str(), text);
}

#[test]
fn texts_of_causes(rt: HostRuntime) {
    is_told(&rt, rt.alloc(), Cause::NameTooLong, "name too long");
    is_told(&rt, rt.alloc(), Cause::OutOfMemory, "out of memory")
}
