//! Caches that are built with the twins of case-sensitive rules, and without.

use crate::tests::ran::says;
use mime_fakes::{Drawer, Entry, Said, Shelf};
use std::alloc::Global;
use std::process::Abort;
use std::test::Fail;

const GLOBS2: &[u8] = b"50:application/x-core:core:cs\n50:application/x-core:core\n\
50:text/x-genie:*.gs:cs\n50:text/x-genie:*.gs\n50:text/x-log:*.log\n";

static ENTRIES: &[(&str, Entry<'static>)] = &[
    ("/s/mime/globs2", Entry::Bytes(GLOBS2)),
    // What makes a twin of a rule may be another directory's.
    ("/cs/mime/globs2", Entry::Bytes(b"50:t/a:a:cs\n")),
    (
        "/less/mime/globs2",
        Entry::Bytes(b"50:t/a:a\n40:t/a:a\n50:t/b:a\n"),
    ),
    ("A.GS", Entry::Bytes(b"hi\n")),
    ("cache", Entry::Bytes(b"old")),
];

/// Words, and what they print.
struct Row {
    words: &'static [&'static str],
    out: &'static str,
}

static WITH_TWINS: [Row; 3] = [
    Row {
        words: &["build", "-d", "/s", "-o", "cache"],
        out: "",
    },
    Row {
        words: &["list", "-c", "cache"],
        out: "50:application/x-core:core:cs\n50:application/x-core:core\n\
50:text/x-log:*.log\n50:text/x-genie:*.gs:cs\n50:text/x-genie:*.gs\n",
    },
    Row {
        words: &[
            "type",
            "-c",
            "cache",
            "--name-only",
            "core",
            "CORE",
            "a.gs",
            "A.GS",
            "A.LOG",
        ],
        out: "core: application/x-core\nCORE: application/x-core\na.gs: text/x-genie\nA.GS: text/x-genie\nA.LOG: text/x-log\n",
    },
];

// The names of other letters are as without rules, by content where it is asked.
static WITHOUT_TWINS: [Row; 4] = [
    Row {
        words: &["build", "--drop-twins", "-d", "/s", "-o", "cache"],
        out: "",
    },
    Row {
        words: &["list", "-c", "cache"],
        out: "50:application/x-core:core:cs\n50:text/x-log:*.log\n50:text/x-genie:*.gs:cs\n",
    },
    Row {
        words: &[
            "type",
            "-c",
            "cache",
            "--name-only",
            "core",
            "CORE",
            "a.gs",
            "A.GS",
            "A.LOG",
        ],
        out: "core: application/x-core\nCORE: application/octet-stream\n\
a.gs: text/x-genie\nA.GS: application/octet-stream\nA.LOG: text/x-log\n",
    },
    Row {
        words: &["type", "-c", "cache", "A.GS"],
        out: "A.GS: text/plain\n",
    },
];

static OF_TWO_DIRECTORIES: [Row; 2] = [
    Row {
        words: &["build", "-d", "/less:/cs", "-o", "cache", "--drop-twins"],
        out: "",
    },
    Row {
        words: &["list", "-c", "cache"],
        out: "40:t/a:a\n50:t/b:a\n50:t/a:a:cs\n",
    },
];

/// One run after another prints these, and says nothing.
fn are_printed(rt: &impl Abort, alloc: Global, rows: &[Row]) -> Result<(), Fail> {
    let mut files = Drawer {
        shelf: Shelf { entries: ENTRIES },
        path: "cache",
        ending: ".new",
        laid: None,
    };
    for row in rows {
        let wanted = Said {
            status: 0,
            out: row.out,
            err: "",
        };
        says(rt, alloc, row.out, row.words, &mut files, wanted)?;
    }
    Ok(())
}

#[test]
fn twins_are_built(rt: HostRuntime) -> Result<(), Fail> {
    are_printed(&rt, rt.alloc(), &WITH_TWINS)
}

#[test]
fn twins_are_dropped(rt: HostRuntime) -> Result<(), Fail> {
    are_printed(&rt, rt.alloc(), &WITHOUT_TWINS)
}

#[test]
fn twins_of_two_directories(rt: HostRuntime) -> Result<(), Fail> {
    are_printed(&rt, rt.alloc(), &OF_TWO_DIRECTORIES)
}
