//! What `isa` and `icon` print over data directories, and what stops them.
//!
//! No cache is made of the directories, so the answers are those of their text files as the rules of
//! the formats have them.

use crate::tests::ran::says_over;
use mime_fakes::{Entry, Said};
use std::alloc::Global;
use std::process::Abort;
use std::test::Fail;

struct Row {
    name: &'static str,
    words: &'static [&'static str],
    status: u8,
    out: &'static str,
    err: &'static str,
}

const ROW: Row = Row {
    name: "",
    words: &[],
    status: 0,
    out: "",
    err: "",
};

// The first directory is preferred. The third has a malformed line, and the last two stop what is asked.
static ENTRIES: &[(&str, Entry<'static>)] = &[
    ("/a/mime/icons", Entry::Bytes(b"t/g:first\n")),
    ("/a/mime/aliases", Entry::Bytes(b"t/h t/g\nt/top d/top\n")),
    (
        "/a/mime/subclasses",
        Entry::Bytes(
            b"t/g t/m\nd/bottom d/left\nd/bottom d/right\nd/right t/top\nl/a l/b\nl/b l/a\n",
        ),
    ),
    ("/b/mime/icons", Entry::Bytes(b"t/g:second\nt/m:pkg\n")),
    (
        "/b/mime/generic-icons",
        Entry::Bytes(b"t/g:package-x-generic\n"),
    ),
    ("/b/mime/subclasses", Entry::Bytes(b"t/m t/base\n")),
    ("/bad/mime/subclasses", Entry::Bytes(b"t/g\n")),
    ("/headless/mime/magic", Entry::Bytes(b"MIME")),
    ("/shut/mime/icons", Entry::Unreadable),
];

static IS_A: [Row; 15] = [
    Row {
        name: "a type is itself",
        words: &["isa", "-d", "/a", "t/g", "t/g"],
        out: "yes\n",
        ..ROW
    },
    Row {
        name: "an alias has the parent of its type",
        words: &["isa", "-d", "/a", "t/h", "t/m"],
        out: "yes\n",
        ..ROW
    },
    Row {
        name: "the base is an alias",
        words: &["isa", "-d", "/a", "d/right", "t/top"],
        out: "yes\n",
        ..ROW
    },
    Row {
        name: "a parent is no subclass",
        words: &["isa", "-d", "/a", "t/m", "t/g"],
        status: 1,
        out: "no\n",
        ..ROW
    },
    Row {
        name: "the second of two parents, and its parent by an alias",
        words: &["isa", "-d", "/a", "d/bottom", "d/top"],
        out: "yes\n",
        ..ROW
    },
    Row {
        name: "two types that are each above the other",
        words: &["isa", "-d", "/a", "l/a", "t/m"],
        status: 1,
        out: "no\n",
        ..ROW
    },
    Row {
        name: "the parent's parent is in another directory",
        words: &["isa", "-d", "/a:/b", "t/h", "t/base"],
        out: "yes\n",
        ..ROW
    },
    Row {
        name: "it is not in the first alone",
        words: &["isa", "-d", "/a", "t/h", "t/base"],
        status: 1,
        out: "no\n",
        ..ROW
    },
    Row {
        name: "text is plain text without any pair",
        words: &["isa", "-d", "", "text/x", "text/plain"],
        out: "yes\n",
        err: "mimelook: no data directories\n",
        ..ROW
    },
    Row {
        name: "a folder is no stream of bytes, and that no text file is there is said before",
        words: &[
            "isa",
            "-d",
            "/none",
            "inode/directory",
            "application/octet-stream",
        ],
        status: 1,
        out: "no\n",
        err: "mimelook: /none: no text files, such as /none/mime/globs2\n",
    },
    Row {
        name: "a malformed line is said before",
        words: &["isa", "-d", "/bad:/a", "t/g", "t/m"],
        out: "yes\n",
        err: "mimelook: /bad/mime/subclasses: line 1 ignored\n",
        ..ROW
    },
    Row {
        name: "refused magic, after a malformed line",
        words: &["isa", "-d", "/bad:/headless", "t/g", "t/g"],
        status: 3,
        err: "mimelook: /bad/mime/subclasses: line 1 ignored\n\
            mimelook: /headless/mime/magic: magic no header at 0\n",
        ..ROW
    },
    Row {
        name: "a file that can't be read",
        words: &["isa", "-d", "/a:/shut", "t/g", "t/g"],
        status: 3,
        err: "mimelook: /shut/mime/icons: cannot read\n",
        ..ROW
    },
    Row {
        name: "a type that is none, before the directories",
        words: &["isa", "-d", "/headless", "t", "t/m"],
        status: 2,
        err: "mimelook: not a type: t\n",
        ..ROW
    },
    Row {
        name: "a base that is none, before the directories",
        words: &["isa", "-d", "/headless", "t/m", "m"],
        status: 2,
        err: "mimelook: not a type: m\n",
        ..ROW
    },
];

static ICON: [Row; 9] = [
    Row {
        name: "an icon of an alias's type",
        words: &["icon", "-d", "/a", "t/h"],
        out: "icon: first\ngeneric: t-x-generic\n",
        ..ROW
    },
    Row {
        name: "the preferred directory's icon, and the other's generic icon",
        words: &["icon", "-d", "/a:/b", "t/h"],
        out: "icon: first\ngeneric: package-x-generic\n",
        ..ROW
    },
    Row {
        name: "the same the other way round",
        words: &["icon", "-d", "/b:/a", "t/g"],
        out: "icon: second\ngeneric: package-x-generic\n",
        ..ROW
    },
    Row {
        name: "an icon without a generic one",
        words: &["icon", "-d", "/b", "t/m"],
        out: "icon: pkg\ngeneric: t-x-generic\n",
        ..ROW
    },
    Row {
        name: "no icon, of a type with two slashes",
        words: &["icon", "-d", "/b", "te/x/y"],
        out: "icon: te-x-y\ngeneric: te-x-generic\n",
        ..ROW
    },
    Row {
        name: "no directories",
        words: &["icon", "-d", "", "t/g"],
        out: "icon: t-g\ngeneric: t-x-generic\n",
        err: "mimelook: no data directories\n",
        ..ROW
    },
    Row {
        name: "refused magic",
        words: &["icon", "-d", "/a:/headless", "t/g"],
        status: 3,
        err: "mimelook: /headless/mime/magic: magic no header at 0\n",
        ..ROW
    },
    Row {
        name: "a file that can't be read, after a malformed line",
        words: &["icon", "-d", "/bad:/shut", "t/g"],
        status: 3,
        err: "mimelook: /bad/mime/subclasses: line 1 ignored\n\
            mimelook: /shut/mime/icons: cannot read\n",
        ..ROW
    },
    Row {
        name: "a word that is no type, before the directories",
        words: &["icon", "-d", "/headless", "t"],
        status: 2,
        err: "mimelook: not a type: t\n",
        ..ROW
    },
];

/// A row is answered by its texts.
fn is_answered(rt: &impl Abort, alloc: Global, row: &Row) -> Result<(), Fail> {
    let wanted = Said {
        status: row.status,
        out: row.out,
        err: row.err,
    };
    says_over(rt, alloc, row.name, row.words, ENTRIES, wanted)
}

fn are_answered(rt: &impl Abort, alloc: Global, rows: &[Row]) -> Result<(), Fail> {
    for row in rows {
        is_answered(rt, alloc, row)?;
    }
    Ok(())
}

#[test]
fn subclasses_over_directories(rt: HostRuntime) -> Result<(), Fail> {
    are_answered(&rt, rt.alloc(), &IS_A)
}

#[test]
fn icons_over_directories(rt: HostRuntime) -> Result<(), Fail> {
    are_answered(&rt, rt.alloc(), &ICON)
}
