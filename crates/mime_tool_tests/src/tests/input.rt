//! What is printed for standard input, under a name.

use crate::tests::ran::ends;
use mime_fakes::{Entry, Page, Said, Shelf, UNSET, ended_by};
use mime_tool::Process;
use std::alloc::Global;
use std::process::Abort;
use std::test::Fail;

/// Words, what standard input gives, and what the run comes to.
struct Row {
    name: &'static str,
    words: &'static [&'static str],
    input: Page<'static>,
    status: u8,
    out: &'static str,
    err: &'static str,
}

static ENTRIES: &[(&str, Entry<'static>)] = &[
    ("/s/mime/globs2", Entry::Bytes(b"50:t/a:*.a\n")),
    (
        "/s/mime/magic",
        Entry::Bytes(b"MIME-Magic\0\n[80:image/x-sig]\n>0=\0\x03SIG\n"),
    ),
    ("x", Entry::Bytes(b"a FILE of this name is not asked")),
];

const SIGNED: Page<'static> = Page::Bytes(b"SIG and more");

const ROW: Row = Row {
    name: "",
    words: &[],
    input: SIGNED,
    status: 0,
    out: "",
    err: "",
};

static ROWS: [Row; 15] = [
    Row {
        name: "content decides",
        words: &["plain", "-d", "/s", "--stdin", "x"],
        out: "x: image/x-sig\n",
        ..ROW
    },
    Row {
        name: "by a cache",
        words: &["type", "-d", "/s", "--stdin", "x", "-b"],
        out: "image/x-sig\n",
        ..ROW
    },
    Row {
        name: "text",
        words: &["type", "--stdin=x", "-0", "-d/s"],
        input: Page::Bytes(b"hello\n"),
        out: "x\0text/plain\0",
        ..ROW
    },
    Row {
        name: "nothing to read",
        words: &["plain", "-d", "/s", "--stdin", "x"],
        input: Page::Bytes(b""),
        out: "x: application/x-zerosize\n",
        ..ROW
    },
    Row {
        name: "a name that decides reads nothing",
        words: &["plain", "-d", "/s", "--stdin", "x.a"],
        input: Page::Unreadable,
        out: "x.a: t/a\n",
        ..ROW
    },
    Row {
        name: "what follows the last slash decides",
        words: &["type", "-d", "/s", "--stdin", "d.b/e/x.a"],
        input: Page::Unreadable,
        out: "d.b/e/x.a: t/a\n",
        ..ROW
    },
    Row {
        name: "an empty name",
        words: &["type", "-d", "/s", "--stdin", ""],
        out: ": image/x-sig\n",
        ..ROW
    },
    Row {
        name: "by name alone",
        words: &["plain", "-d", "/s", "--name-only", "--stdin", "x"],
        input: Page::Unreadable,
        out: "x: application/octet-stream\n",
        ..ROW
    },
    Row {
        name: "by content alone",
        words: &["plain", "-d", "/s", "--content-only", "--stdin", "x.a"],
        out: "x.a: image/x-sig\n",
        ..ROW
    },
    Row {
        name: "content first",
        words: &["type", "-d", "/s", "--magic-first", "--stdin", "x.a"],
        out: "x.a: image/x-sig\n",
        ..ROW
    },
    Row {
        name: "a read fails",
        words: &["plain", "-d", "/s", "--stdin", "d/x"],
        input: Page::Unreadable,
        status: 1,
        err: "mimelook: d/x: cannot read\n",
        ..ROW
    },
    Row {
        name: "a read fails under a name that is escaped",
        words: &["type", "-d", "/s", "--escape", "--stdin", "x\n"],
        input: Page::Unreadable,
        status: 1,
        err: "mimelook: x\\012: cannot read\n",
        ..ROW
    },
    Row {
        name: "its kind is not asked",
        words: &["type", "-d", "/s", "--inode", "--stdin", "x"],
        out: "x: image/x-sig\n",
        ..ROW
    },
    Row {
        name: "the data are refused",
        words: &["type", "-c", "none", "--stdin", "x"],
        status: 3,
        err: "mimelook: none: cannot read\n",
        ..ROW
    },
    Row {
        name: "FILEs read none of it",
        words: &["plain", "-d", "/s", "x"],
        input: Page::Unreadable,
        out: "x: text/plain\n",
        ..ROW
    },
];

fn is_answered(rt: &impl Abort, alloc: Global, row: &Row) -> Result<(), Fail> {
    let process = Process {
        environment: Some(UNSET),
        input: row.input,
        to_terminal: false,
    };
    let mut files = Shelf { entries: ENTRIES };
    let found = ended_by(alloc, row.words, &[], process, &mut files);
    let wanted = Said {
        status: row.status,
        out: row.out,
        err: row.err,
    };
    ends(rt, row.name, &found, wanted)
}

#[test]
fn answers_standard_input(rt: HostRuntime) -> Result<(), Fail> {
    for row in &ROWS {
        is_answered(&rt, rt.alloc(), row)?;
    }
    Ok(())
}
