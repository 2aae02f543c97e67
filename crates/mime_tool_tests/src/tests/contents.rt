//! What is printed for files that are opened.

use crate::tests::ran::says_over;
use mime_fakes::{Entry, Said};
use std::alloc::Global;
use std::process::Abort;
use std::test::Fail;

struct Row {
    name: &'static str,
    words: &'static [&'static str],
    entries: &'static [(&'static str, Entry<'static>)],
    status: u8,
    out: &'static str,
    err: &'static str,
}

/// Each row is answered by its texts.
fn are_answered(rt: &impl Abort, alloc: Global, rows: &[Row]) -> Result<(), Fail> {
    for row in rows {
        let wanted = Said {
            status: row.status,
            out: row.out,
            err: row.err,
        };
        says_over(rt, alloc, row.name, row.words, row.entries, wanted)?;
    }
    Ok(())
}

// 127 bytes `a`, and a zero byte.
const ZERO_AT_127: &[u8] = b"aaaaaaaaaaaaaaaaaaaaaaaaaaaaaaaaaaaaaaaaaaaaaaaaaaaaaaaaaaaaaaaa\
    aaaaaaaaaaaaaaaaaaaaaaaaaaaaaaaaaaaaaaaaaaaaaaaaaaaaaaaaaaaaaaa\0";

// 128 bytes `a`, and a zero byte.
const ZERO_AT_128: &[u8] = b"aaaaaaaaaaaaaaaaaaaaaaaaaaaaaaaaaaaaaaaaaaaaaaaaaaaaaaaaaaaaaaaa\
    aaaaaaaaaaaaaaaaaaaaaaaaaaaaaaaaaaaaaaaaaaaaaaaaaaaaaaaaaaaaaaaa\0";

const NOTES: &[u8] = b"50:application/msword:*.doc\n50:text/x-notes:*.doc\n";

const GLOBS: &[u8] = b"50:t/a:*.a\n";

const HIGH: &[u8] = b"MIME-Magic\0\n[80:image/x-sig]\n>0=\0\x03SIG\n";

const LOW: &[u8] = b"MIME-Magic\0\n[79:image/x-sig]\n>0=\0\x03SIG\n";

const SIGNED: &[u8] = b"SIG and more";

const HELLO: &[u8] = b"hello";

static BY_CONTENT: [Row; 3] = [
    Row {
        name: "no rules",
        words: &["plain", "-d", "", "e", "t", "b", "l"],
        entries: &[
            ("e", Entry::Bytes(b"")),
            ("t", Entry::Bytes(b"hi\n")),
            ("b", Entry::Bytes(ZERO_AT_127)),
            ("l", Entry::Bytes(ZERO_AT_128)),
        ],
        status: 0,
        out: "e: application/x-zerosize\nt: text/plain\n\
            b: application/octet-stream\nl: text/plain\n",
        err: "mimelook: no data directories\n",
    },
    Row {
        name: "content decides among kept rules",
        words: &["plain", "-d", "/s", "x/a.doc"],
        entries: &[
            ("/s/mime/globs2", Entry::Bytes(NOTES)),
            ("x/a.doc", Entry::Bytes(HELLO)),
        ],
        status: 0,
        out: "x/a.doc: text/x-notes\n",
        err: "",
    },
    Row {
        name: "the name alone decides among them",
        words: &["plain", "-d", "/s", "--name-only", "x/a.doc"],
        entries: &[
            ("/s/mime/globs2", Entry::Bytes(NOTES)),
            ("x/a.doc", Entry::Bytes(HELLO)),
        ],
        status: 0,
        out: "x/a.doc: application/msword\n",
        err: "",
    },
];

#[test]
fn answers_by_content(rt: HostRuntime) -> Result<(), Fail> {
    are_answered(&rt, rt.alloc(), &BY_CONTENT)
}

static IN_ORDER: [Row; 6] = [
    Row {
        name: "globs before magic",
        words: &["plain", "-d", "/s", "x.a", "x"],
        entries: &[
            ("/s/mime/globs2", Entry::Bytes(GLOBS)),
            ("/s/mime/magic", Entry::Bytes(HIGH)),
            ("x.a", Entry::Bytes(SIGNED)),
            ("x", Entry::Bytes(SIGNED)),
        ],
        status: 0,
        out: "x.a: t/a\nx: image/x-sig\n",
        err: "",
    },
    Row {
        name: "magic of high priority before globs",
        words: &["plain", "-d", "/s", "--magic-first", "x.a", "y.a"],
        entries: &[
            ("/s/mime/globs2", Entry::Bytes(GLOBS)),
            ("/s/mime/magic", Entry::Bytes(HIGH)),
            ("x.a", Entry::Bytes(SIGNED)),
            ("y.a", Entry::Bytes(HELLO)),
        ],
        status: 0,
        out: "x.a: image/x-sig\ny.a: t/a\n",
        err: "",
    },
    Row {
        name: "globs before magic of low priority",
        words: &["plain", "-d", "/s", "--magic-first", "x.a"],
        entries: &[
            ("/s/mime/globs2", Entry::Bytes(GLOBS)),
            ("/s/mime/magic", Entry::Bytes(LOW)),
            ("x.a", Entry::Bytes(SIGNED)),
        ],
        status: 0,
        out: "x.a: t/a\n",
        err: "",
    },
    Row {
        name: "content among all globs",
        words: &["plain", "-d", "/s", "--all-globs", "x.a", "y.a", "z.a"],
        entries: &[
            (
                "/s/mime/globs2",
                Entry::Bytes(b"50:t/a:*.a\n40:image/x-sig:*.a\n"),
            ),
            ("/s/mime/magic", Entry::Bytes(LOW)),
            ("x.a", Entry::Bytes(SIGNED)),
            ("y.a", Entry::Bytes(HELLO)),
        ],
        status: 1,
        out: "x.a: image/x-sig\ny.a: t/a\n",
        err: "mimelook: z.a: cannot open\n",
    },
    Row {
        name: "contents alone, whatever the rules are",
        words: &["plain", "-d", "/s", "--content-only", "x.a", "y.a", "z.a"],
        entries: &[
            ("/s/mime/globs2", Entry::Bytes(b"50:t/a:*.a\n90:t/any:*\n")),
            ("/s/mime/magic", Entry::Bytes(LOW)),
            ("/s/mime/aliases", Entry::Bytes(b"image/x-sig t/sig\n")),
            ("x.a", Entry::Bytes(SIGNED)),
            ("y.a", Entry::Bytes(HELLO)),
        ],
        status: 1,
        out: "x.a: t/sig\ny.a: text/plain\n",
        err: "mimelook: z.a: cannot open\n",
    },
    Row {
        name: "nothing is opened for names alone",
        words: &[
            "plain",
            "-d",
            "/s",
            "--name-only",
            "--magic-first",
            "x.a",
            "y.a",
            "z",
        ],
        entries: &[
            ("/s/mime/globs2", Entry::Bytes(GLOBS)),
            ("/s/mime/magic", Entry::Bytes(HIGH)),
            ("x.a", Entry::Bytes(SIGNED)),
            ("y.a", Entry::Closed),
        ],
        status: 0,
        out: "x.a: t/a\ny.a: t/a\nz: application/octet-stream\n",
        err: "",
    },
];

#[test]
fn asks_globs_or_magic_first(rt: HostRuntime) -> Result<(), Fail> {
    are_answered(&rt, rt.alloc(), &IN_ORDER)
}

static OF_DIRECTORIES: [Row; 2] = [
    Row {
        name: "the first of several directories is preferred",
        words: &["plain", "-d", "/s:/u", "--name-only", "x.a", "x.b"],
        entries: &[
            ("/s/mime/globs2", Entry::Bytes(GLOBS)),
            ("/u/mime/globs2", Entry::Bytes(b"50:t/b:*.b\n50:t/c:*.a\n")),
        ],
        status: 0,
        out: "x.a: t/a\nx.b: t/b\n",
        err: "",
    },
    Row {
        name: "a type that the first directory hides",
        words: &["plain", "-d", "/s:/u", "--name-only", "x.b"],
        entries: &[
            ("/s/mime/globs2", Entry::Bytes(b"0:t/b:__NOGLOBS__\n")),
            ("/u/mime/globs2", Entry::Bytes(b"50:t/b:*.b\n")),
        ],
        status: 0,
        out: "x.b: application/octet-stream\n",
        err: "",
    },
];

#[test]
fn prefers_the_first_directory(rt: HostRuntime) -> Result<(), Fail> {
    are_answered(&rt, rt.alloc(), &OF_DIRECTORIES)
}

static WITHOUT_A_LINE: [Row; 7] = [
    Row {
        name: "a FILE that can't be opened",
        words: &["plain", "-d", "/s", "x.a", "y.a", "z"],
        entries: &[
            ("/s/mime/globs2", Entry::Bytes(GLOBS)),
            ("x.a", Entry::Bytes(HELLO)),
            ("y.a", Entry::Closed),
            ("z", Entry::Bytes(HELLO)),
        ],
        status: 1,
        out: "x.a: t/a\nz: text/plain\n",
        err: "mimelook: y.a: cannot open\n",
    },
    Row {
        name: "a FILE that isn't there",
        words: &["plain", "-d", "/s", "x.a", "y.a", "z"],
        entries: &[
            ("/s/mime/globs2", Entry::Bytes(GLOBS)),
            ("x.a", Entry::Bytes(HELLO)),
            ("z", Entry::Bytes(HELLO)),
        ],
        status: 1,
        out: "x.a: t/a\nz: text/plain\n",
        err: "mimelook: y.a: cannot open\n",
    },
    Row {
        name: "a folder, whatever type its name has",
        words: &["plain", "-d", "/s", "d.a", "x.a"],
        entries: &[
            ("/s/mime/globs2", Entry::Bytes(GLOBS)),
            ("d.a", Entry::Folder),
            ("x.a", Entry::Bytes(HELLO)),
        ],
        status: 1,
        out: "x.a: t/a\n",
        err: "mimelook: d.a: cannot read\n",
    },
    Row {
        name: "a folder by its name alone",
        words: &["plain", "-d", "/s", "--name-only", "d.a"],
        entries: &[
            ("/s/mime/globs2", Entry::Bytes(GLOBS)),
            ("d.a", Entry::Folder),
        ],
        status: 0,
        out: "d.a: t/a\n",
        err: "",
    },
    Row {
        name: "reads that fail, by globs alone",
        words: &["plain", "-d", "/s", "d.a"],
        entries: &[
            ("/s/mime/globs2", Entry::Bytes(GLOBS)),
            ("d.a", Entry::Unreadable),
        ],
        status: 0,
        out: "d.a: t/a\n",
        err: "",
    },
    Row {
        name: "reads that fail where content is wanted",
        words: &["plain", "-d", "/s", "d", "x.a", "a.doc"],
        entries: &[
            ("/s/mime/globs2", Entry::Bytes(NOTES)),
            ("d", Entry::Unreadable),
            ("x.a", Entry::Bytes(HELLO)),
            ("a.doc", Entry::Unreadable),
        ],
        status: 1,
        out: "x.a: text/plain\n",
        err: "mimelook: d: cannot read\nmimelook: a.doc: cannot read\n",
    },
    Row {
        name: "reads that fail where magic is wanted first",
        words: &["plain", "-d", "/s", "--magic-first", "d.a", "x.a"],
        entries: &[
            ("/s/mime/globs2", Entry::Bytes(GLOBS)),
            ("d.a", Entry::Unreadable),
            ("x.a", Entry::Bytes(HELLO)),
        ],
        status: 1,
        out: "x.a: t/a\n",
        err: "mimelook: d.a: cannot read\n",
    },
];

#[test]
fn says_why_a_file_has_no_line(rt: HostRuntime) -> Result<(), Fail> {
    are_answered(&rt, rt.alloc(), &WITHOUT_A_LINE)
}

/// A file whose name is too long is refused for what is stored there, if that can't be opened, and else for its name.
fn is_refused(rt: &impl Abort, alloc: Global, why: &str) -> Result<(), Fail> {
    let long = "a".repeat(alloc, 4_097)?;
    let message = format!(in alloc; "mimelook: no data directories\nmimelook: {long}: {why}\n")?;
    let wanted = Said {
        status: 1,
        out: "",
        err: message.as_str(),
    };
    let words = ["plain", "-d", "", long.as_str()];
    let entry = match why {
        "cannot open" => Entry::Closed,
        "cannot read" => Entry::Folder,
        _ => Entry::Unreadable,
    };
    let entries = [(long.as_str(), entry)];
    says_over(rt, alloc, why, &words, &entries, wanted)
}

#[test]
fn opens_before_it_looks_at_the_name(rt: HostRuntime) -> Result<(), Fail> {
    is_refused(&rt, rt.alloc(), "cannot open")?;
    is_refused(&rt, rt.alloc(), "cannot read")?;
    is_refused(&rt, rt.alloc(), "name too long")
}
