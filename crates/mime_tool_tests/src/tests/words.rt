//! Words that are no text.

use crate::tests::ran::alike;
use mime_fakes::{Entry, Shelf, UNSET, ended_by, in_environment};
use mime_tool::RawWord;
use std::alloc::Global;
use std::process::Abort;

/// Words, of which some stand in for others that are no text, and what the run comes to.
#[derive(Clone, Copy)]
struct Row {
    name: &'static str,
    words: &'static [&'static str],
    raws: &'static [RawWord<'static>],
    status: u8,
    out: &'static [u8],
    err: &'static [u8],
}

static ENTRIES: &[(&str, Entry<'static>)] = &[
    ("/s/mime/globs2", Entry::Bytes(b"50:t/a:*.a\n")),
    ("x.a", Entry::Bytes(b"hello")),
];

// A name in Latin-1.
const CAFE: RawWord<'static> = RawWord {
    number: 4,
    stand_in: "\x004",
    bytes: b"d\xe9j\xe0/caf\xe9.a",
};

const OTHER: RawWord<'static> = RawWord {
    number: 7,
    stand_in: "\x007",
    bytes: b"\xff\n\\",
};

const OPTION: RawWord<'static> = RawWord {
    number: 4,
    stand_in: "-\x004",
    bytes: b"-d\xe9",
};

static NAMES: [Row; 6] = [
    Row {
        name: "alone",
        words: &["plain", "--name-only", "-d/s", "\x004"],
        raws: &[CAFE],
        status: 0,
        out: b"d\xe9j\xe0/caf\xe9.a: t/a\n",
        err: b"",
    },
    Row {
        name: "among others",
        words: &[
            "plain",
            "--name-only",
            "-d/s",
            "\x004",
            "x.a",
            "-0",
            "\x007",
        ],
        raws: &[CAFE, OTHER],
        status: 0,
        out: b"d\xe9j\xe0/caf\xe9.a\0t/a\0x.a\0t/a\0\xff\n\\\0application/octet-stream\0",
        err: b"",
    },
    Row {
        name: "cannot open",
        words: &["plain", "-d", "/s", "\x004", "x.a"],
        raws: &[CAFE],
        status: 1,
        out: b"x.a: t/a\n",
        err: b"mimelook: d\xe9j\xe0/caf\xe9.a: cannot open\n",
    },
    Row {
        name: "escaped",
        words: &[
            "type",
            "--name-only",
            "-d/s",
            "x.a",
            "--escape",
            "--",
            "\x007",
        ],
        raws: &[OTHER],
        status: 0,
        out: b"x.a: t/a\n\xff\\012\\134: application/octet-stream\n",
        err: b"",
    },
    Row {
        name: "escaped in a message",
        words: &["type", "-d", "/s", "x.a", "--escape", "--", "\x007"],
        raws: &[OTHER],
        status: 1,
        out: b"x.a: t/a\n",
        err: b"mimelook: \xff\\012\\134: cannot open\n",
    },
    Row {
        name: "a hyphen after two",
        words: &["plain", "-d/s", "--", "-\x004"],
        raws: &[OPTION],
        status: 1,
        out: b"",
        err: b"mimelook: -d\xe9: cannot open\n",
    },
];

/// Words that are refused, those of them that are no text, and what is said.
type Refused = (
    &'static str,
    &'static [&'static str],
    &'static [RawWord<'static>],
    &'static [u8],
);

static REFUSED: [Refused; 8] = [
    ("the cache", &["type", "x", "-c", "\x004"], &[CAFE], FOURTH),
    (
        "the directories",
        &["plain", "x", "-d", "\x004"],
        &[CAFE],
        FOURTH,
    ),
    (
        "the output",
        &["build", "-d/s", "-o", "\x004"],
        &[CAFE],
        FOURTH,
    ),
    (
        "an option",
        &["plain", "x", "-d/s", "-\x004"],
        &[OPTION],
        FOURTH,
    ),
    ("a type", &["isa", "-d/s", "t/a", "\x004"], &[CAFE], FOURTH),
    (
        "beside a mistake",
        &["plain", "--no", "-d/s", "\x004"],
        &[CAFE],
        FOURTH,
    ),
    (
        "the first of two",
        &["plain", "x", "--no", "\x004", "x", "-d", "\x007"],
        &[CAFE, OTHER],
        FOURTH,
    ),
    (
        "the one that is no FILE",
        &["plain", "x", "--name-only", "\x004", "x", "-d", "\x007"],
        &[CAFE, OTHER],
        b"mimelook: word 7 is not text (UTF-8)\n",
    ),
];

const FOURTH: &[u8] = b"mimelook: word 4 is not text (UTF-8)\n";

fn is_answered(rt: &impl Abort, alloc: Global, row: &Row) {
    let mut files = Shelf { entries: ENTRIES };
    let process = in_environment(Some(UNSET));
    let found = ended_by(alloc, row.words, row.raws, process, &mut files);
    alike(rt, row.name, found.status, row.status);
    alike(rt, row.name, found.err.as_slice(), row.err);
    alike(rt, row.name, found.out.as_slice(), row.out);
}

#[test]
fn names_are_bytes(rt: HostRuntime) {
    for row in &NAMES {
        is_answered(&rt, rt.alloc(), row);
    }
}

#[test]
fn no_other_word_is(rt: HostRuntime) {
    for &(name, words, raws, err) in &REFUSED {
        let row = Row {
            name,
            words,
            raws,
            status: 2,
            out: b"",
            err,
        };
        is_answered(&rt, rt.alloc(), &row);
    }
}
