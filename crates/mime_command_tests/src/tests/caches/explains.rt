//! What `explain` prints of files, made by hand from the rules, the magic and the pairs below.

use super::{ROW, Row, is_answered};
use crate::tests::ran::says_over;
use mime_fakes::{Entry, Said};
use std::test::Fail;

static ENTRIES: &[(&str, Entry<'static>)] = &[
    (
        "/s/mime/globs2",
        Entry::Bytes(
            b"50:t/g:*.gz\n80:t/z:*.tar.gz\n50:t/n:a*z\n50:t/u:*.C:cs\n50:t/l:*.c\n50:t/p:*.dat\n50:t/q:*.dat\n",
        ),
    ),
    ("/s/mime/aliases", Entry::Bytes(b"t/z t/tar\nt/h t/hi\n")),
    ("/s/mime/subclasses", Entry::Bytes(b"t/tar t/g\nt/q t/g\n")),
    (
        "/s/mime/magic",
        Entry::Bytes(b"MIME-Magic\0\n[90:t/h]\n>0=\0\x02HI\n[50:t/g]\n>0=\0\x02\x1f\x8b\n"),
    ),
    ("a.tar.gz", Entry::Bytes(b"\x1f\x8b\x08")),
    ("x.gz", Entry::Bytes(b"\x1f\x8b\x08")),
    ("hi.gz", Entry::Bytes(b"HI there")),
    ("d/main.C", Entry::Bytes(b"int\n")),
    ("a.dat", Entry::Bytes(b"\x1f\x8b\x08")),
    ("b.dat", Entry::Bytes(b"HI")),
    ("hello", Entry::Bytes(b"HI there")),
    ("notes", Entry::Bytes(b"hi\n")),
    ("nothing", Entry::Bytes(b"")),
    ("x\n.gz", Entry::Bytes(b"\x1f\x8b")),
    ("folder.gz", Entry::Folder),
    ("closed.gz", Entry::Closed),
    ("unreadable.gz", Entry::Unreadable),
];

/// Words over directories, and what they print and say.
struct Over {
    name: &'static str,
    words: &'static [&'static str],
    status: u8,
    out: &'static str,
    err: &'static str,
}

/// A file that is answered.
const ANSWERED: Over = Over {
    name: "",
    words: &[],
    status: 0,
    out: "",
    err: "",
};

/// A file that is not.
const REFUSED: Over = Over {
    status: 1,
    ..ANSWERED
};

static OVER: [Over; 21] = [
    Over {
        name: "an alias, other weights and another class",
        words: &["explain", "-d", "/s", "--name-only", "a.tar.gz"],
        out: "a.tar.gz: t/tar\n  glob 80 *.tar.gz t/z kept -> t/tar\n  glob 50 *.gz t/g\n  glob 50 a*z t/n\n  by name\n",
        ..ANSWERED
    },
    Over {
        name: "a name that suffices, and its content",
        words: &["explain", "-d", "/s", "x.gz"],
        out: "x.gz: t/g\n  glob 50 *.gz t/g kept\n  magic 50 t/g\n  by name\n",
        ..ANSWERED
    },
    Over {
        name: "a name that suffices, and another content",
        words: &["explain", "-d", "/s", "hi.gz"],
        out: "hi.gz: t/g\n  glob 50 *.gz t/g kept\n  magic 90 t/h -> t/hi\n  by name\n",
        ..ANSWERED
    },
    Over {
        name: "content of high priority first",
        words: &["explain", "-d", "/s", "--magic-first", "hi.gz"],
        out: "hi.gz: t/hi\n  glob 50 *.gz t/g kept\n  magic 90 t/h -> t/hi\n  by content\n",
        ..ANSWERED
    },
    Over {
        name: "content of low priority first",
        words: &["explain", "-d", "/s", "--magic-first", "x.gz"],
        out: "x.gz: t/g\n  glob 50 *.gz t/g kept\n  magic 50 t/g\n  by name\n",
        ..ANSWERED
    },
    Over {
        name: "content alone",
        words: &["explain", "-d", "/s", "--content-only", "hi.gz"],
        out: "hi.gz: t/hi\n  magic 90 t/h -> t/hi\n  by content\n",
        ..ANSWERED
    },
    Over {
        name: "all rules",
        words: &["explain", "-d", "/s", "--all-globs", "a.tar.gz"],
        out: "a.tar.gz: t/tar\n  glob 80 *.tar.gz t/z kept -> t/tar\n  glob 50 *.gz t/g\n  glob 50 a*z t/n\n  magic 50 t/g\n  by both\n",
        ..ANSWERED
    },
    Over {
        name: "a rule that is case-sensitive",
        words: &["explain", "-d", "/s", "d/main.C"],
        out: "d/main.C: t/u\n  glob 50 *.C t/u cs kept\n  glob 50 *.c t/l\n  magic none text/plain\n  by name\n",
        ..ANSWERED
    },
    Over {
        name: "the type of the content is a parent of one of two",
        words: &["explain", "-d", "/s", "a.dat"],
        out: "a.dat: t/q\n  glob 50 *.dat t/p kept\n  glob 50 *.dat t/q kept\n  magic 50 t/g\n  by both\n",
        ..ANSWERED
    },
    Over {
        name: "the type of the content is above neither",
        words: &["explain", "-d", "/s", "b.dat"],
        out: "b.dat: t/p\n  glob 50 *.dat t/p kept\n  glob 50 *.dat t/q kept\n  magic 90 t/h -> t/hi\n  by default\n",
        ..ANSWERED
    },
    Over {
        name: "two types and no content",
        words: &["explain", "-d", "/s", "--name-only", "b.dat"],
        out: "b.dat: t/p\n  glob 50 *.dat t/p kept\n  glob 50 *.dat t/q kept\n  by default\n",
        ..ANSWERED
    },
    Over {
        name: "magic and no rule",
        words: &["explain", "-d", "/s", "hello"],
        out: "hello: t/hi\n  magic 90 t/h -> t/hi\n  by content\n",
        ..ANSWERED
    },
    Over {
        name: "neither magic nor a rule",
        words: &["explain", "-d", "/s", "notes"],
        out: "notes: text/plain\n  magic none text/plain\n  by content\n",
        ..ANSWERED
    },
    Over {
        name: "an empty file",
        words: &["explain", "-d", "/s", "nothing"],
        out: "nothing: application/x-zerosize\n  magic none application/x-zerosize\n  by content\n",
        ..ANSWERED
    },
    Over {
        name: "no rule and no content",
        words: &["explain", "-d", "/s", "--name-only", "hello"],
        out: "hello: application/octet-stream\n  by default\n",
        ..ANSWERED
    },
    Over {
        name: "a newline, escaped",
        words: &["explain", "-d", "/s", "--escape", "x\n.gz"],
        out: "x\\012.gz: t/g\n  glob 50 *.gz t/g kept\n  magic 50 t/g\n  by name\n",
        ..ANSWERED
    },
    Over {
        name: "no file",
        words: &["explain", "-d", "/s", "missing.gz"],
        err: "mimelook: missing.gz: cannot open\n",
        ..REFUSED
    },
    Over {
        name: "a folder",
        words: &["explain", "-d", "/s", "folder.gz"],
        err: "mimelook: folder.gz: cannot read\n",
        ..REFUSED
    },
    Over {
        name: "a file that can't be opened",
        words: &["explain", "-d", "/s", "closed.gz"],
        err: "mimelook: closed.gz: cannot open\n",
        ..REFUSED
    },
    Over {
        name: "a file that can't be read, whose name would suffice",
        words: &["explain", "-d", "/s", "unreadable.gz"],
        err: "mimelook: unreadable.gz: cannot read\n",
        ..REFUSED
    },
    Over {
        name: "a file that can't be read, by its name alone",
        words: &["explain", "-d", "/s", "--name-only", "unreadable.gz"],
        out: "unreadable.gz: t/g\n  glob 50 *.gz t/g kept\n  by name\n",
        ..ANSWERED
    },
];

#[test]
fn explains_files_over_directories(rt: HostRuntime) -> Result<(), Fail> {
    for row in &OVER {
        let said = Said {
            status: row.status,
            out: row.out,
            err: row.err,
        };
        says_over(&rt, rt.alloc(), row.name, row.words, ENTRIES, said)?;
    }
    Ok(())
}

#[test]
fn explains_several_files(rt: HostRuntime) -> Result<(), Fail> {
    let words = ["explain", "-d", "/s", "x.gz", "missing", "nothing"];
    let said = Said {
        status: 1,
        out: "x.gz: t/g\n  glob 50 *.gz t/g kept\n  magic 50 t/g\n  by name\nnothing: application/x-zerosize\n  magic none application/x-zerosize\n  by content\n",
        err: "mimelook: missing: cannot open\n",
    };
    says_over(&rt, rt.alloc(), "several files", &words, ENTRIES, said)
}

static OVER_A_CACHE: [Row; 5] = [
    Row {
        name: "the sample",
        words: &["explain", "-c", "/c", "/x", "/mk"],
        out: "/x: t/g\n  magic 40 t/g\n  by content\n/mk: t/m\n  glob 50 mk t/m kept\n  magic 40 t/g\n  by name\n",
        ..ROW
    },
    Row {
        name: "an extent that is greater by one",
        words: &["explain", "-c", "/c", "/x"],
        cache: super::Cache {
            at: 155,
            byte: 4,
            ..super::WHOLE
        },
        status: 1,
        err: "mimelook: /c: no database: magic\n",
        ..ROW
    },
    Row {
        name: "39 bytes",
        words: &["explain", "-c", "/c", "/x"],
        cache: super::Cache {
            length: 39,
            ..super::WHOLE
        },
        status: 3,
        err: "mimelook: /c: truncated\n",
        ..ROW
    },
    Row {
        name: "no cache",
        words: &["explain", "-c", "/none", "/x"],
        status: 3,
        err: "mimelook: /none: cannot read\n",
        ..ROW
    },
    Row {
        name: "a folder in place of the cache",
        words: &["explain", "-c", "/folder", "/x"],
        status: 3,
        err: "mimelook: /folder: cannot read\n",
        ..ROW
    },
];

#[test]
fn explains_files_over_a_cache(rt: HostRuntime) -> Result<(), Fail> {
    for row in &OVER_A_CACHE {
        is_answered(&rt, rt.alloc(), row)?;
    }
    Ok(())
}
