//! Commands over data directories, those that are named or the user's.

use crate::tests::ran::ends;
use mime_fakes::{Entry, Said, Shelf, UNSET, ended_by, in_environment};
use mime_tool::Environment;
use std::alloc::Global;
use std::process::Abort;
use std::test::Fail;

/// Words in an environment, and the status and the texts that answer them.
struct Row {
    name: &'static str,
    words: &'static [&'static str],
    environment: Option<Environment<'static>>,
    status: u8,
    out: &'static str,
    err: &'static str,
}

const ROW: Row = Row {
    name: "",
    words: &[],
    environment: Some(UNSET),
    status: 0,
    out: "",
    err: "",
};

static ENTRIES: &[(&str, Entry<'static>)] = &[
    ("/s/mime/globs2", Entry::Bytes(b"50:t/m:mk\n50:t/g:*.gz\n")),
    ("/s/mime/aliases", Entry::Bytes(b"t/h t/g\n")),
    ("/s/mime/subclasses", Entry::Bytes(b"t/g t/m\n")),
    (
        "/s/mime/magic",
        Entry::Bytes(b"MIME-Magic\0\n[40:t/g]\n>0=\0\x02\x1f\x8b\n"),
    ),
    ("/own/mime/globs2", Entry::Bytes(b"50:t/own:a\n")),
    ("/own:b/mime/globs2", Entry::Bytes(b"50:t/colon:a\n")),
    (
        "/h/.local/share/mime/globs2",
        Entry::Bytes(b"50:t/home:a\n"),
    ),
    ("/t/mime/globs2", Entry::Bytes(b"50:t/t:b\n")),
    ("t/mime/globs2", Entry::Bytes(b"90:t/relative:b\n")),
    (
        "/usr/local/share/mime/globs2",
        Entry::Bytes(b"50:t/local:c\n"),
    ),
    ("/usr/share/mime/globs2", Entry::Bytes(b"50:t/usr:d\n")),
    ("/bad/mime/globs2", Entry::Bytes(b"bad\n")),
    ("/headless/mime/magic", Entry::Bytes(b"MIME")),
    ("gzipped", Entry::Bytes(b"\x1f\x8b\x08")),
];

const NOT_TEXT: &str = "\
mimelook: XDG_DATA_HOME, HOME or XDG_DATA_DIRS is not text (UTF-8)
";

static NAMED: [Row; 12] = [
    Row {
        name: "names of type",
        words: &["type", "-d", "/s", "--name-only", "mk", "A.GZ"],
        out: "mk: t/m\nA.GZ: t/g\n",
        ..ROW
    },
    Row {
        name: "content of type",
        words: &["type", "--data-dirs", "/s", "gzipped"],
        out: "gzipped: t/g\n",
        ..ROW
    },
    Row {
        name: "a file that is missing, and one whose type its content gives first",
        words: &["type", "-d", "/s", "--magic-first", "missing.mk", "gzipped"],
        status: 1,
        out: "gzipped: t/g\n",
        err: "mimelook: missing.mk: cannot open\n",
        ..ROW
    },
    Row {
        name: "type with its cost",
        words: &["type", "-d", "", "--cost", "gzipped"],
        out: "gzipped: application/octet-stream nodes=6 bytes=0 read=3\n",
        err: "mimelook: no data directories\n",
        ..ROW
    },
    Row {
        name: "type over refused magic",
        words: &["type", "-d", "/headless", "gzipped"],
        status: 3,
        err: "mimelook: /headless/mime/magic: magic no header at 0\n",
        ..ROW
    },
    Row {
        name: "isa",
        words: &["isa", "-d", "/s", "t/h", "t/m"],
        out: "yes\n",
        ..ROW
    },
    Row {
        name: "icon",
        words: &["icon", "-d", "/s", "t/h"],
        out: "icon: t-g\ngeneric: t-x-generic\n",
        ..ROW
    },
    Row {
        name: "list of two directories",
        words: &["list", "-d", "/t:/s"],
        out: "50:t/t:b\n50:t/m:mk\n50:t/g:*.gz\n",
        ..ROW
    },
    Row {
        name: "malformed lines",
        words: &["list", "-d", "/bad:/t"],
        out: "50:t/t:b\n",
        err: "mimelook: /bad/mime/globs2: line 1 ignored\n",
        ..ROW
    },
    Row {
        name: "refused magic",
        words: &["icon", "-d", "/bad:/headless", "t/h"],
        status: 3,
        err: "mimelook: /bad/mime/globs2: line 1 ignored\n\
            mimelook: /headless/mime/magic: magic no header at 0\n",
        ..ROW
    },
    Row {
        name: "a word that is no type before the directories",
        words: &["isa", "-d", "/headless", "t", "t/m"],
        status: 2,
        err: "mimelook: not a type: t\n",
        ..ROW
    },
    Row {
        name: "a relative directory, where no variable is text",
        words: &["list", "-d", "t"],
        environment: None,
        out: "90:t/relative:b\n",
        ..ROW
    },
];

static USERS: [Row; 11] = [
    Row {
        name: "no variable",
        words: &["list"],
        out: "50:t/local:c\n50:t/usr:d\n",
        ..ROW
    },
    Row {
        name: "all variables",
        words: &["type", "--name-only", "a", "b", "c"],
        environment: Some(Environment {
            data_home: Some("/own"),
            home: Some("/h"),
            data_dirs: Some(":/none::t:/t"),
        }),
        out: "a: t/own\nb: t/t\nc: application/octet-stream\n",
        ..ROW
    },
    Row {
        name: "empty variables",
        words: &["plain", "--name-only", "a", "b", "c"],
        environment: Some(Environment {
            data_home: Some(""),
            home: Some("/h"),
            data_dirs: Some(""),
        }),
        out: "a: t/home\nb: application/octet-stream\nc: t/local\n",
        ..ROW
    },
    Row {
        name: "an empty home",
        words: &["list"],
        environment: Some(Environment {
            home: Some(""),
            data_dirs: Some("/t"),
            ..UNSET
        }),
        out: "50:t/t:b\n",
        ..ROW
    },
    Row {
        name: "a colon in the own directory",
        words: &["list"],
        environment: Some(Environment {
            data_home: Some("/own:b"),
            data_dirs: Some("/t"),
            ..UNSET
        }),
        out: "50:t/colon:a\n50:t/t:b\n",
        ..ROW
    },
    Row {
        name: "relative directories alone",
        words: &["list"],
        environment: Some(Environment {
            data_home: Some("t"),
            home: Some("/h"),
            data_dirs: Some("t"),
        }),
        err: "mimelook: no data directories\n",
        ..ROW
    },
    Row {
        name: "isa by the user's directories",
        words: &["isa", "t/h", "t/m"],
        environment: Some(Environment {
            data_dirs: Some("/s"),
            ..UNSET
        }),
        out: "yes\n",
        ..ROW
    },
    Row {
        name: "a variable that is no text",
        words: &["type", "gzipped"],
        environment: None,
        status: 3,
        err: NOT_TEXT,
        ..ROW
    },
    Row {
        name: "the same of build",
        words: &["build", "-o", "c"],
        environment: None,
        status: 3,
        err: NOT_TEXT,
        ..ROW
    },
    Row {
        name: "the same of isa",
        words: &["isa", "t/h", "t/m"],
        environment: None,
        status: 3,
        err: NOT_TEXT,
        ..ROW
    },
    Row {
        name: "the same of icon",
        words: &["icon", "t/h"],
        environment: None,
        status: 3,
        err: NOT_TEXT,
        ..ROW
    },
];

fn are_answered(rt: &impl Abort, alloc: Global, rows: &[Row]) -> Result<(), Fail> {
    for row in rows {
        is_answered(rt, alloc, row)?;
    }
    Ok(())
}

fn is_answered(rt: &impl Abort, alloc: Global, row: &Row) -> Result<(), Fail> {
    let mut files = Shelf { entries: ENTRIES };
    let process = in_environment(row.environment);
    let found = ended_by(alloc, row.words, &[], process, &mut files);
    let wanted = Said {
        status: row.status,
        out: row.out,
        err: row.err,
    };
    ends(rt, row.name, &found, wanted)
}

#[test]
fn answers_over_directories(rt: HostRuntime) -> Result<(), Fail> {
    are_answered(&rt, rt.alloc(), &NAMED)
}

#[test]
fn answers_over_the_users_directories(rt: HostRuntime) -> Result<(), Fail> {
    are_answered(&rt, rt.alloc(), &USERS)
}
