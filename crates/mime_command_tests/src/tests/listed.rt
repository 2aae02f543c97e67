//! What is printed for the FILEs of a list.

use crate::tests::ran::{Taken, ends, is_taken_over, says_over, sound};
use mime_fakes::{Entry, FailingSink, Said, Shelf, UNSET, ended_by};
use mime_lookup::{Script, Step};
use mime_tool::{Inode, Process, SinkFault};
use std::alloc::Global;
use std::process::Abort;
use std::test::Fail;

/// Words, the steps of standard input, and what the run comes to.
struct Row {
    name: &'static str,
    words: &'static [&'static str],
    input: &'static [Step<'static>],
    status: u8,
    out: &'static str,
    err: &'static str,
}

const GLOBS: (&str, Entry<'static>) = ("/s/mime/globs2", Entry::Bytes(b"50:t/a:*.a\n50:t/b:*.b\n"));

static ENTRIES: &[(&str, Entry<'static>)] = &[
    GLOBS,
    ("text", Entry::Bytes(b"hello\n")),
    ("-", Entry::Bytes(b"x.a")),
    ("dir", Entry::Folder),
    ("list", Entry::Bytes(b"d/x.a\0text\0y.b\0")),
    ("unended", Entry::Bytes(b"x.a\0y.b")),
    ("empty", Entry::Bytes(b"")),
    ("gaps", Entry::Bytes(b"x.a\0\0y.b\0\0")),
    ("missing", Entry::Bytes(b"x.a\0none\0y.b\0")),
    ("unreadable", Entry::Unreadable),
    ("closed", Entry::Closed),
    ("socket", Entry::Special(Inode::Socket)),
    ("pipe", Entry::Special(Inode::Fifo)),
    ("x.a", Entry::Bytes(b"")),
    ("y.b", Entry::Bytes(b"")),
    ("d/x.a", Entry::Bytes(b"")),
];

const ROW: Row = Row {
    name: "",
    words: &[],
    input: &[Step::Fault],
    status: 0,
    out: "",
    err: "",
};

static ROWS: [Row; 22] = [
    Row {
        name: "names that are ended",
        words: &["plain", "-d", "/s", "--files0-from", "list"],
        out: "d/x.a: t/a\ntext: text/plain\ny.b: t/b\n",
        ..ROW
    },
    Row {
        name: "by a cache",
        words: &["type", "-d", "/s", "-b", "--files0-from=list"],
        out: "t/a\ntext/plain\nt/b\n",
        ..ROW
    },
    Row {
        name: "a last name that isn't ended",
        words: &["plain", "-d", "/s", "--files0-from", "unended"],
        out: "x.a: t/a\ny.b: t/b\n",
        ..ROW
    },
    Row {
        name: "no name",
        words: &["plain", "-d", "/s", "--files0-from", "empty"],
        ..ROW
    },
    Row {
        name: "empty names are told by their numbers",
        words: &["type", "-d", "/s", "--files0-from", "gaps"],
        status: 1,
        out: "x.a: t/a\ny.b: t/b\n",
        err: "mimelook: gaps: name 2 is empty\nmimelook: gaps: name 4 is empty\n",
        ..ROW
    },
    Row {
        name: "a FILE that can't be opened",
        words: &["plain", "-d", "/s", "--files0-from", "missing"],
        status: 1,
        out: "x.a: t/a\ny.b: t/b\n",
        err: "mimelook: none: cannot open\n",
        ..ROW
    },
    Row {
        name: "by name alone",
        words: &[
            "plain",
            "-d",
            "/s",
            "--name-only",
            "-0",
            "--files0-from",
            "missing",
        ],
        out: "x.a\0t/a\0none\0application/octet-stream\0y.b\0t/b\0",
        ..ROW
    },
    Row {
        name: "no list",
        words: &["plain", "-d", "/s", "--files0-from", "none"],
        status: 3,
        err: "mimelook: none: cannot read\n",
        ..ROW
    },
    Row {
        name: "a list that is a folder",
        words: &["type", "-d", "/s", "--files0-from", "dir"],
        status: 3,
        err: "mimelook: dir: cannot read\n",
        ..ROW
    },
    Row {
        name: "a list that can't be opened",
        words: &["plain", "-d", "/s", "--files0-from", "closed"],
        status: 3,
        err: "mimelook: closed: cannot read\n",
        ..ROW
    },
    Row {
        name: "a list that is a socket",
        words: &["plain", "-d", "/s", "--files0-from", "socket"],
        status: 3,
        err: "mimelook: socket: cannot read\n",
        ..ROW
    },
    Row {
        name: "a list whose reads fail",
        words: &["plain", "-d", "/s", "--files0-from", "unreadable"],
        status: 3,
        err: "mimelook: unreadable: cannot read\n",
        ..ROW
    },
    Row {
        name: "the data are refused first",
        words: &["type", "-c", "none", "--files0-from", "closed"],
        status: 3,
        err: "mimelook: none: cannot read\n",
        ..ROW
    },
    Row {
        name: "standard input",
        words: &["plain", "-d", "/s", "--files0-from", "-"],
        input: &[Step::Piece(b"x.a\0y.b\0")],
        out: "x.a: t/a\ny.b: t/b\n",
        ..ROW
    },
    Row {
        name: "standard input in pieces, of which some are interrupted",
        words: &["type", "-d", "/s", "--files0-from", "-"],
        input: &[
            Step::Piece(b"x"),
            Step::Interruption,
            Step::Piece(b".a"),
            Step::Piece(b"\0y.b\0te"),
            Step::Interruption,
            Step::Interruption,
            Step::Piece(b"xt"),
        ],
        out: "x.a: t/a\ny.b: t/b\ntext: text/plain\n",
        ..ROW
    },
    Row {
        name: "standard input without a name",
        words: &["plain", "-d", "/s", "--files0-from", "-"],
        input: &[],
        ..ROW
    },
    Row {
        name: "an empty name on standard input",
        words: &["plain", "-d", "/s", "--escape", "--files0-from", "-"],
        input: &[Step::Piece(b"\0")],
        status: 1,
        err: "mimelook: -: name 1 is empty\n",
        ..ROW
    },
    Row {
        name: "a FILE whose name is a hyphen",
        words: &["plain", "-d", "/s", "--files0-from", "-"],
        input: &[Step::Piece(b"-\0")],
        out: "-: text/plain\n",
        ..ROW
    },
    Row {
        name: "a list that fails midway",
        words: &["plain", "-d", "/s", "--files0-from", "-"],
        input: &[
            Step::Piece(b"x.a\0\0y.b\0tex"),
            Step::Fault,
            Step::Piece(b"t\0"),
        ],
        status: 3,
        out: "x.a: t/a\ny.b: t/b\n",
        err: "mimelook: -: name 2 is empty\nmimelook: -: cannot read\n",
        ..ROW
    },
    Row {
        name: "names that are escaped",
        words: &[
            "type",
            "-d",
            "/s",
            "--escape",
            "--name-only",
            "--files0-from",
            "-",
        ],
        input: &[Step::Piece(b"a\nb.a\0\x7f.b\0")],
        out: "a\\012b.a: t/a\n\\177.b: t/b\n",
        ..ROW
    },
    Row {
        name: "FILEs read none of it",
        words: &["plain", "-d", "/s", "x.a"],
        out: "x.a: t/a\n",
        ..ROW
    },
    Row {
        name: "a file with a hyphen for a name is a list by its path",
        words: &["plain", "-d", "/s", "--files0-from", "./-"],
        status: 3,
        err: "mimelook: ./-: cannot read\n",
        ..ROW
    },
];

fn is_answered(rt: &impl Abort, alloc: Global, row: &Row) -> Result<(), Fail> {
    let process = Process {
        environment: Some(UNSET),
        input: Script::new(row.input),
        to_terminal: false,
    };
    let mut files = Shelf { entries: ENTRIES };
    let found = ended_by(alloc, row.words, &[], process, &mut files);
    let wanted = Said {
        status: row.status,
        out: row.out,
        err: row.err,
    };
    ends(rt, row.name, &found, wanted)
}

#[test]
fn answers_listed_files(rt: HostRuntime) -> Result<(), Fail> {
    for row in &ROWS {
        is_answered(&rt, rt.alloc(), row)?;
    }
    Ok(())
}

// A name takes more than one read.
#[test]
fn answers_names_of_any_length(rt: HostRuntime) -> Result<(), Fail> {
    let alloc = rt.alloc();
    let folder = "a".repeat(alloc, 9_000)?;
    let list = format!(in alloc; "{folder}/x.a\0text")?;
    let line = format!(in alloc; "{folder}/x.a: t/a\ntext: application/octet-stream\n")?;
    let files = [GLOBS, ("long", Entry::Bytes(list.as_bytes()))];
    let wanted = Said {
        status: 0,
        out: line.as_str(),
        err: "",
    };
    let words = ["plain", "-d", "/s", "--name-only", "--files0-from", "long"];
    says_over(&rt, alloc, "long", &words, &files, wanted)
}

// The answer to a name is out when more of the list is waited for: then every call fails.
#[test]
fn hands_on_before_it_reads_on(rt: HostRuntime) -> Result<(), Fail> {
    let alloc = rt.alloc();
    let out = FailingSink::new(alloc, 6, usize::MAX, SinkFault::Failed);
    let wanted = Taken {
        status: 3,
        out: "x.a: t/a\n",
        flushed: 9,
        err: "mimelook: cannot write output\n",
    };
    let words = ["plain", "-d", "/s", "--files0-from", "unended"];
    is_taken_over(
        &rt,
        alloc,
        "list",
        &words,
        ENTRIES,
        (out, sound(alloc)),
        wanted,
    );
    Ok(())
}
