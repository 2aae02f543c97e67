//! What is said of the files of data directories.

use crate::tests::ran::says_over;
use mime_fakes::{Entry, Said};
use std::alloc::Global;
use std::process::Abort;
use std::test::Fail;

static WORDS: [&str; 5] = ["plain", "--name-only", "-d", "/b", "x.a"];

struct Row {
    name: &'static str,
    entries: &'static [(&'static str, Entry<'static>)],
    status: u8,
    out: &'static str,
    err: &'static str,
}

// Each file of lines has a malformed line.
const MALFORMED: [(&str, Entry<'static>); 7] = [
    ("/b/mime/generic-icons", Entry::Bytes(b"t/a:x\nt/a\n")),
    ("/b/mime/icons", Entry::Bytes(b"\n:x\n")),
    (
        "/b/mime/subclasses",
        Entry::Bytes(b"# a comment\nt/a t/b\nt/a  t/b\n"),
    ),
    ("/b/mime/aliases", Entry::Bytes(b"t/a\nt/b t/a")),
    ("/b/mime/magic", Entry::Bytes(b"MIME-Magic\0\n")),
    (
        "/b/mime/globs2",
        Entry::Bytes(b"50:t/a:*.a\nnothing\n300:t/a:*.b\n"),
    ),
    ("/b/globs2", Entry::Bytes(b"nothing")),
];

const IN_ORDER: &str = "\
mimelook: /b/mime/globs2: line 2 ignored
mimelook: /b/mime/globs2: line 3 ignored
mimelook: /b/mime/aliases: line 1 ignored
mimelook: /b/mime/subclasses: line 3 ignored
mimelook: /b/mime/icons: line 2 ignored
mimelook: /b/mime/generic-icons: line 2 ignored
";

static WRONG: [Row; 4] = [
    Row {
        name: "each file's lines, in the order of the files",
        entries: &MALFORMED,
        status: 0,
        out: "x.a: t/a\n",
        err: IN_ORDER,
    },
    Row {
        name: "no header",
        entries: &[("/b/mime/magic", Entry::Bytes(b"MIME"))],
        status: 3,
        out: "",
        err: "mimelook: /b/mime/magic: magic no header at 0\n",
    },
    Row {
        name: "a stop after messages, and before later files",
        entries: &[
            ("/b/mime/globs2", Entry::Bytes(b"nothing\n")),
            ("/b/mime/magic", Entry::Bytes(b"MIME-Magic\0\n")),
            ("/b/mime/aliases", Entry::Folder),
            ("/b/mime/subclasses", Entry::Bytes(b"nothing")),
        ],
        status: 3,
        out: "",
        err: "mimelook: /b/mime/globs2: line 1 ignored\n\
            mimelook: /b/mime/aliases: cannot read\n",
    },
    Row {
        name: "the last file can't be read",
        entries: &[("/b/mime/generic-icons", Entry::Unreadable)],
        status: 3,
        out: "",
        err: "mimelook: /b/mime/generic-icons: cannot read\n",
    },
];

/// A row is answered by its texts.
fn is_said(rt: &impl Abort, alloc: Global, row: &Row) -> Result<(), Fail> {
    let wanted = Said {
        status: row.status,
        out: row.out,
        err: row.err,
    };
    says_over(rt, alloc, row.name, &WORDS, row.entries, wanted)
}

#[test]
fn says_what_is_wrong_with_a_directory(rt: HostRuntime) -> Result<(), Fail> {
    for row in &WRONG {
        is_said(&rt, rt.alloc(), row)?;
    }
    Ok(())
}

// Texts of magic after the header, and what is said of each. Offsets count the header's 12 bytes.
static FAULTS: [(&[u8], &str); 6] = [
    (b"[50:t/a]\n>0=\0\x01", "truncated at 26"),
    (b"50:t/a]\n", "bad section at 12"),
    (b"[50:t/a]\n>0x\0\x01a\n", "bad number at 22"),
    (b"[50:t/a]\n>0=\0\x03aaa~2\n", "bad word at 30"),
    (b"[50:t/a]\n1>0=\0\x01a\n", "bad indent at 21"),
    (b"[50:t/a]\n>0=\0\x01a\n2>0=\0\x01a\n", "bad indent at 28"),
];

/// A directory whose magic is these bytes is refused for this fault.
fn is_refused(rt: &impl Abort, alloc: Global, magic: &[u8], fault: &str) -> Result<(), Fail> {
    let line = format!(in alloc; "mimelook: /b/mime/magic: magic {fault}\n")?;
    let wanted = Said {
        status: 3,
        out: "",
        err: line.as_str(),
    };
    let entries = [("/b/mime/magic", Entry::Bytes(magic))];
    says_over(rt, alloc, fault, &WORDS, &entries, wanted)
}

/// The header, and then this text.
fn magic_of(alloc: Global, text: &[u8]) -> Result<Vec<u8>, Fail> {
    let mut magic = b"MIME-Magic\0\n".to_vec(alloc)?;
    magic.extend_from_slice(text)?;
    Ok(magic)
}

#[test]
fn names_faults_of_magic(rt: HostRuntime) -> Result<(), Fail> {
    for &(text, fault) in &FAULTS {
        let magic = magic_of(rt.alloc(), text)?;
        is_refused(&rt, rt.alloc(), &magic, fault)?;
    }
    Ok(())
}

/// A section whose lines have indents from 0 to 64.
fn too_deep(alloc: Global) -> Result<Vec<u8>, Fail> {
    let mut magic = magic_of(alloc, b"[50:t/a]\n")?;
    for indent in 0..65 {
        let line = format!(in alloc; "{indent}>0=\0\x01a\n")?;
        magic.extend_from_slice(line.as_bytes())?;
    }
    Ok(magic)
}

// The last line is too deep: it begins after the header, the head of the section, 10 lines of 8 bytes and 54 of 9.
#[test]
fn names_the_first_line_that_is_too_deep(rt: HostRuntime) -> Result<(), Fail> {
    let magic = too_deep(rt.alloc())?;
    is_refused(&rt, rt.alloc(), &magic, "too deep at 587")
}
