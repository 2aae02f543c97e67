//! What is printed for rules and names.

use crate::tests::ran::says_over;
use mime_fakes::{Entry, Said};
use std::alloc::Global;
use std::process::Abort;
use std::test::Fail;

struct Row {
    name: &'static str,
    words: &'static [&'static str],
    globs: Option<Entry<'static>>,
    status: u8,
    out: &'static str,
    err: &'static str,
}

const GLOBS: &[u8] = b"50:text/x-readme:readme*\n50:t/a:*.a\n";

const TYPED: &str = "x/README: text/x-readme\ny.a: t/a\nz: application/octet-stream\n";

static PRINTED: [Row; 8] = [
    Row {
        name: "zero bytes",
        words: &["plain", "--name-only", "-d", "/s", "-0", "y.a", "z"],
        globs: Some(Entry::Bytes(GLOBS)),
        status: 0,
        out: "y.a\0t/a\0z\0application/octet-stream\0",
        err: "",
    },
    Row {
        name: "types alone and escapes",
        words: &[
            "plain",
            "-d",
            "/s",
            "-b",
            "--escape",
            "--name-only",
            "y.a",
            "z\n",
        ],
        globs: Some(Entry::Bytes(GLOBS)),
        status: 0,
        out: "t/a\napplication/octet-stream\n",
        err: "",
    },
    Row {
        name: "the stored run",
        words: &["plain", "--name-only", "-d", "", "a"],
        globs: None,
        status: 0,
        out: "a: application/octet-stream\n",
        err: "mimelook: no data directories\n",
    },
    Row {
        name: "each file has a line",
        words: &["plain", "-d", ":/s:", "--name-only", "x/README", "y.a", "z"],
        globs: Some(Entry::Bytes(GLOBS)),
        status: 0,
        out: TYPED,
        err: "",
    },
    Row {
        name: "a missing file counts as empty, and that all are missing is said, with what was looked for",
        words: &["plain", "-d", "/s", "--name-only", "y.a"],
        globs: None,
        status: 0,
        out: "y.a: application/octet-stream\n",
        err: "mimelook: /s: no text files, such as /s/mime/globs2\n",
    },
    Row {
        name: "the first folder mime among several that have none is named",
        words: &["plain", "-d", "/t:/s/mime:/s/mime", "--name-only", "y.a"],
        globs: Some(Entry::Unreadable),
        status: 0,
        out: "y.a: application/octet-stream\n",
        err: "mimelook: /t:/s/mime:/s/mime: no text files, such as /t/mime/globs2; \
            there is /s/mime/globs2: DIRS end before /mime\n",
    },
    Row {
        name: "malformed lines are reported",
        words: &["plain", "-d", "/s", "--name-only", "y.a"],
        globs: Some(Entry::Bytes(b"nothing\n50:t/a:*.a\n\n# a comment\n300:t/b:*.a")),
        status: 0,
        out: "y.a: t/a\n",
        err: "mimelook: /s/mime/globs2: line 1 ignored\n\
            mimelook: /s/mime/globs2: line 5 ignored\n",
    },
    Row {
        name: "unreadable rules stop",
        words: &["plain", "-d", "/s", "--name-only", "y.a", "z"],
        globs: Some(Entry::Unreadable),
        status: 3,
        out: "",
        err: "mimelook: /s/mime/globs2: cannot read\n",
    },
];

/// A row is answered by its texts.
fn is_printed(rt: &impl Abort, alloc: Global, row: &Row) -> Result<(), Fail> {
    let wanted = Said {
        status: row.status,
        out: row.out,
        err: row.err,
    };
    match row.globs {
        None => says_over(rt, alloc, row.name, row.words, &[], wanted),
        Some(globs) => {
            let entries = [("/s/mime/globs2", globs)];
            says_over(rt, alloc, row.name, row.words, &entries, wanted)
        }
    }
}

#[test]
fn prints_each_row(rt: HostRuntime) -> Result<(), Fail> {
    for row in &PRINTED {
        is_printed(&rt, rt.alloc(), row)?;
    }
    Ok(())
}

// Worked rows of the rules that are kept, each a text of rules, a file and its type.
static KEPT: [(&str, &str, &str); 14] = [
    ("", "a", "application/octet-stream"),
    ("50:inode/x:*.a\n50:t/b:*.a\n", "q.a", "t/b"),
    ("50:t/any:*\n", "x/", "t/any"),
    (GZIP, "Data.tar.gz", "application/x-compressed-tar"),
    (GZIP, "Foo.TAR.gz", "application/x-compressed-tar"),
    ("50:t/m:makefile\n90:t/f:*file\n", "Makefile", "t/m"),
    ("60:t/g:*.gz\n50:t/t:*.tar.gz\n", "a.tar.gz", "t/g"),
    (CASES, "main.C", "text/x-c++src"),
    (CASES, "main.c", "text/x-csrc"),
    ("50:t/any:*\n10:t/g:*.gz\n", "a.gz", "t/any"),
    (NOTES, "a.doc", "application/msword"),
    ("0:t/a:__NOGLOBS__\n50:t/a:*.new\n", "f.new", "t/a"),
    ("50:t/a:*.y:cs,zz:more", "b.y", "t/a"),
    ("50:t/a:*.y:cs,zz:more", "b.Y", "application/octet-stream"),
];

const GZIP: &str = "50:application/gzip:*.gz\n50:application/x-compressed-tar:*.tar.gz\n";

const CASES: &str = "50:text/x-c++src:*.C:cs\n50:text/x-csrc:*.c\n";

const NOTES: &str = "50:application/msword:*.doc\n50:text/x-notes:*.doc\n";

/// By these rules a file's name has this type.
fn is_answered(
    rt: &impl Abort,
    alloc: Global,
    globs: &str,
    file: &str,
    kind: &str,
) -> Result<(), Fail> {
    let line = format!(in alloc; "{file}: {kind}\n")?;
    let wanted = Said {
        status: 0,
        out: line.as_str(),
        err: "",
    };
    let words = ["plain", "--name-only", "-d", "/s", file];
    let entries = [("/s/mime/globs2", Entry::Bytes(globs.as_bytes()))];
    says_over(rt, alloc, file, &words, &entries, wanted)
}

#[test]
fn answers_by_the_kept_rules(rt: HostRuntime) -> Result<(), Fail> {
    for &(globs, file, kind) in &KEPT {
        is_answered(&rt, rt.alloc(), globs, file, kind)?;
    }
    Ok(())
}

/// The longest name and one that is longer but for its directory have a type; the other is refused.
fn is_passed_over(
    rt: &impl Abort,
    alloc: Global,
    longest: &str,
    longer: &str,
    deep: &str,
) -> Result<(), Fail> {
    let line = format!(in alloc; "{longest}: t/any\n{deep}: t/any\n")?;
    let message = format!(in alloc; "mimelook: {longer}: name too long\n")?;
    let wanted = Said {
        status: 1,
        out: line.as_str(),
        err: message.as_str(),
    };
    let words = ["plain", "--name-only", "-d", "/s", longest, longer, deep];
    let entries = [("/s/mime/globs2", Entry::Bytes(b"50:t/any:*"))];
    says_over(rt, alloc, "long names", &words, &entries, wanted)
}

#[test]
fn passes_over_names_that_are_too_long(rt: HostRuntime) -> Result<(), Fail> {
    let alloc = rt.alloc();
    let longest = "a".repeat(alloc, 4_096)?;
    let longer = "a".repeat(alloc, 4_097)?;
    let deep = "a/".repeat(alloc, 4_097)?;
    is_passed_over(&rt, alloc, &longest, &longer, &deep)
}
