//! Rules that are never kept, which what works from text files leaves out.

use crate::tests::from_texts::type_of;
use crate::tests::ran::{alike, says, says_over};
use mime_fakes::{Drawer, Entry, Said, Shelf};
use mime_samples::texts::EMPTY;
use mime_tool::DirTexts;
use std::alloc::Global;
use std::process::Abort;
use std::test::Fail;

// Both files have a twin for older readers.
const C_FILES: &[u8] =
    b"50:text/x-c++src:*.C:cs\n50:text/x-c++src:*.C\n50:text/x-csrc:*.c:cs\n50:text/x-csrc:*.c\n";

const MAGIC: &[u8] = b"MIME-Magic\0\n[50:text/x-csrc]\n>0=\0\x02/*\n";

static ENTRIES: &[(&str, Entry<'static>)] = &[
    ("/c/mime/globs2", Entry::Bytes(C_FILES)),
    ("/c/mime/magic", Entry::Bytes(MAGIC)),
    ("main.C", Entry::Bytes(b"/* x")),
    ("main.c", Entry::Bytes(b"/* x")),
    ("cache", Entry::Bytes(b"old")),
    (
        "/both/mime/globs2",
        Entry::Bytes(b"50:a/p:*.C:cs\n50:a/p:*.C\n50:a/c:*.c:cs\n50:a/c:*.c\n"),
    ),
    (
        "/no-capital/mime/globs2",
        Entry::Bytes(b"50:t/a:*.c:cs\n50:t/a:*.c\n"),
    ),
    (
        "/lighter-capital/mime/globs2",
        Entry::Bytes(b"50:t/a:*.c:cs\n40:t/b:*.C:cs\n50:t/a:*.c\n"),
    ),
    (
        "/light-itself/mime/globs2",
        Entry::Bytes(b"50:t/a:*.c:cs\n40:t/b:*.C:cs\n40:t/a:*.c\n"),
    ),
    (
        "/no-letters/mime/globs2",
        Entry::Bytes(b"50:t/a:1:cs\n50:t/b:1\n"),
    ),
    (
        "/star/mime/globs2",
        Entry::Bytes(b"50:t/a:*:cs\n50:t/b:*\n"),
    ),
    (
        "/full/mime/globs2",
        Entry::Bytes(b"50:t/a:*.[ab]:cs\n50:t/a:*.[ab]\n"),
    ),
    ("/cs/mime/globs2", Entry::Bytes(b"50:t/a:a:cs\n")),
    (
        "/less/mime/globs2",
        Entry::Bytes(b"50:t/b:A:cs\n50:t/c:a\n"),
    ),
];

/// Words, and what they print.
struct Row {
    words: &'static [&'static str],
    out: &'static str,
}

static LISTED: [Row; 8] = [
    Row {
        words: &["list", "-d", "/both"],
        out: "50:a/p:*.C:cs\n50:a/c:*.c:cs\n",
    },
    Row {
        words: &["list", "-d", "/no-capital"],
        out: "50:t/a:*.c:cs\n50:t/a:*.c\n",
    },
    Row {
        words: &["list", "-d", "/lighter-capital"],
        out: "40:t/b:*.C:cs\n50:t/a:*.c:cs\n50:t/a:*.c\n",
    },
    Row {
        words: &["list", "-d", "/light-itself"],
        out: "40:t/b:*.C:cs\n50:t/a:*.c:cs\n",
    },
    Row {
        words: &["list", "-d", "/no-letters"],
        out: "50:t/a:1:cs\n",
    },
    Row {
        words: &["list", "-d", "/star"],
        out: "50:t/a:*:cs\n",
    },
    Row {
        words: &["list", "-d", "/full"],
        out: "50:t/a:*.[ab]:cs\n50:t/a:*.[ab]\n",
    },
    // What hides a rule may be another directory's.
    Row {
        words: &["list", "-d", "/cs:/less"],
        out: "50:t/b:A:cs\n50:t/a:a:cs\n",
    },
];

const NAMES_OF_C: &str = "main.C: text/x-c++src\nmain.c: text/x-csrc\n";

static LOOKED_UP: [Row; 2] = [
    Row {
        words: &["plain", "-d", "/c", "main.C", "main.c"],
        out: NAMES_OF_C,
    },
    Row {
        words: &["type", "-d", "/c", "main.C", "main.c"],
        out: NAMES_OF_C,
    },
];

/// A run that prints this and says nothing.
fn printed(out: &str) -> Said<'_> {
    Said {
        status: 0,
        out,
        err: "",
    }
}

fn are_printed(rt: &impl Abort, alloc: Global, rows: &[Row]) -> Result<(), Fail> {
    for row in rows {
        says_over(rt, alloc, row.out, row.words, ENTRIES, printed(row.out))?;
    }
    Ok(())
}

#[test]
fn lists_visible_rules(rt: HostRuntime) -> Result<(), Fail> {
    are_printed(&rt, rt.alloc(), &LISTED)
}

#[test]
fn looks_up_over_visible_rules(rt: HostRuntime) -> Result<(), Fail> {
    are_printed(&rt, rt.alloc(), &LOOKED_UP)
}

static BUILT: [Row; 3] = [
    Row {
        words: &["build", "-d", "/c", "-o", "cache"],
        out: "",
    },
    Row {
        words: &["list", "-c", "cache"],
        out: "50:text/x-c++src:*.C:cs\n50:text/x-csrc:*.c:cs\n",
    },
    Row {
        words: &["type", "-c", "cache", "main.C", "main.c"],
        out: NAMES_OF_C,
    },
];

#[test]
fn builds_of_visible_rules(rt: HostRuntime) -> Result<(), Fail> {
    let mut files = Drawer {
        shelf: Shelf { entries: ENTRIES },
        path: "cache",
        ending: ".new",
        laid: None,
    };
    for row in &BUILT {
        says(
            &rt,
            rt.alloc(),
            row.out,
            row.words,
            &mut files,
            printed(row.out),
        )?;
    }
    Ok(())
}

static DIRS: [DirTexts<'static>; 1] = [DirTexts {
    globs2: C_FILES,
    magic: MAGIC,
    ..EMPTY
}];

static ANSWERED: [(&str, &str); 2] = [("main.C", "text/x-c++src"), ("main.c", "text/x-csrc")];

fn is_answered(rt: &impl Abort, alloc: Global, name: &str, kind: &str) -> Result<(), Fail> {
    let found = type_of(alloc, &DIRS, name.as_bytes(), Some(b"/* x"))?;
    alike(rt, name, str::from_utf8(found.kind.as_slice())?, kind);
    alike(rt, name, found.read, 0);
    Ok(())
}

#[test]
fn answers_over_visible_rules(rt: HostRuntime) -> Result<(), Fail> {
    for &(name, kind) in &ANSWERED {
        is_answered(&rt, rt.alloc(), name, kind)?;
    }
    Ok(())
}
