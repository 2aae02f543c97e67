//! What `check` prints of caches, and which part it says is not read back.

use super::{Cache, ROW, Row, WHOLE, are_answered, is_answered_over};
use crate::tests::ran::{alike, says, says_over};
use mime_fakes::{Drawer, Entry, Said, Shelf, ended};
use mime_samples::caches::SAMPLE;
use std::alloc::Global;
use std::process::Abort;
use std::test::Fail;

const CHECK: &[&str] = &["check", "-c", "/c"];

/// A row of which a part is not read back.
const NO_DATABASE: Row = Row {
    words: CHECK,
    status: 1,
    ..ROW
};

const NOTHING: &str =
    "rules 0\naliases 0\nsubclasses 0\nsections 0\nlines 0\nicons 0\ngeneric-icons 0\n";

const OF_SAMPLE: &str =
    "rules 2\naliases 1\nsubclasses 1\nsections 1\nlines 1\nicons 0\ngeneric-icons 0\n";

static CHECKS: [Row; 19] = [
    Row {
        name: "the sample",
        words: CHECK,
        out: OF_SAMPLE,
        ..ROW
    },
    Row {
        name: "the sample by the long name",
        words: &["check", "--cache=/c"],
        out: OF_SAMPLE,
        ..ROW
    },
    Row {
        name: "the sample without the zero at its end",
        words: CHECK,
        cache: Cache {
            length: 239,
            ..WHOLE
        },
        out: OF_SAMPLE,
        ..ROW
    },
    Row {
        name: "a literal rule that is case-sensitive",
        words: CHECK,
        cache: Cache {
            at: 86,
            byte: 1,
            ..WHOLE
        },
        out: OF_SAMPLE,
        ..ROW
    },
    Row {
        name: "more aliases than bytes",
        cache: Cache {
            at: 40,
            byte: 0xff,
            ..WHOLE
        },
        err: "mimelook: /c: no database: aliases\n",
        ..NO_DATABASE
    },
    Row {
        name: "more types with parents than bytes",
        cache: Cache {
            at: 52,
            byte: 0xff,
            ..WHOLE
        },
        err: "mimelook: /c: no database: subclasses\n",
        ..NO_DATABASE
    },
    Row {
        name: "a literal with a capital, without regard to case",
        cache: Cache {
            at: 232,
            byte: b'M',
            ..WHOLE
        },
        err: "mimelook: /c: no database: literals\n",
        ..NO_DATABASE
    },
    Row {
        name: "a tree that loops",
        cache: Cache {
            at: 107,
            byte: 0x60,
            ..WHOLE
        },
        err: "mimelook: /c: no database: suffixes\n",
        ..NO_DATABASE
    },
    Row {
        name: "more globs than bytes",
        cache: Cache {
            at: 144,
            byte: 0xff,
            ..WHOLE
        },
        err: "mimelook: /c: no database: globs\n",
        ..NO_DATABASE
    },
    Row {
        name: "an extent that is greater by one",
        cache: Cache {
            at: 155,
            byte: 4,
            ..WHOLE
        },
        err: "mimelook: /c: no database: magic\n",
        ..NO_DATABASE
    },
    Row {
        name: "more icons than bytes",
        cache: Cache {
            at: 212,
            byte: 0xff,
            ..WHOLE
        },
        err: "mimelook: /c: no database: icons\n",
        ..NO_DATABASE
    },
    Row {
        name: "more generic icons than bytes",
        cache: Cache {
            at: 216,
            byte: 0xff,
            ..WHOLE
        },
        err: "mimelook: /c: no database: generic icons\n",
        ..NO_DATABASE
    },
    Row {
        name: "a header alone",
        cache: Cache {
            length: 40,
            ..WHOLE
        },
        err: "mimelook: /c: no database: aliases\n",
        ..NO_DATABASE
    },
    Row {
        name: "39 bytes",
        words: CHECK,
        cache: Cache {
            length: 39,
            ..WHOLE
        },
        status: 3,
        err: "mimelook: /c: truncated\n",
        ..ROW
    },
    Row {
        name: "another version",
        words: CHECK,
        cache: Cache {
            at: 3,
            byte: 1,
            ..WHOLE
        },
        status: 3,
        err: "mimelook: /c: version 1.1\n",
        ..ROW
    },
    Row {
        name: "no cache",
        words: &["check", "-c", "/none"],
        status: 3,
        err: "mimelook: /none: cannot read\n",
        ..ROW
    },
    Row {
        name: "a folder in place of the cache",
        words: &["check", "-c", "/folder"],
        status: 3,
        err: "mimelook: /folder: cannot read\n",
        ..ROW
    },
    Row {
        name: "a cache that can't be opened",
        words: &["check", "-c", "/closed"],
        status: 3,
        err: "mimelook: /closed: cannot read\n",
        ..ROW
    },
    Row {
        name: "a file that is no cache",
        words: &["check", "-c", "/x"],
        status: 3,
        err: "mimelook: /x: truncated\n",
        ..ROW
    },
];

#[test]
fn checks_the_sample_in_parts(rt: HostRuntime) -> Result<(), Fail> {
    are_answered(&rt, rt.alloc(), &CHECKS)
}

/// The sample whose line is its own child.
fn own_child() -> [u8; 240] {
    let mut cache = SAMPLE;
    cache[203] = 1;
    cache[207] = 0xb0;
    cache
}

#[test]
fn checks_a_line_that_is_its_own_child(rt: HostRuntime) -> Result<(), Fail> {
    let row = Row {
        name: "a line that is its own child",
        err: "mimelook: /c: no database: magic\n",
        ..NO_DATABASE
    };
    is_answered_over(&rt, rt.alloc(), &row, &own_child())
}

static ENTRIES: &[(&str, Entry<'static>)] = &[
    (
        "/s/mime/globs2",
        Entry::Bytes(
            b"50:t/a:README\n50:t/a:readme:cs\n60:t/b:*.tar.gz\n50:t/c:*.gz\n50:t/d:*\n50:t/e:a*b\n",
        ),
    ),
    ("/s/mime/aliases", Entry::Bytes(b"t/a t/c\nt/b t/c\n")),
    (
        "/s/mime/subclasses",
        Entry::Bytes(b"t/b t/a\nt/a t/c\nt/b t/c\nt/a t/b\n"),
    ),
    (
        "/s/mime/magic",
        Entry::Bytes(
            b"MIME-Magic\0\n[50:t/a]\n>4=\0\x02ab\n1>0=\0\x02cd\n2>0=\0\x02ef\n>0=\0\x01g\n[40:t/b]\n>0=\0\x01h\n",
        ),
    ),
    ("/s/mime/icons", Entry::Bytes(b"t/g:pkg\nt/a:pkg\n")),
    (
        "/s/mime/generic-icons",
        Entry::Bytes(b"t/g:package-x-generic\n"),
    ),
    // the rule without cs never counts beside that with it
    (
        "/twins/mime/globs2",
        Entry::Bytes(b"50:a/p:*.C:cs\n50:a/p:*.C\n50:a/c:*.c:cs\n50:a/c:*.c\n"),
    ),
    ("/aliases/mime/aliases", Entry::Bytes(b"t/a t/c\nt/b t/c\n")),
];

const OF_ALL: &str =
    "rules 6\naliases 2\nsubclasses 4\nsections 2\nlines 5\nicons 2\ngeneric-icons 1\n";

const OF_TWINS: &str =
    "rules 2\naliases 0\nsubclasses 0\nsections 0\nlines 0\nicons 0\ngeneric-icons 0\n";

/// Words over directories, and what they print.
struct Over {
    words: &'static [&'static str],
    out: &'static str,
}

static OVER: [Over; 3] = [
    Over {
        words: &["check", "-d", "/s"],
        out: OF_ALL,
    },
    Over {
        words: &["check", "--data-dirs", "/none:/s"],
        out: OF_ALL,
    },
    Over {
        words: &["check", "-d", "/twins"],
        out: OF_TWINS,
    },
];

#[test]
fn checks_directories(rt: HostRuntime) -> Result<(), Fail> {
    for row in &OVER {
        let wanted = Said {
            status: 0,
            out: row.out,
            err: "",
        };
        says_over(&rt, rt.alloc(), row.out, row.words, ENTRIES, wanted)?;
    }
    Ok(())
}

/// The cache that `build` writes of a directory.
fn built(rt: &impl Abort, alloc: Global, directory: &str) -> Result<Vec<u8>, Fail> {
    let mut files = Drawer {
        shelf: Shelf { entries: ENTRIES },
        path: "cache",
        ending: ".new",
        laid: None,
    };
    let words = ["build", "-d", directory, "-o", "cache"];
    let found = ended(alloc, &words, &mut files);
    alike(rt, directory, found.status, 0);
    match files.laid {
        Some(bytes) => Ok(bytes),
        None => Err(Fail::from("nothing was built")),
    }
}

/// A cache whose two aliases stand after the header, four texts of four bytes and the count, with their entries exchanged.
fn exchanged(mut bytes: Vec<u8>) -> Vec<u8> {
    for i in 60..68 {
        if i + 8 < bytes.len() {
            bytes.swap(i, i + 8);
        }
    }
    bytes
}

#[test]
fn checks_what_is_built(rt: HostRuntime) -> Result<(), Fail> {
    let alloc = rt.alloc();
    let nothing = Row {
        words: CHECK,
        out: NOTHING,
        ..ROW
    };
    is_answered_over(&rt, alloc, &nothing, built(&rt, alloc, "")?.as_slice())?;
    let all = Row {
        words: CHECK,
        out: OF_ALL,
        ..ROW
    };
    is_answered_over(&rt, alloc, &all, built(&rt, alloc, "/s")?.as_slice())
}

#[test]
fn checks_aliases_that_fall(rt: HostRuntime) -> Result<(), Fail> {
    let alloc = rt.alloc();
    let cache = exchanged(built(&rt, alloc, "/aliases")?);
    let row = Row {
        err: "mimelook: /c: no database: aliases\n",
        ..NO_DATABASE
    };
    is_answered_over(&rt, alloc, &row, cache.as_slice())
}
