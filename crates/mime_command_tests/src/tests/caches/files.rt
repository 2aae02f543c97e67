//! Files that have no line, and lookups that stop at a cache.

use super::{Cache, ROW, Row, WHOLE, are_answered};
use crate::tests::ran::says_over;
use mime_fakes::{Entry, Said};
use mime_samples::caches::SAMPLE;
use std::test::Fail;

static FILES: [Row; 3] = [
    Row {
        name: "files without an answer are skipped",
        words: &["type", "-c", "/c", "/missing", "/x", "/folder", "/mk"],
        status: 1,
        out: "/x: t/g\n/mk: t/m\n",
        err: "mimelook: /missing: cannot open\nmimelook: /folder: cannot read\n",
        ..ROW
    },
    Row {
        name: "a lookup stops at a cache that was cut",
        words: &["type", "-c", "/c", "/missing", "/x", "/missing"],
        cache: Cache {
            length: 39,
            ..WHOLE
        },
        status: 3,
        err: "mimelook: /missing: cannot open\nmimelook: /c: truncated\n",
        ..ROW
    },
    // The last of so many are looked up by what was read back of the cache.
    Row {
        name: "many files by their contents",
        words: &[
            "type",
            "-c",
            "/c",
            "--content-only",
            "--brief",
            "/x",
            "/mk",
            "/x",
            "/mk",
            "/x",
            "/mk",
            "/x",
            "/mk",
            "/x",
            "/mk",
            "/c",
            "/x",
        ],
        out: "t/g\nt/g\nt/g\nt/g\nt/g\nt/g\nt/g\nt/g\nt/g\nt/g\napplication/octet-stream\nt/g\n",
        ..ROW
    },
];

#[test]
fn passes_over_files_without_an_answer(rt: HostRuntime) -> Result<(), Fail> {
    are_answered(&rt, rt.alloc(), &FILES)
}

// The name is one byte too long, which comes before the cache is opened.
#[test]
fn a_name_too_long_is_passed_over(rt: HostRuntime) -> Result<(), Fail> {
    let alloc = rt.alloc();
    let longer = "a".repeat(alloc, 4_097)?;
    let said = format!(in alloc; "mimelook: {longer}: name too long\nmimelook: /c: truncated\n")?;
    let wanted = Said {
        status: 3,
        out: "",
        err: said.as_str(),
    };
    let words = ["type", "-c", "/c", "--name-only", longer.as_str(), "x"];
    let entries = [("/c", Entry::Bytes(b"cut"))];
    says_over(&rt, alloc, "a long name", &words, &entries, wanted)
}

// Where contents alone are asked a name may be as long.
#[test]
fn a_long_name_has_a_content(rt: HostRuntime) -> Result<(), Fail> {
    let alloc = rt.alloc();
    let longer = "a".repeat(alloc, 4_097)?;
    let said = format!(in alloc; "{longer}: text/plain\n")?;
    let wanted = Said {
        status: 0,
        out: said.as_str(),
        err: "",
    };
    let words = ["type", "-c", "/c", "--content-only", longer.as_str()];
    let entries = [
        ("/c", Entry::Bytes(&SAMPLE)),
        (longer.as_str(), Entry::Bytes(b"hello")),
    ];
    says_over(&rt, alloc, "a long name", &words, &entries, wanted)
}
