//! Matches and counts of worked rows, with counts that were made by hand, and what is folded.

use crate::tests::checked::alike;
use mime_base::{Meter, fold, glob_matches};
use std::process::Abort;
use std::test::Fail;

#[test]
fn folds_the_capitals_of_ascii(rt: HostRuntime) -> Result<(), Fail> {
    let text = fold(rt.alloc(), b"Ab\xC3\x84")?;
    alike(&rt, "folded", text.as_slice(), b"ab\xC3\x84");
    Ok(())
}

/// What a row shows, a pattern, a name, and whether they match.
type Row = (&'static str, &'static [u8], &'static [u8], bool);

/// Each row's name matches its pattern or doesn't, as the row says.
fn are_matched(rt: &impl Abort, cased: bool, rows: &[Row]) {
    for (row, pattern, name, matches) in rows {
        let found = glob_matches(pattern, cased, name, &mut Meter::new());
        alike(rt, row, found, *matches);
    }
}

static ELEMENTS: [Row; 8] = [
    ("a negated set takes another byte", b"[!a-c]x", b"dx", true),
    ("and none of its own", b"[!a-c]x", b"bx", false),
    ("an end is a member where it is first", b"[]]", b"]", true),
    ("a dash is a member where it is last", b"[a-]", b"-", true),
    ("a bracket without an end", b"a[b", b"a[b", true),
    ("an escaped star", b"x\\*", b"x*", true),
    ("is no star", b"x\\*", b"xy", false),
    ("a backslash at the end", b"a\\", b"a\\", true),
];

#[test]
fn glob_elements(rt: HostRuntime) {
    are_matched(&rt, true, &ELEMENTS);
}

#[test]
fn without_case(rt: HostRuntime) {
    let rows: [Row; 3] = [
        ("a suffix", b"*.TAR.gz", b"Data.tar.GZ", true),
        ("a range that is empty once folded", b"[Z-a]", b"a", false),
        ("a range and an escape", b"[A-Z]\\A", b"qa", true),
    ];
    are_matched(&rt, false, &rows);
}

/// A pattern, a name, whether they match, and how many tests of an element that takes.
struct MatchCount {
    name: &'static str,
    pattern: &'static [u8],
    file: &'static [u8],
    matches: bool,
    tests: u64,
}

/// Whether a pattern matches a name, and how many tests that takes, if no record is counted.
fn count(pattern: &[u8], name: &[u8]) -> (bool, Option<u64>) {
    let mut meter = Meter::new();
    let matches = glob_matches(pattern, true, name, &mut meter);
    (matches, (meter.nodes == 0).then_some(meter.bytes))
}

/// Counted by hand, place by place: 'b against x' is one test, and so is 'b against the end'.
static MATCHES: [MatchCount; 7] = [
    MatchCount {
        name: "no star: each element",
        pattern: b"abc",
        file: b"abc",
        matches: true,
        tests: 3,
    },
    MatchCount {
        name: "a star alone",
        pattern: b"*",
        file: b"anything",
        matches: true,
        tests: 0,
    },
    MatchCount {
        name: "a literal ending",
        pattern: b"*.tar.gz",
        file: b"Data.tar.gz",
        matches: true,
        tests: 7,
    },
    MatchCount {
        name: "a-a, b-x, b-b, c-c",
        pattern: b"a*b*c",
        file: b"axbbyc",
        matches: true,
        tests: 4,
    },
    MatchCount {
        name: "both elements at the end",
        pattern: b"*[0-9]?",
        file: b"ab12",
        matches: true,
        tests: 2,
    },
    MatchCount {
        name: "and not before it",
        pattern: b"*[0-9]?",
        file: b"a1b2c",
        matches: true,
        tests: 2,
    },
    MatchCount {
        name: "a bracket without an end",
        pattern: b"*[?",
        file: b"a[b",
        matches: true,
        tests: 2,
    },
];

/// A row for each way in which a name does not match.
static MISMATCHES: [MatchCount; 13] = [
    MatchCount {
        name: "no element",
        pattern: b"",
        file: b"a",
        matches: false,
        tests: 0,
    },
    MatchCount {
        name: "the name ends first",
        pattern: b"a",
        file: b"",
        matches: false,
        tests: 1,
    },
    MatchCount {
        name: "the last element refuses",
        pattern: b"abc",
        file: b"abd",
        matches: false,
        tests: 3,
    },
    MatchCount {
        name: "the pattern ends first",
        pattern: b"abc",
        file: b"abcd",
        matches: false,
        tests: 3,
    },
    MatchCount {
        name: "the ending is longer than the name",
        pattern: b"*.tar.gz",
        file: b"a.gz",
        matches: false,
        tests: 1,
    },
    MatchCount {
        name: "the ending differs",
        pattern: b"*.gz",
        file: b"a.xz",
        matches: false,
        tests: 2,
    },
    MatchCount {
        name: "an element of the ending differs",
        pattern: b"*a[b]c",
        file: b"xabd",
        matches: false,
        tests: 3,
    },
    MatchCount {
        name: "no byte is left for the ending",
        pattern: b"*?",
        file: b"",
        matches: false,
        tests: 1,
    },
    MatchCount {
        name: "a star each, and an ending that differs",
        pattern: b"*a*a*b",
        file: b"aaaa",
        matches: false,
        tests: 3,
    },
    MatchCount {
        name: "each place refuses, and the end",
        pattern: b"*b*c",
        file: b"aaa",
        matches: false,
        tests: 4,
    },
    MatchCount {
        name: "two tests at each place",
        pattern: b"*ab*",
        file: b"aaa",
        matches: false,
        tests: 6,
    },
    MatchCount {
        name: "a-x, a-a, b-b, and no byte is left for c",
        pattern: b"*ab*c",
        file: b"xab",
        matches: false,
        tests: 4,
    },
    MatchCount {
        name: "a bracket without an end at each place",
        pattern: b"*[*c",
        file: b"aaa",
        matches: false,
        tests: 4,
    },
];

#[test]
fn counts(rt: HostRuntime) {
    for row in MATCHES.iter().chain(&MISMATCHES) {
        let counted = count(row.pattern, row.file);
        alike(&rt, row.name, counted, (row.matches, Some(row.tests)));
    }
}

// Where trying all cuts of each star takes billions of tests and more.
#[test]
fn counts_of_a_long_name(rt: HostRuntime) {
    let letters = [b'a'; 4096];
    let brackets = [b'['; 4096];
    let mut many = [b'['; 255];
    many[0] = b'*';
    many[253] = b'a';
    many[254] = b'*';
    let rows: [(&str, &[u8], &[u8], u64); 5] = [
        (
            "one test a star, and one at the end",
            b"*a*a*a*b",
            &letters,
            4,
        ),
        ("as with a set", b"*a*a*a*[b]", &letters, 4),
        (
            "four letters and a set at the end",
            b"*aaaa[b]",
            &letters,
            5,
        ),
        // at each of 4,092 places, and where the name ends at the set
        ("five tests at each place", b"*aaaa[b]*", &letters, 5 * 4093),
        // at each of 3,844 places, and where the name ends at the letter
        ("252 brackets without an end", &many, &brackets, 253 * 3845),
    ];
    for (row, pattern, name, tests) in rows {
        alike(&rt, row, count(pattern, name), (false, Some(tests)));
    }
}
