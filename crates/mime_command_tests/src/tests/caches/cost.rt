//! The cost that `type` reports.

use crate::tests::ran::alike;
use mime_base::Database;
use mime_fakes::{Entry, Shelf, ended, ran};
use mime_samples::texts::of_rules;
use mime_store::write_cache;
use std::alloc::Global;
use std::process::Abort;
use std::test::Fail;

/// A lookup of FILE over the cache of no rule.
struct Row {
    words: &'static [&'static str],
    printed: &'static str,
}

/// The header, and what each list says of its length: literals and tree (twice where the name has capitals), globs, then
/// the extent and magic. No text is compared, since there is none. For contents alone no rule is asked.
static ROWS: [Row; 6] = [
    Row {
        words: &["type", "-c", "/c", "--name-only", "--cost", "a"],
        printed: "a: application/octet-stream nodes=4 bytes=0 read=0\n",
    },
    Row {
        words: &["type", "-c", "/c", "--name-only", "--cost", "A"],
        printed: "A: application/octet-stream nodes=6 bytes=0 read=0\n",
    },
    Row {
        words: &["type", "-c", "/c", "--cost", "/hello"],
        printed: "/hello: text/plain nodes=6 bytes=0 read=5\n",
    },
    Row {
        words: &["type", "-c", "/c", "--cost", "/HELLO"],
        printed: "/HELLO: text/plain nodes=8 bytes=0 read=5\n",
    },
    Row {
        words: &["type", "-c", "/c", "--content-only", "--cost", "/HELLO"],
        printed: "/HELLO: text/plain nodes=3 bytes=0 read=5\n",
    },
    // So many FILEs would pay for what is read back, if costs weren't told.
    Row {
        words: &[
            "type",
            "-c",
            "/c",
            "--content-only",
            "--cost",
            "/hello",
            "/hello",
            "/hello",
            "/hello",
            "/hello",
            "/hello",
            "/hello",
            "/hello",
            "/hello",
            "/hello",
            "/hello",
        ],
        printed: "/hello: text/plain nodes=3 bytes=0 read=5\n/hello: text/plain nodes=3 bytes=0 read=5\n/hello: text/plain nodes=3 bytes=0 read=5\n/hello: text/plain nodes=3 bytes=0 read=5\n/hello: text/plain nodes=3 bytes=0 read=5\n/hello: text/plain nodes=3 bytes=0 read=5\n/hello: text/plain nodes=3 bytes=0 read=5\n/hello: text/plain nodes=3 bytes=0 read=5\n/hello: text/plain nodes=3 bytes=0 read=5\n/hello: text/plain nodes=3 bytes=0 read=5\n/hello: text/plain nodes=3 bytes=0 read=5\n",
    },
];

/// The cache of no rule, of 88 bytes.
fn of_no_rule(alloc: Global) -> Result<Vec<u8>, Fail> {
    let database = Database::of_rules(alloc, Vec::new(alloc));
    Ok(write_cache(alloc, &database, 88)?)
}

/// A run over a cache prints a row's text.
fn prints(rt: &impl Abort, alloc: Global, cache: &[u8], row: &Row) {
    let entries = [
        ("/c", Entry::Bytes(cache)),
        ("/hello", Entry::Bytes(b"hello")),
        ("/HELLO", Entry::Bytes(b"hello")),
    ];
    let mut files = Shelf { entries: &entries };
    let found = ended(alloc, row.words, &mut files);
    alike(rt, "status", found.status, 0);
    alike(rt, "said", found.err.as_slice(), b"");
    alike(rt, "printed", found.out.as_slice(), row.printed.as_bytes());
}

#[test]
fn tells_the_cost(rt: HostRuntime) -> Result<(), Fail> {
    let cache = of_no_rule(rt.alloc())?;
    for row in &ROWS {
        prints(&rt, rt.alloc(), &cache, row);
    }
    Ok(())
}

/// Names that one or both of two rules match, and others.
static NAMES: [&str; 14] = [
    "m", "mx", "ax", "a", "M", "mk", "xx", "b", "axe", "MX", "AX", "c", "readme", "makefile",
];

/// Two rules that stand in the glob list.
const FEW_RULES: &[u8] = b"50:t/m:m*\n60:t/x:?x*:cs\n";

/// Two more beside them, which stand elsewhere.
const MORE_RULES: &[u8] = b"50:t/m:m*\n60:t/x:?x*:cs\n50:t/r:readme\n50:t/r:makefile\n";

/// The cache of these rules.
fn cache_of(alloc: Global, globs2: &[u8]) -> Result<Vec<u8>, Fail> {
    let database = of_rules(alloc, globs2)?;
    Ok(write_cache(alloc, &database, usize::MAX)?)
}

/// What runs over a cache print of each name alone; they say nothing.
fn apart(rt: &impl Abort, alloc: Global, cache: &[u8]) -> Vec<u8> {
    let entries = [("/c", Entry::Bytes(cache))];
    let mut files = Shelf { entries: &entries };
    let (mut out, mut err) = (Vec::new(alloc), Vec::new(alloc));
    for &name in &NAMES {
        let alone = ["type", "-c", "/c", "--name-only", "--cost", name];
        let status = ran(alloc, &alone, &mut files, &mut out, &mut err);
        alike(rt, "status", status, 0);
    }
    alike(rt, "said", err.as_slice(), b"");
    out
}

/// The words of a run over all names.
fn of_all_names(alloc: Global) -> Result<Vec<&'static str>, Fail> {
    let mut words = Vec::from_slice(alloc, &["type", "-c", "/c", "--name-only", "--cost"])?;
    words.extend_from_slice(&NAMES)?;
    Ok(words)
}

/// Of many names each has the line that it has in a run of its own: where costs are told nothing is read back.
fn cost_alike(rt: &impl Abort, alloc: Global, cache: &[u8]) -> Result<(), Fail> {
    let words = of_all_names(alloc)?;
    let entries = [("/c", Entry::Bytes(cache))];
    let found = ended(alloc, &words, &mut Shelf { entries: &entries });
    alike(rt, "status", found.status, 0);
    alike(rt, "said", found.err.as_slice(), b"");
    let apart = apart(rt, alloc, cache);
    alike(rt, "printed", found.out.as_slice(), apart.as_slice());
    Ok(())
}

#[test]
fn many_names_cost_alike(rt: HostRuntime) -> Result<(), Fail> {
    let alloc = rt.alloc();
    let few = cache_of(alloc, FEW_RULES)?;
    alike(&rt, "no room", few.len() < 64 + 2 + 64 + 3, true);
    cost_alike(&rt, alloc, &few)?;
    let more = cache_of(alloc, MORE_RULES)?;
    alike(&rt, "room", 64 + 2 + 64 + 3 <= more.len(), true);
    cost_alike(&rt, alloc, &more)
}
