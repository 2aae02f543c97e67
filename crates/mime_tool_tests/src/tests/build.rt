//! What `build` stores, and what it says.

use crate::tests::ran::{alike, says};
use mime_base::{Database, GlobRule, Pattern, TypeName};
use mime_fakes::{Drawer, Entry, FailingDrawer, Said, Shelf, ended_by, in_environment};
use mime_store::write_cache;
use mime_tool::{FileFault, Files, Process};
use std::alloc::Global;
use std::process::Abort;
use std::test::Fail;

// The text files of the directories, in the order in which they are read.
static DATA: [&str; 12] = [
    "/d/mime/globs2",
    "/d/mime/magic",
    "/d/mime/aliases",
    "/d/mime/subclasses",
    "/d/mime/icons",
    "/d/mime/generic-icons",
    "/e/mime/globs2",
    "/e/mime/magic",
    "/e/mime/aliases",
    "/e/mime/subclasses",
    "/e/mime/icons",
    "/e/mime/generic-icons",
];

static ENTRIES: &[(&str, Entry<'static>)] = &[
    ("/e/mime/globs2", Entry::Bytes(b"60:t/b:*.b\n")),
    ("/d/mime/globs2", Entry::Bytes(b"50:t/a:*.a\nnothing\n")),
    ("/c", Entry::Bytes(b"old")),
];

static WORDS: [&str; 5] = ["build", "-d", "/d:/e", "-o", "/c"];

const IGNORED: &str = "mimelook: /d/mime/globs2: line 2 ignored\n";

// Only `/c` can be written.
fn drawer() -> Drawer<'static> {
    Drawer {
        shelf: Shelf { entries: ENTRIES },
        path: "/c",
        ending: ".new",
        laid: None,
    }
}

fn rule(alloc: Global, weight: u8, kind: &[u8], pattern: &[u8]) -> Result<GlobRule, Fail> {
    Ok(GlobRule {
        weight,
        kind: TypeName::new(alloc, kind)?,
        pattern: Pattern::new(alloc, pattern)?,
        cased: false,
    })
}

static RULES: [(u8, &[u8], &[u8]); 2] = [(50, b"t/a", b"*.a"), (60, b"t/b", b"*.b")];

// The rules of both directories.
fn rules_of_both(alloc: Global) -> Result<Vec<GlobRule>, Fail> {
    let mut rules = Vec::new(alloc);
    for &(weight, kind, pattern) in &RULES {
        let rule = rule(alloc, weight, kind, pattern)?;
        rules.push(rule)?;
    }
    Ok(rules)
}

// The cache of the rules of both directories.
fn cache_of_both(alloc: Global) -> Result<Vec<u8>, Fail> {
    let rules = rules_of_both(alloc)?;
    let database = Database::of_rules(alloc, rules);
    Ok(write_cache(alloc, &database, 1_024)?)
}

/// What files store at a path.
fn stored<F: Files>(alloc: Global, files: &mut F, path: &str) -> Result<Option<Vec<u8>>, Fail> {
    Ok(files.whole(alloc, path)?)
}

/// What was stored at `/c` is the cache of both directories, and nothing is left beside it.
fn is_stored(rt: &impl Abort, alloc: Global, files: &mut Drawer<'_>) -> Result<(), Fail> {
    let cache = stored(alloc, files, "/c")?.ok_or("nothing was stored")?;
    is_of_both(rt, alloc, &cache)?;
    is_not_stored(rt, alloc, files, "/c.new")
}

/// These bytes are the cache of both directories.
fn is_of_both(rt: &impl Abort, alloc: Global, cache: &[u8]) -> Result<(), Fail> {
    let wanted = cache_of_both(alloc)?;
    alike(rt, "version 1.2", cache.starts_with(b"\0\x01\0\x02"), true);
    alike(rt, "the cache", cache, wanted.as_slice());
    Ok(())
}

/// Nothing is stored at a path.
fn is_not_stored(
    rt: &impl Abort,
    alloc: Global,
    files: &mut Drawer<'_>,
    path: &str,
) -> Result<(), Fail> {
    alike(rt, path, stored(alloc, files, path)?, None);
    Ok(())
}

#[test]
fn stores_the_cache_of_the_database(rt: HostRuntime) -> Result<(), Fail> {
    let wanted = Said {
        status: 0,
        out: "",
        err: IGNORED,
    };
    let mut files = drawer();
    says(
        &rt,
        rt.alloc(),
        "both directories",
        &WORDS,
        &mut files,
        wanted,
    )?;
    is_stored(&rt, rt.alloc(), &mut files)
}

#[test]
fn says_what_cannot_be_written(rt: HostRuntime) -> Result<(), Fail> {
    let wanted = Said {
        status: 3,
        out: "",
        err: "mimelook: /f: cannot write\n",
    };
    let words = ["build", "-d", "/e", "-o", "/f"];
    let mut files = drawer();
    says(&rt, rt.alloc(), "another file", &words, &mut files, wanted)?;
    is_not_stored(&rt, rt.alloc(), &mut files, "/f")
}

// Where no directory has a text file: what is said of the file, and of the directories.
static OVER_NOTHING: [(&str, &str, &str, u8, &str); 4] = [
    (
        "a file that is there",
        "/n",
        "/c",
        3,
        "mimelook: /n: no text files, such as /n/mime/globs2\nmimelook: /c: not replaced\n",
    ),
    (
        "no directory",
        "",
        "/c",
        3,
        "mimelook: no data directories\nmimelook: /c: not replaced\n",
    ),
    (
        "one that isn't",
        "/n:/m",
        "/f",
        0,
        "mimelook: /n:/m: no text files, such as /n/mime/globs2\n",
    ),
    (
        "a file beside it",
        "/e:/n",
        "/g",
        3,
        "mimelook: /g: cannot write\n",
    ),
];

/// A build over nothing says this, and the file that is there stays.
fn is_kept(
    rt: &impl Abort,
    alloc: Global,
    name: &str,
    (directories, file): (&str, &str),
    (status, err): (u8, &str),
) -> Result<(), Fail> {
    let mut files = Drawer {
        path: "/f",
        ..drawer()
    };
    let words = ["build", "-d", directories, "-o", file];
    let out = "";
    says(
        rt,
        alloc,
        name,
        &words,
        &mut files,
        Said { status, out, err },
    )?;
    let cache = stored(alloc, &mut files, "/c")?.ok_or("the file is gone")?;
    alike(rt, name, cache.as_slice(), b"old");
    alike(
        rt,
        name,
        stored(alloc, &mut files, "/f")?.is_some(),
        status == 0,
    );
    Ok(())
}

#[test]
fn keeps_a_file_over_nothing(rt: HostRuntime) -> Result<(), Fail> {
    for &(name, directories, file, status, err) in &OVER_NOTHING {
        is_kept(&rt, rt.alloc(), name, (directories, file), (status, err))?;
    }
    Ok(())
}

/// A build to standard output prints the cache of both directories, or nothing to a terminal, and stores nothing.
fn is_printed(
    rt: &impl Abort,
    alloc: Global,
    to_terminal: bool,
    (status, err): (u8, &str),
) -> Vec<u8> {
    let process = Process {
        to_terminal,
        ..in_environment(None)
    };
    let words = ["build", "-d", "/d:/e", "-o", "-"];
    let mut files = Shelf { entries: ENTRIES };
    let found = ended_by(alloc, &words, &[], process, &mut files);
    alike(rt, "status", found.status, status);
    alike(rt, "said", found.err.as_slice(), err.as_bytes());
    found.out
}

#[test]
fn prints_the_cache(rt: HostRuntime) -> Result<(), Fail> {
    let printed = is_printed(&rt, rt.alloc(), false, (0, IGNORED));
    is_of_both(&rt, rt.alloc(), &printed)
}

#[test]
fn prints_no_cache_to_a_terminal(rt: HostRuntime) {
    let refused = "mimelook: no cache is written to a terminal\n";
    let printed = is_printed(&rt, rt.alloc(), true, (3, refused));
    alike(&rt, "printed", printed.as_slice(), b"");
}

/// That many calls are met, and then one fails so: the run ends as is wanted, and the file stays.
fn leaves_the_file(
    rt: &impl Abort,
    alloc: Global,
    at: &str,
    (calls, fault): (usize, FileFault),
    wanted: Said<'_>,
) -> Result<(), Fail> {
    let mut files = FailingDrawer {
        drawer: drawer(),
        calls,
        fault,
    };
    says(rt, alloc, at, &WORDS, &mut files, wanted)?;
    let cache = stored(alloc, &mut files.drawer, "/c")?.ok_or("the file is gone")?;
    alike(rt, at, cache.as_slice(), b"old");
    Ok(())
}

/// What is said of the call that fails after that many.
fn unmet(alloc: Global, calls: usize) -> Result<String, Fail> {
    Ok(match DATA.get(calls) {
        Some(path) => format!(in alloc; "mimelook: {path}: cannot read\n")?,
        None => format!(in alloc; "mimelook: /c: cannot write\n")?,
    })
}

/// That many calls are met, and then one fails so: this is said, after what is said of an ignored line.
fn is_left(
    rt: &impl Abort,
    alloc: Global,
    calls: usize,
    (fault, status): (FileFault, u8),
    message: &str,
) -> Result<(), Fail> {
    let ignored = if calls == 0 { "" } else { IGNORED };
    let said = format!(in alloc; "{ignored}{message}")?;
    let wanted = Said {
        status,
        out: "",
        err: said.as_str(),
    };
    let at = format!(in alloc; "at {calls}")?;
    leaves_the_file(rt, alloc, at.as_str(), (calls, fault), wanted)
}

/// That many calls are met, and then one fails, for each reason.
fn is_left_at(rt: &impl Abort, alloc: Global, calls: usize) -> Result<(), Fail> {
    let memory = (FileFault::OutOfMemory, 4);
    is_left(rt, alloc, calls, memory, "mimelook: out of memory\n")?;
    let message = unmet(alloc, calls)?;
    is_left(rt, alloc, calls, (FileFault::Failed, 3), &message)
}

#[test]
fn leaves_the_file_where_a_call_fails(rt: HostRuntime) -> Result<(), Fail> {
    for calls in 0..=DATA.len() {
        is_left_at(&rt, rt.alloc(), calls)?;
    }
    Ok(())
}
