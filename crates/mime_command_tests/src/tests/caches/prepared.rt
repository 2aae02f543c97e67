//! Runs over so many FILEs that parts of the cache are read back meanwhile: each line is the one of a run over its FILE alone.

use crate::tests::ran::alike;
use mime_fakes::{Entry, Shelf, ended};
use mime_samples::caches::SAMPLE;
use mime_samples::texts::{EMPTY, Texts, merged};
use mime_store::write_cache;
use std::alloc::Global;
use std::process::Abort;
use std::test::Fail;

/// Two rules that stand in a glob list, and a section beside them.
static GENERAL: [Texts<'static>; 1] = [Texts {
    globs2: b"50:t/m:m*\n60:t/x:?x*:cs\n50:t/g:*.gz\n50:t/r:readme\n",
    magic: b"MIME-Magic\0\n[40:t/g]\n>0=\0\x02\x1f\x8b\n",
    ..EMPTY
}];

/// The default order, in which a content is read where the name doesn't decide, and what else can be asked for.
static ASKED: [&[&str]; 7] = [
    &[],
    &["--cost"],
    &["--content-only", "--cost"],
    &["--content-only"],
    &["--magic-first"],
    &["--all-globs"],
    &["--name-only"],
];

/// Names that decide in both caches, in one or in none, of contents of all kinds.
static MIXED: [&str; 20] = [
    "/text", "/gz", "/near", "/empty", "/one", "/mk", "/x.gz", "/ax", "/MX", "/text", "/gz",
    "/near", "/empty", "/one", "/mk", "/x.gz", "/ax", "/MX", "/gz", "/text",
];

/// No name decides: contents are read from the first FILE on, and the magic list is read back after a few.
static READ_FROM_THE_FIRST: [&str; 18] = [
    "/text", "/gz", "/near", "/one", "/text", "/gz", "/near", "/one", "/text", "/gz", "/near",
    "/one", "/text", "/gz", "/near", "/one", "/text", "/gz",
];

/// In the default order the contents of the ninth to the twentieth are read: the magic list is read back among them.
static READ_FROM_THE_NINTH: [&str; 22] = [
    "/mk", "/x.gz", "/mk", "/x.gz", "/mk", "/x.gz", "/mk", "/x.gz", "/text", "/gz", "/near",
    "/one", "/text", "/gz", "/near", "/one", "/text", "/gz", "/near", "/one", "/mk", "/x.gz",
];

/// The cache, the list and the files.
fn stored<'a>(cache: &'a [u8], list: &'a [u8]) -> [(&'a str, Entry<'a>); 11] {
    [
        ("/c", Entry::Bytes(cache)),
        ("/list", Entry::Bytes(list)),
        ("/text", Entry::Bytes(b"hello")),
        ("/gz", Entry::Bytes(&[0x1f, 0x8b, 8])),
        ("/near", Entry::Bytes(&[0x1f, 0x8c, 8])),
        ("/empty", Entry::Bytes(b"")),
        ("/one", Entry::Bytes(&[0x1f])),
        ("/mk", Entry::Bytes(b"all:\n")),
        ("/x.gz", Entry::Bytes(b"none")),
        ("/ax", Entry::Bytes(&[0x1f, 0x8b])),
        ("/MX", Entry::Bytes(b"all:\n")),
    ]
}

/// What a run prints; it says nothing.
fn printed(
    rt: &impl Abort,
    alloc: Global,
    entries: &[(&str, Entry<'_>)],
    words: &[&str],
) -> Vec<u8> {
    let found = ended(alloc, words, &mut Shelf { entries });
    alike(rt, "status", found.status, 0);
    alike(rt, "said", found.err.as_slice(), b"");
    found.out
}

/// The words of a run with what is asked, over this.
fn words_of(
    alloc: Global,
    asked: &[&'static str],
    over: &[&'static str],
) -> Result<Vec<&'static str>, Fail> {
    let mut words = Vec::from_slice(alloc, &["type", "-c", "/c"])?;
    words.extend_from_slice(asked)?;
    words.extend_from_slice(over)?;
    Ok(words)
}

/// The lines of runs over each FILE alone.
fn printed_alone(
    rt: &impl Abort,
    alloc: Global,
    entries: &[(&str, Entry<'_>)],
    asked: &[&'static str],
    files: &[&'static str],
) -> Result<Vec<u8>, Fail> {
    let mut lines = Vec::new(alloc);
    let mut words = words_of(alloc, asked, &[])?;
    for file in files {
        words.push(file)?;
        let line = printed(rt, alloc, entries, &words);
        lines.extend_from_slice(&line)?;
        let _ = words.pop();
    }
    Ok(lines)
}

/// The list of these names.
fn listed(alloc: Global, files: &[&str]) -> Result<Vec<u8>, Fail> {
    let mut list = Vec::new(alloc);
    for file in files {
        list.extend_from_slice(file.as_bytes())?;
        list.push(0)?;
    }
    Ok(list)
}

/// FILEs three times over, for which both parts of the caches here are paid.
fn thrice(alloc: Global, files: &[&'static str]) -> Result<Vec<&'static str>, Fail> {
    let mut all = Vec::new(alloc);
    for _ in 0..3 {
        all.extend_from_slice(files)?;
    }
    Ok(all)
}

/// One run prints the lines of runs over each FILE alone, by words and by a list.
fn prints_as_alone(
    rt: &impl Abort,
    alloc: Global,
    cache: &[u8],
    asked: &[&'static str],
    files: &[&'static str],
) -> Result<(), Fail> {
    let list = listed(alloc, files)?;
    let entries = stored(cache, &list);
    let alone = printed_alone(rt, alloc, &entries, asked, files)?;
    let words = words_of(alloc, asked, files)?;
    let by_words = printed(rt, alloc, &entries, &words);
    alike(rt, "by words", by_words.as_slice(), alone.as_slice());
    let words = words_of(alloc, asked, &["--files0-from", "/list"])?;
    let by_list = printed(rt, alloc, &entries, &words);
    alike(rt, "by a list", by_list.as_slice(), alone.as_slice());
    Ok(())
}

/// The same over what is asked for in each way.
fn prints_as_alone_however_asked(
    rt: &impl Abort,
    alloc: Global,
    cache: &[u8],
    files: &[&'static str],
) -> Result<(), Fail> {
    let files = thrice(alloc, files)?;
    for asked in &ASKED {
        prints_as_alone(rt, alloc, cache, asked, &files)?;
    }
    Ok(())
}

/// The cache of rules of which two stand in its glob list.
fn of_general_rules(alloc: Global) -> Result<Vec<u8>, Fail> {
    let database = merged(alloc, &GENERAL)?;
    Ok(write_cache(alloc, &database, usize::MAX)?)
}

#[test]
fn lines_of_many_files(rt: HostRuntime) -> Result<(), Fail> {
    let alloc = rt.alloc();
    prints_as_alone_however_asked(&rt, alloc, &SAMPLE, &MIXED)?;
    let general = of_general_rules(alloc)?;
    prints_as_alone_however_asked(&rt, alloc, &general, &MIXED)
}

#[test]
fn lines_of_many_contents(rt: HostRuntime) -> Result<(), Fail> {
    let alloc = rt.alloc();
    prints_as_alone_however_asked(&rt, alloc, &SAMPLE, &READ_FROM_THE_FIRST)?;
    let general = of_general_rules(alloc)?;
    prints_as_alone_however_asked(&rt, alloc, &general, &READ_FROM_THE_FIRST)
}

#[test]
fn lines_of_contents_after_names(rt: HostRuntime) -> Result<(), Fail> {
    let alloc = rt.alloc();
    prints_as_alone_however_asked(&rt, alloc, &SAMPLE, &READ_FROM_THE_NINTH)?;
    let general = of_general_rules(alloc)?;
    prints_as_alone_however_asked(&rt, alloc, &general, &READ_FROM_THE_NINTH)
}
