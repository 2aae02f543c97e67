//! Files of which each call fails in turn.

use crate::tests::ran::says;
use mime_fakes::{Entry, FailingShelf, Said, Shelf};
use mime_tool::FileFault;
use std::alloc::Global;
use std::process::Abort;
use std::test::Fail;

// The text files of a directory, in the order in which they are read.
static DATA: [&str; 6] = [
    "globs2",
    "magic",
    "aliases",
    "subclasses",
    "icons",
    "generic-icons",
];

static NAMES: [&str; 3] = ["x.a", "y", "z.a"];

static LINES: [&str; 3] = ["x.a: t/a\n", "y: text/plain\n", "z.a: t/a\n"];

static WORDS: [&str; 6] = ["plain", "-d", "/s", "x.a", "y", "z.a"];

static ENTRIES: &[(&str, Entry<'static>)] = &[
    ("/s/mime/globs2", Entry::Bytes(b"50:t/a:*.a\n")),
    ("x.a", Entry::Bytes(b"hello")),
    ("y", Entry::Bytes(b"hello")),
    ("z.a", Entry::Bytes(b"hello")),
];

const NO_MEMORY: &str = "mimelook: out of memory\n";

fn failing(calls: usize, fault: FileFault) -> FailingShelf<'static> {
    FailingShelf {
        shelf: Shelf { entries: ENTRIES },
        calls,
        fault,
    }
}

/// After that many calls that are met one fails so, and the run ends as is wanted.
fn fails(
    rt: &impl Abort,
    alloc: Global,
    name: &str,
    calls: usize,
    fault: FileFault,
    wanted: Said<'_>,
) -> Result<(), Fail> {
    says(rt, alloc, name, &WORDS, &mut failing(calls, fault), wanted)
}

/// A run that ends with this status and says so, after it printed some lines.
fn said<'a>(status: u8, out: &'a str, err: &'a str) -> Said<'a> {
    Said { status, out, err }
}

/// A text file can't be read.
fn is_unreadable(rt: &impl Abort, alloc: Global, name: &str, calls: usize) -> Result<(), Fail> {
    let unreadable = format!(in alloc; "mimelook: /s/mime/{name}: cannot read\n")?;
    let wanted = said(3, "", unreadable.as_str());
    fails(rt, alloc, name, calls, FileFault::Failed, wanted)
}

/// There is no memory for a call, after these lines.
fn has_no_memory(
    rt: &impl Abort,
    alloc: Global,
    name: &str,
    calls: usize,
    lines: &str,
) -> Result<(), Fail> {
    let wanted = said(4, lines, NO_MEMORY);
    fails(rt, alloc, name, calls, FileFault::OutOfMemory, wanted)
}

#[test]
fn stops_where_the_data_cannot_be_read(rt: HostRuntime) -> Result<(), Fail> {
    for (calls, name) in DATA.iter().enumerate() {
        is_unreadable(&rt, rt.alloc(), name, calls)?;
        has_no_memory(&rt, rt.alloc(), name, calls, "")?;
    }
    Ok(())
}

/// The lines of the output less one of them.
fn lines_without(alloc: Global, at: usize) -> Result<String, Fail> {
    let mut lines = String::new(alloc);
    for (other, line) in LINES.iter().enumerate() {
        if other != at {
            lines.push_str(line)?;
        }
    }
    Ok(lines)
}

/// What was printed is the run's output less the line of the file.
fn is_passed_over(rt: &impl Abort, alloc: Global, name: &str, at: usize) -> Result<(), Fail> {
    let lines = lines_without(alloc, at)?;
    let message = format!(in alloc; "mimelook: {name}: cannot open\n")?;
    let wanted = said(1, lines.as_str(), message.as_str());
    let calls = DATA.len().saturating_add(at);
    fails(rt, alloc, name, calls, FileFault::Failed, wanted)
}

#[test]
fn goes_on_after_a_file_that_cannot_be_opened(rt: HostRuntime) -> Result<(), Fail> {
    for (at, name) in NAMES.iter().enumerate() {
        is_passed_over(&rt, rt.alloc(), name, at)?;
    }
    Ok(())
}

/// No call fails, and these lines are printed.
fn is_printed(rt: &impl Abort, alloc: Global, lines: &str) -> Result<(), Fail> {
    let (calls, wanted) = (DATA.len() + LINES.len(), said(0, lines, ""));
    fails(rt, alloc, "no call", calls, FileFault::OutOfMemory, wanted)
}

// The lines before the file stay.
#[test]
fn stops_where_there_is_no_memory_to_open(rt: HostRuntime) -> Result<(), Fail> {
    let mut lines = String::new(rt.alloc());
    for (at, line) in LINES.iter().enumerate() {
        has_no_memory(&rt, rt.alloc(), line, DATA.len() + at, &lines)?;
        lines.push_str(line)?;
    }
    is_printed(&rt, rt.alloc(), &lines)
}
