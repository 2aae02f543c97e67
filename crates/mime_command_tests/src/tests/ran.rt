//! Runs of the program that have to end as wanted, and values that have to be alike.

use mime_fakes::{Entry, FailingSink, Outcome, Said, Shelf, ended, ran};
use mime_tool::{Files, SinkFault};
use std::alloc::Global;
use std::fmt::Debug;
use std::process::Abort;
use std::test::Fail;

/// What was found is what is wanted; else the test fails with this name and both.
pub fn alike<T: PartialEq + Debug + Drop>(rt: &impl Abort, name: &str, found: T, wanted: T) {
    assert_eq!(rt; found, wanted, "{name}");
}

/// A run ended with this status and both texts.
pub fn ends(rt: &impl Abort, name: &str, found: &Outcome, wanted: Said<'_>) -> Result<(), Fail> {
    alike(rt, name, found.status, wanted.status);
    alike(rt, name, str::from_utf8(found.out.as_slice())?, wanted.out);
    alike(rt, name, str::from_utf8(found.err.as_slice())?, wanted.err);
    Ok(())
}

/// A run over these files has this status and both texts.
pub fn says<F: Files>(
    rt: &impl Abort,
    alloc: Global,
    name: &str,
    words: &[&str],
    files: &mut F,
    wanted: Said<'_>,
) -> Result<(), Fail> {
    ends(rt, name, &ended(alloc, words, files), wanted)
}

/// The same over a shelf.
pub fn says_over(
    rt: &impl Abort,
    alloc: Global,
    name: &str,
    words: &[&str],
    entries: &[(&str, Entry<'_>)],
    wanted: Said<'_>,
) -> Result<(), Fail> {
    says(rt, alloc, name, words, &mut Shelf { entries }, wanted)
}

/// A run's status, what standard output took and how much of it was flushed, and what was said.
#[derive(Clone, Copy)]
pub struct Taken<'a> {
    pub status: u8,
    pub out: &'a str,
    pub flushed: usize,
    pub err: &'a str,
}

/// A run over a shelf, with these streams, ends so.
pub fn is_taken_over(
    rt: &impl Abort,
    alloc: Global,
    name: &str,
    words: &[&str],
    entries: &[(&str, Entry<'_>)],
    streams: (FailingSink, FailingSink),
    wanted: Taken<'_>,
) {
    let (mut out, mut err) = streams;
    let status = ran(alloc, words, &mut Shelf { entries }, &mut out, &mut err);
    alike(rt, name, status, wanted.status);
    shows(rt, name, out.taken.as_slice(), wanted.out);
    shows(rt, name, err.taken.as_slice(), wanted.err);
    alike(rt, name, out.flushed, wanted.flushed);
}

/// A sink of which no call fails.
pub fn sound(alloc: Global) -> FailingSink {
    FailingSink::new(alloc, 0, 0, SinkFault::Failed)
}

/// Bytes that were printed are this text.
fn shows(rt: &impl Abort, name: &str, bytes: &[u8], text: &str) {
    match str::from_utf8(bytes) {
        Ok(found) => alike(rt, name, found, text),
        Err(_) => alike(rt, name, bytes, text.as_bytes()),
    }
}
