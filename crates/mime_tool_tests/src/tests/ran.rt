//! Runs of the program that have to end as wanted, and values that have to be alike.

use mime_fakes::{Entry, Outcome, Said, Shelf, ended};
use mime_tool::Files;
use std::alloc::Global;
use std::fmt::Debug;
use std::process::Abort;
use std::test::Fail;

/// What was found is what is wanted; else the test fails with this name and both.
pub fn alike<T: PartialEq + Debug + Drop>(rt: &impl Abort, name: &str, found: T, wanted: T) {
    assert_eq!(rt; found, wanted, "{name}");
}

/// A run ended with this status and both texts.
pub fn ends(rt: &impl Abort, name: &str, found: &Outcome, wanted: Said<'_>) -> Result<(), Fail> {
    alike(rt, name, found.status, wanted.status);
    alike(rt, name, str::from_utf8(found.out.as_slice())?, wanted.out);
    alike(rt, name, str::from_utf8(found.err.as_slice())?, wanted.err);
    Ok(())
}

/// A run over these files has this status and both texts.
pub fn says<F: Files>(
    rt: &impl Abort,
    alloc: Global,
    name: &str,
    words: &[&str],
    files: &mut F,
    wanted: Said<'_>,
) -> Result<(), Fail> {
    ends(rt, name, &ended(alloc, words, files), wanted)
}

/// The same over a shelf.
pub fn says_over(
    rt: &impl Abort,
    alloc: Global,
    name: &str,
    words: &[&str],
    entries: &[(&str, Entry<'_>)],
    wanted: Said<'_>,
) -> Result<(), Fail> {
    says(rt, alloc, name, words, &mut Shelf { entries }, wanted)
}
