//! Names alone over the sample's bytes: their types, and how much of a content is wanted.

use super::{opened, read_names};
use crate::tests::checked::alike;
use mime_base::Counted;
use mime_lookup::{
    Cause, IndexedCache, NameAnswer, Order, Stopped, look_up_name, look_up_name_again,
};
use mime_samples::caches::{SAMPLE, changed};
use mime_view::CacheFault;
use std::alloc::Global;
use std::process::Abort;
use std::test::Fail;

/// What is answered of a name: its type, and how much of a content is wanted.
type Found = Result<(&'static [u8], u64), Cause>;

/// A name, an order, and what is answered by the sample, by one that states an extent of 300 bytes, and by one whose magic
/// lies outside.
struct Row {
    file: &'static [u8],
    order: Order,
    of_sample: Found,
    of_extent: Found,
    of_outside: Found,
}

/// The fault of a cache whose magic list is at its end.
const OUTSIDE: Found = Err(Cause::Cache(CacheFault::OutOfRange(240)));

/// A type that is not known.
const UNKNOWN: &[u8] = b"application/octet-stream";

static ROWS: [Row; 7] = [
    Row {
        file: b"mk",
        order: Order::GlobsFirst,
        of_sample: Ok((b"t/m", 0)),
        of_extent: Ok((b"t/m", 0)),
        of_outside: Ok((b"t/m", 0)),
    },
    Row {
        file: b"A.GZ",
        order: Order::GlobsFirst,
        of_sample: Ok((b"t/g", 0)),
        of_extent: Ok((b"t/g", 0)),
        of_outside: Ok((b"t/g", 0)),
    },
    Row {
        file: b"x",
        order: Order::GlobsFirst,
        of_sample: Ok((UNKNOWN, 128)),
        of_extent: Ok((UNKNOWN, 300)),
        of_outside: OUTSIDE,
    },
    Row {
        file: b"",
        order: Order::GlobsFirst,
        of_sample: Ok((UNKNOWN, 128)),
        of_extent: Ok((UNKNOWN, 300)),
        of_outside: OUTSIDE,
    },
    Row {
        file: b"mk",
        order: Order::MagicFirst,
        of_sample: Ok((b"t/m", 128)),
        of_extent: Ok((b"t/m", 300)),
        of_outside: OUTSIDE,
    },
    Row {
        file: b"mk",
        order: Order::ContentOnly,
        of_sample: Ok((UNKNOWN, 128)),
        of_extent: Ok((UNKNOWN, 300)),
        of_outside: OUTSIDE,
    },
    Row {
        file: &[b'a'; 4097],
        order: Order::GlobsFirst,
        of_sample: Err(Cause::NameTooLong),
        of_extent: Err(Cause::NameTooLong),
        of_outside: Err(Cause::NameTooLong),
    },
];

#[test]
fn rows(rt: HostRuntime) -> Result<(), Fail> {
    let alloc = rt.alloc();
    let extended = changed(SAMPLE, 152, 300);
    let outside = changed(SAMPLE, 24, 240);
    for row in &ROWS {
        is_found(&rt, alloc, row, &SAMPLE, row.of_sample);
        is_found(&rt, alloc, row, &extended, row.of_extent);
        is_found(&rt, alloc, row, &outside, row.of_outside);
    }
    Ok(())
}

/// Where magic and an alias of the name's type lie outside, how much is wanted is asked first.
#[test]
fn wanted_before_the_globs(rt: HostRuntime) {
    let both = changed(changed(SAMPLE, 24, 240), 44, u32::MAX);
    for row in &ROWS {
        if row.order == Order::MagicFirst {
            is_found(&rt, rt.alloc(), row, &both, OUTSIDE);
        }
    }
}

#[test]
fn rows_again(rt: HostRuntime) {
    are_found_before_and_after(&rt, rt.alloc(), &SAMPLE);
}

/// By a cache that is opened once the rows are the same, before the names are read back and after that.
fn are_found_before_and_after(rt: &impl Abort, alloc: Global, cache: &[u8]) {
    let mut indexed = opened(rt, alloc, cache);
    are_found_again(rt, alloc, &indexed);
    read_names(alloc, &mut indexed, true).expect(rt, "names");
    are_found_again(rt, alloc, &indexed);
}

/// Each row is answered by the sample, opened once.
fn are_found_again(rt: &impl Abort, alloc: Global, indexed: &IndexedCache<'_>) {
    for row in &ROWS {
        let found = look_up_name_again(alloc, indexed, row.file, row.order);
        is_answer(rt, row, found, row.of_sample);
    }
}

/// This is answered of a row's name, by these bytes.
fn is_found(rt: &impl Abort, alloc: Global, row: &Row, cache: &[u8], expected: Found) {
    let found = look_up_name(alloc, Counted::new(cache), row.file, row.order);
    is_answer(rt, row, found, expected);
}

/// This is what was found of a row's name.
fn is_answer(rt: &impl Abort, row: &Row, found: Result<NameAnswer<'_>, Stopped>, expected: Found) {
    let found = match found {
        Ok(answer) => Ok((answer.kind, answer.wanted)),
        Err(stopped) => Err(stopped.cause),
    };
    alike(
        rt,
        "a name alone",
        (row.file, row.order, found),
        (row.file, row.order, expected),
    );
}
