//! Lookups over a cache that is opened once, of which parts are read back: their answers, their stops and their reads are those of a
//! walk.

use super::{
    Asked, Outcome, Parts, is_opened, look_up_over, opened, outcome_of, read_parts, spent,
};
use crate::tests::checked::alike;
use mime_base::{Host, Meter};
use mime_load::Unread;
use mime_lookup::{Answer, IndexedCache, Order, Stopped, look_up_again};
use mime_samples::caches::{PLAIN_LAYOUT, SAMPLE, SELF_CHILD, changed};
use std::alloc::Global;
use std::process::Abort;

/// Names with no rule, with one and with two, and one that is too long.
static NAMES: [&[u8]; 5] = [b"none", b"mk", b"x.gz", b"A.GZ", &[b'x'; 4_097]];

/// No content, and contents that a section knows and that none knows.
static CONTENTS: [Option<&[u8]>; 5] = [
    None,
    Some(b""),
    Some(&[0x1f, 0x8b, 8]),
    Some(&[0x1f, 0x8c, 8]),
    Some(b"text"),
];

/// Each choice whether names are read back, and whether magic is.
static CHOICES: [(bool, bool); 4] = [(false, false), (true, false), (false, true), (true, true)];

/// What a lookup finds, what it looks at, and what it leaves of the content.
#[derive(Drop)]
struct Told<'a, 'c> {
    outcome: Outcome<'a>,
    spent: (u64, Meter),
    left: Option<&'c [u8]>,
}

fn tell<'a, 'c>(found: Result<Answer<'a>, Stopped>, left: Option<&'c [u8]>) -> Told<'a, 'c> {
    Told {
        spent: spent(&found),
        outcome: outcome_of(found),
        left,
    }
}

/// What is told by a walk.
fn told_walked<'a, 'c>(
    alloc: Global,
    cache: &'a [u8],
    (file, content, order): Asked<'c>,
) -> Told<'a, 'c> {
    let mut content = content;
    let found = look_up_over(alloc, cache, file, &mut content, Host::Little, order);
    tell(found, content)
}

/// What is told by what was read back.
fn told_again<'a, 'c>(
    alloc: Global,
    indexed: &IndexedCache<'a>,
    (file, content, order): Asked<'c>,
) -> Told<'a, 'c> {
    let mut content = content;
    let found = look_up_again(alloc, indexed, file, &mut content, Host::Little, order);
    tell(found, content)
}

/// Looks a name and a content up both ways. Where nothing is read back, as much is looked at.
fn look_up_both(
    rt: &impl Abort,
    alloc: Global,
    cache: &[u8],
    indexed: &IndexedCache<'_>,
    is_walked: bool,
    asked: Asked<'_>,
) {
    let walked = told_walked(alloc, cache, asked);
    let again = told_again(alloc, indexed, asked);
    alike(rt, "outcome", again.outcome, walked.outcome);
    if is_walked {
        alike(rt, "spent", again.spent, walked.spent);
    }
    alike(rt, "left", again.left, walked.left);
}

/// Looks a name and a content up both ways, in each order.
fn look_up_ordered(
    rt: &impl Abort,
    alloc: Global,
    cache: &[u8],
    indexed: &IndexedCache<'_>,
    is_walked: bool,
    file: &[u8],
    content: Option<&[u8]>,
) {
    for order in [
        Order::GlobsFirst,
        Order::MagicFirst,
        Order::AllGlobs,
        Order::ContentOnly,
    ] {
        look_up_both(rt, alloc, cache, indexed, is_walked, (file, content, order));
    }
}

/// Looks each name up with each content.
fn look_up_each(
    rt: &impl Abort,
    alloc: Global,
    cache: &[u8],
    indexed: &IndexedCache<'_>,
    is_walked: bool,
) {
    for &file in &NAMES {
        for &content in &CONTENTS {
            look_up_ordered(rt, alloc, cache, indexed, is_walked, file, content);
        }
    }
}

/// Looks each name up with each content, after parts of a cache were read back: whether they were.
fn look_up_after(rt: &impl Abort, alloc: Global, cache: &[u8], parts: Parts) -> bool {
    let mut indexed = opened(rt, alloc, cache);
    let read = read_parts(alloc, &mut indexed, parts);
    look_up_each(rt, alloc, cache, &indexed, !parts.names && !parts.magic);
    if read.is_err() {
        alike(rt, "read back", read, Err(Unread::NotSpelled));
    }
    read.is_ok()
}

/// The same after each choice of parts: after how many choices they were.
fn look_up_all(rt: &impl Abort, alloc: Global, cache: &[u8]) -> usize {
    let mut count: usize = 0;
    for &(names, magic) in &CHOICES {
        let parts = Parts {
            names,
            magic,
            pairs: false,
        };
        if look_up_after(rt, alloc, cache, parts) {
            count = count.saturating_add(1);
        }
    }
    count
}

/// Both parts of the sample are read back, of the plain layout, whose literals stand in the glob list, magic alone, and where a line is
/// its own child what names need.
#[test]
fn caches_that_are_read_back(rt: HostRuntime) {
    let alloc = rt.alloc();
    let rows: [(&str, &[u8], usize); 3] = [
        ("sample", &SAMPLE, 4),
        ("plain layout", &PLAIN_LAYOUT, 2),
        ("self child", &SELF_CHILD, 2),
    ];
    for (name, bytes, count) in rows {
        alike(&rt, name, look_up_all(&rt, alloc, bytes), count);
    }
}

/// Each number of the sample in turn is another.
#[test]
fn damaged_caches(rt: HostRuntime) {
    let alloc = rt.alloc();
    for &number in &[0, 1, 40, 100, u32::MAX] {
        for place in 1..60 {
            let bytes = changed(SAMPLE, 4 * place, number);
            if is_opened(&bytes) {
                look_up_all(&rt, alloc, &bytes);
            }
        }
    }
}
