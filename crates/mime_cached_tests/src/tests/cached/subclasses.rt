//! Subclasses by the aliases and the parents of a cache that were read back: they are those over its bytes, and no record but the header
//! is visited for them while each type has one parent.

use super::{cache_of, is_fault, opened, read_pairs};
use crate::tests::checked::alike;
use mime_base::{Counted, Meter, TypeName};
use mime_lookup::{Cause, Stopped, is_a, is_a_again};
use mime_samples::caches::damaged;
use mime_samples::texts::{EMPTY, Texts};
use std::alloc::Global;
use std::process::Abort;

/// A chain of more steps than are made at once, a type of two parents, two types that are each above the other, and aliases.
static SUBCLASSES: [Texts<'static>; 1] = [Texts {
    aliases: b"x/first c/0\nx/third c/2\nx/top d/top\n",
    subclasses: b"c/0 c/1\nc/1 c/2\nc/2 c/3\nc/3 c/4\nc/4 c/5\nc/5 c/6\nc/6 c/7\nc/7 c/8\nc/8 c/9\nc/9 c/10\nc/10 c/11\nc/11 c/12\nc/12 c/13\nc/13 c/14\nc/14 c/15\nc/15 c/16\nc/16 c/17\nc/17 c/18\n\
d/bottom d/left\nd/bottom d/right\nd/below d/bottom\nd/right x/top\nl/a l/b\nl/b l/a\n",
    ..EMPTY
}];

/// A type and another, whether it is that or a subclass of it, and whether the header alone is visited for that.
struct Row {
    kind: &'static [u8],
    base: &'static [u8],
    is: bool,
    is_climbed: bool,
}

static ROWS: [Row; 17] = [
    Row {
        kind: b"c/0",
        base: b"c/0",
        is: true,
        is_climbed: true,
    },
    Row {
        kind: b"c/0",
        base: b"c/15",
        is: true,
        is_climbed: true,
    },
    Row {
        kind: b"c/0",
        base: b"c/16",
        is: true,
        is_climbed: true,
    },
    Row {
        kind: b"c/0",
        base: b"c/18",
        is: true,
        is_climbed: false,
    },
    Row {
        kind: b"c/18",
        base: b"c/17",
        is: false,
        is_climbed: true,
    },
    Row {
        kind: b"x/first",
        base: b"x/third",
        is: true,
        is_climbed: true,
    },
    Row {
        kind: b"c/3",
        base: b"x/third",
        is: false,
        is_climbed: true,
    },
    Row {
        kind: b"d/bottom",
        base: b"d/bottom",
        is: true,
        is_climbed: true,
    },
    Row {
        kind: b"d/bottom",
        base: b"d/left",
        is: true,
        is_climbed: false,
    },
    Row {
        kind: b"d/below",
        base: b"d/top",
        is: true,
        is_climbed: false,
    },
    Row {
        kind: b"d/below",
        base: b"d/bottom",
        is: true,
        is_climbed: true,
    },
    Row {
        kind: b"d/right",
        base: b"d/top",
        is: true,
        is_climbed: true,
    },
    Row {
        kind: b"d/left",
        base: b"d/top",
        is: false,
        is_climbed: true,
    },
    Row {
        kind: b"l/a",
        base: b"l/b",
        is: true,
        is_climbed: true,
    },
    Row {
        kind: b"l/a",
        base: b"l/c",
        is: false,
        is_climbed: false,
    },
    Row {
        kind: b"text/x",
        base: b"text/plain",
        is: true,
        is_climbed: true,
    },
    Row {
        kind: b"inode/x",
        base: b"application/octet-stream",
        is: false,
        is_climbed: true,
    },
];

/// What a search found, or why it stopped.
fn told(found: Result<(bool, Meter), Stopped>) -> Result<bool, Cause> {
    match found {
        Ok((is, _meter)) => Ok(is),
        Err(stopped) => Err(stopped.cause),
    }
}

/// What a search over the bytes of a cache finds.
fn search_bytes(
    rt: &impl Abort,
    alloc: Global,
    cache: &[u8],
    kind: &[u8],
    base: &[u8],
) -> Result<bool, Cause> {
    let kind = TypeName::new(alloc, kind).expect(rt, "a type");
    let base = TypeName::new(alloc, base).expect(rt, "another");
    told(is_a(alloc, Counted::new(cache), &kind, &base))
}

/// What a search by the pairs finds is what the row says.
fn is_found(rt: &impl Abort, row: &Row, found: Result<(bool, Meter), Stopped>) {
    let (is, meter) = found.expect(rt, "an answer");
    alike(
        rt,
        "read back",
        (row.kind, row.base, is, meter.nodes == 1),
        (row.kind, row.base, row.is, row.is_climbed),
    );
}

/// So is what a search over the bytes of a cache finds.
fn is_found_in(rt: &impl Abort, alloc: Global, cache: &[u8], row: &Row) {
    let walked = search_bytes(rt, alloc, cache, row.kind, row.base);
    alike(rt, "bytes", (row.kind, walked), (row.kind, Ok(row.is)));
}

/// So is what both find of each row.
fn are_found(rt: &impl Abort, alloc: Global, cache: &[u8]) {
    let mut indexed = opened(rt, alloc, cache);
    read_pairs(alloc, &mut indexed, true).expect(rt, "pairs");
    for row in &ROWS {
        is_found(rt, row, is_a_again(alloc, &indexed, row.kind, row.base));
        is_found_in(rt, alloc, cache, row);
    }
}

#[test]
fn pairs_read_back(rt: HostRuntime) {
    let cache = cache_of(&rt, rt.alloc(), &SUBCLASSES);
    are_found(&rt, rt.alloc(), &cache);
}

/// The pairs of a cache that is damaged at an offset.
fn are_damaged(rt: &impl Abort, alloc: Global, cache: &[u8], at: usize) {
    let mut indexed = opened(rt, alloc, cache);
    let read = read_pairs(alloc, &mut indexed, true).err();
    let walked = search_bytes(rt, alloc, cache, b"t/g", b"t/z").err();
    let again = told(is_a_again(alloc, &indexed, b"t/g", b"t/z")).err();
    is_fault(rt, at, read, walked, again);
}

/// Where a list spells nothing, the walk finds its fault.
#[test]
fn damaged_pairs(rt: HostRuntime) {
    for at in [4, 8, 40, 52, 56, 60, 64, 68] {
        are_damaged(&rt, rt.alloc(), &damaged(at), at);
    }
}
