//! Subclasses and icons by the sample, opened once: they are those over its bytes, and once its names were read back no record of the
//! alias list is visited for them.
//!
//! Its one alias is `t/h`, of `t/g`, whose one parent is `t/m`. The numbers are counted by hand.

use super::{opened, read_names};
use crate::tests::checked::alike;
use mime_base::{Counted, Meter, TypeName};
use mime_lookup::{Icons, IndexedCache, Stopped, icon_again, icon_of, is_a, is_a_again};
use mime_samples::caches::SAMPLE;
use std::alloc::Global;
use std::process::Abort;

/// A type and another, whether it is that or a subclass of it, and the nodes and bytes of the search: by a walk, and where no alias step
/// is one.
struct Row {
    kind: &'static [u8],
    base: &'static [u8],
    is: bool,
    walked: (u64, u64),
    read_back: (u64, u64),
}

static ROWS: [Row; 4] = [
    Row {
        kind: b"t/h",
        base: b"t/m",
        is: true,
        walked: (13, 30),
        read_back: (6, 16),
    },
    Row {
        kind: b"t/g",
        base: b"t/h",
        is: true,
        walked: (6, 15),
        read_back: (1, 4),
    },
    Row {
        kind: b"t/m",
        base: b"t/h",
        is: false,
        walked: (8, 18),
        read_back: (3, 7),
    },
    Row {
        kind: b"t/z",
        base: b"t/m",
        is: false,
        walked: (7, 13),
        read_back: (3, 7),
    },
];

/// A row's search finds what the row says, after so many nodes and bytes.
fn is_found(
    rt: &impl Abort,
    way: &str,
    row: &Row,
    found: Result<(bool, Meter), Stopped>,
    counts: (u64, u64),
) {
    let (is, meter) = found.expect(rt, "an answer");
    alike(rt, way, (is, (meter.nodes, meter.bytes)), (row.is, counts));
}

/// So it does over the bytes of a cache.
fn is_found_in(rt: &impl Abort, alloc: Global, cache: &[u8], row: &Row) {
    let kind = TypeName::new(alloc, row.kind).expect(rt, "a type");
    let base = TypeName::new(alloc, row.base).expect(rt, "another");
    let found = is_a(alloc, Counted::new(cache), &kind, &base);
    is_found(rt, "bytes", row, found, row.walked);
}

/// The icons of a type over the bytes of a cache.
fn icons_in(rt: &impl Abort, alloc: Global, cache: &[u8], kind: &[u8]) -> Icons {
    let kind = TypeName::new(alloc, kind).expect(rt, "a type");
    icon_of(alloc, Counted::new(cache), &kind).expect(rt, "its icons")
}

/// A cache that is opened, with what names need read back.
fn names_read_back<'a>(rt: &impl Abort, alloc: Global, cache: &'a [u8]) -> Box<IndexedCache<'a>> {
    let mut indexed = opened(rt, alloc, cache);
    read_names(alloc, &mut indexed, true).expect(rt, "names");
    indexed
}

/// So does each row's, also by the cache opened, and with its names read back.
fn are_found(rt: &impl Abort, alloc: Global, cache: &[u8]) {
    let opened = opened(rt, alloc, cache);
    let indexed = names_read_back(rt, alloc, cache);
    for row in &ROWS {
        is_found_in(rt, alloc, cache, row);
        let found = is_a_again(alloc, &opened, row.kind, row.base);
        is_found(rt, "opened", row, found, row.walked);
        let found = is_a_again(alloc, &indexed, row.kind, row.base);
        is_found(rt, "read back", row, found, row.read_back);
    }
}

#[test]
fn subclasses(rt: HostRuntime) {
    are_found(&rt, rt.alloc(), &SAMPLE);
}

/// The nodes and bytes that icons took.
fn counted(icons: &Icons) -> (u64, u64) {
    (icons.meter.nodes, icons.meter.bytes)
}

/// Both icons are those.
fn are_icons(rt: &impl Abort, found: &Icons, wanted: &Icons) {
    alike(rt, "icon", found.icon.as_slice(), wanted.icon.as_slice());
    let (found, wanted) = (found.generic.as_slice(), wanted.generic.as_slice());
    alike(rt, "generic icon", found, wanted);
}

/// The same by what names need, read back.
fn icons_again(rt: &impl Abort, alloc: Global, cache: &[u8], kind: &[u8]) -> Icons {
    let indexed = names_read_back(rt, alloc, cache);
    icon_again(alloc, &indexed, kind).expect(rt, "its icons")
}

/// The icons of the alias are those of its type.
#[test]
fn icons(rt: HostRuntime) {
    let walked = icons_in(&rt, rt.alloc(), &SAMPLE, b"t/h");
    alike(&rt, "walked", counted(&walked), (6, 8));
    let again = icons_again(&rt, rt.alloc(), &SAMPLE, b"t/h");
    alike(&rt, "read back", counted(&again), (3, 0));
    are_icons(&rt, &again, &walked);
}
