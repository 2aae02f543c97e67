//! Icons by the aliases and the icons of a cache that were read back, and by an index of a database: they are those over the cache's bytes
//! and over the lists.

use super::{cache_of, database_of, is_fault, opened};
use crate::tests::checked::alike;
use mime_base::{Counted, Database, Meter, TypeName};
use mime_lookup::{
    Cause, DatabaseIcons, Icons, IndexedCache, Stopped, icon_again, icon_of, icon_of_indexed,
    icon_of_plain,
};
use mime_samples::caches::damaged;
use mime_samples::texts::{EMPTY, Texts};
use std::alloc::Global;
use std::process::Abort;

/// Types with both icons, with one of them and with none, and aliases of them, of which one has an icon itself.
static ICONS: [Texts<'static>; 1] = [Texts {
    aliases: b"x/first t/both\nx/second t/none\nx/third t/icon\n",
    icons: b"t/both:both-icon\nt/icon:own-icon\nx/third:icon-of-an-alias\n",
    generic_icons: b"t/both:both-generic\nt/generic:own-generic\n",
    ..EMPTY
}];

/// A type, and its icons.
struct Row {
    kind: &'static [u8],
    icon: &'static [u8],
    generic: &'static [u8],
}

static ROWS: [Row; 8] = [
    Row {
        kind: b"t/both",
        icon: b"both-icon",
        generic: b"both-generic",
    },
    Row {
        kind: b"t/icon",
        icon: b"own-icon",
        generic: b"t-x-generic",
    },
    Row {
        kind: b"t/generic",
        icon: b"t-generic",
        generic: b"own-generic",
    },
    Row {
        kind: b"t/none",
        icon: b"t-none",
        generic: b"t-x-generic",
    },
    Row {
        kind: b"x/first",
        icon: b"both-icon",
        generic: b"both-generic",
    },
    Row {
        kind: b"x/second",
        icon: b"t-none",
        generic: b"t-x-generic",
    },
    Row {
        kind: b"x/third",
        icon: b"own-icon",
        generic: b"t-x-generic",
    },
    Row {
        kind: b"application/x/of-three-parts-and-of-more-than-thirty-two-bytes",
        icon: b"application-x-of-three-parts-and-of-more-than-thirty-two-bytes",
        generic: b"application-x-generic",
    },
];

/// Whether icons are those of a row.
fn are_icons(icons: &Icons, row: &Row) -> bool {
    icons.icon.as_slice() == row.icon && icons.generic.as_slice() == row.generic
}

/// Whether the icons of a type are those of a row, by the lists of a database.
fn over_lists(rt: &impl Abort, alloc: Global, database: &Database, row: &Row) -> bool {
    let kind = TypeName::new(alloc, row.kind).expect(rt, "a type");
    let icons = icon_of_plain(alloc, database, &kind).expect(rt, "its icons");
    are_icons(&icons, row)
}

/// The same by an index of the database.
fn over_index(rt: &impl Abort, alloc: Global, index: &DatabaseIcons<'_>, row: &Row) -> bool {
    let kind = TypeName::new(alloc, row.kind).expect(rt, "a type");
    let icons = icon_of_indexed(alloc, index, &kind).expect(rt, "its icons");
    are_icons(&icons, row)
}

/// Those of a row are found by both.
fn are_found(
    rt: &impl Abort,
    alloc: Global,
    database: &Database,
    index: &DatabaseIcons<'_>,
    row: &Row,
) {
    let by_lists = over_lists(rt, alloc, database, row);
    let by_index = over_index(rt, alloc, index, row);
    let wanted = (row.kind, true, true);
    alike(rt, "icons", (row.kind, by_lists, by_index), wanted);
}

/// Those of each row are.
fn all_are_found(rt: &impl Abort, alloc: Global, database: &Database) {
    let index = DatabaseIcons::new(alloc, database).expect(rt, "its index");
    for row in &ROWS {
        are_found(rt, alloc, database, &index, row);
    }
}

#[test]
fn icons_by_a_database(rt: HostRuntime) {
    let database = database_of(&rt, rt.alloc(), &ICONS);
    all_are_found(&rt, rt.alloc(), &database);
}

/// Whether the icons of a type are those of a row, by a cache that is open, and how many records were visited.
fn over_opened(
    rt: &impl Abort,
    alloc: Global,
    indexed: &IndexedCache<'_>,
    row: &Row,
) -> (bool, u64) {
    let icons = icon_again(alloc, indexed, row.kind).expect(rt, "icons");
    (are_icons(&icons, row), icons.meter.nodes)
}

/// Those of a row are found by the bytes, and once they are read back for the header alone.
fn are_found_again(
    rt: &impl Abort,
    alloc: Global,
    walked: &IndexedCache<'_>,
    read: &IndexedCache<'_>,
    row: &Row,
) {
    let (same, nodes) = over_opened(rt, alloc, walked, row);
    let found = (row.kind, same, nodes > 1);
    alike(rt, "bytes", found, (row.kind, true, true));
    let again = over_opened(rt, alloc, read, row);
    alike(rt, "read back", (row.kind, again), (row.kind, (true, 1)));
}

/// Those of each row are.
fn all_are_found_again(rt: &impl Abort, alloc: Global, cache: &[u8]) {
    let walked = opened(rt, alloc, cache);
    let mut read = opened(rt, alloc, cache);
    read.read_icons(alloc, &mut Meter::new())
        .expect(rt, "icons");
    for row in &ROWS {
        are_found_again(rt, alloc, &walked, &read, row);
    }
}

#[test]
fn icons_read_back(rt: HostRuntime) {
    let cache = cache_of(&rt, rt.alloc(), &ICONS);
    all_are_found_again(&rt, rt.alloc(), &cache);
}

/// Why there are no icons, if there are none.
fn cause_of(found: Result<Icons, Stopped>) -> Option<Cause> {
    match found {
        Ok(_) => None,
        Err(stopped) => Some(stopped.cause),
    }
}

/// Why the bytes give no icons, if they don't.
fn cause_in(rt: &impl Abort, alloc: Global, cache: &[u8]) -> Option<Cause> {
    let kind = TypeName::new(alloc, b"t/g").expect(rt, "a type");
    cause_of(icon_of(alloc, Counted::new(cache), &kind))
}

/// The icons of a cache that is damaged at an offset.
fn are_damaged(rt: &impl Abort, alloc: Global, cache: &[u8], at: usize) {
    let mut indexed = opened(rt, alloc, cache);
    let read = indexed.read_icons(alloc, &mut Meter::new()).err();
    let walked = cause_in(rt, alloc, cache);
    let again = cause_of(icon_again(alloc, &indexed, b"t/g"));
    is_fault(rt, at, read, walked, again);
}

/// Where a list spells nothing, the walk finds its fault.
#[test]
fn damaged_icons(rt: HostRuntime) {
    for at in [4, 32, 36, 40] {
        are_damaged(&rt, rt.alloc(), &damaged(at), at);
    }
}
