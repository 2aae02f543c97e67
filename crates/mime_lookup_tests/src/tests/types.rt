//! Icons and subclasses of types: by caches, as they were made, written and damaged, and by databases.
//!
//! The sample's header has the offset of the icons at 32 and that of the generic icons at 36. The parents
//! of `t/g`, its one type that has any, stand at 64.

use crate::tests::checked::alike;
use crate::tests::lookup::{database_of, opened, unprepared_index_of};
use mime_base::{Counted, Database, TypeName};
use mime_lookup::{
    Cause, Icons, IndexedDatabase, icon_again, icon_of, icon_of_plain, is_a, is_a_again,
    is_a_indexed, is_a_plain,
};
use mime_samples::caches::{SAMPLE, changed, damaged, write_at};
use mime_samples::texts::{EMPTY, SAMPLE_TEXTS, Texts};
use mime_store::write_cache;
use mime_view::CacheFault;
use std::alloc::Global;
use std::process::Abort;

/// The sample with an icon and a generic icon of one type.
static WITH_ICONS: [Texts<'static>; 1] = [Texts {
    icons: b"t/g:pkg\n",
    generic_icons: b"t/g:package-x-generic\n",
    ..SAMPLE_TEXTS
}];

/// The fault of four bytes that are all ones and are taken for an offset.
const FAR: CacheFault = CacheFault::OutOfRange(4_294_967_295);

/// A type, and its icons.
struct IconRow {
    kind: &'static [u8],
    icon: &'static [u8],
    generic: &'static [u8],
}

/// Whether icons are those of a row.
fn are_icons(icons: &Icons, row: &IconRow) -> bool {
    icons.icon.as_slice() == row.icon && icons.generic.as_slice() == row.generic
}

/// Whether the icons of a type are those of a row.
fn has_icons(rt: &impl Abort, alloc: Global, cache: &[u8], row: &IconRow) -> bool {
    let kind = TypeName::new(alloc, row.kind).expect(rt, "a type");
    let icons = icon_of(alloc, Counted::new(cache), &kind).expect(rt, "icons");
    are_icons(&icons, row)
}

static OF_THE_SAMPLE: [IconRow; 3] = [
    IconRow {
        kind: b"t/h",
        icon: b"t-g",
        generic: b"t-x-generic",
    },
    IconRow {
        kind: b"te/x/y",
        icon: b"te-x-y",
        generic: b"te-x-generic",
    },
    IconRow {
        kind: b"t/z-",
        icon: b"t-z-",
        generic: b"t-x-generic",
    },
];

#[test]
fn icons_that_stand_in(rt: HostRuntime) {
    for row in &OF_THE_SAMPLE {
        let same = has_icons(&rt, rt.alloc(), &SAMPLE, row);
        alike(&rt, "icons", (row.kind, same), (row.kind, true));
    }
}

static WRITTEN: [IconRow; 3] = [
    IconRow {
        kind: b"t/g",
        icon: b"pkg",
        generic: b"package-x-generic",
    },
    IconRow {
        kind: b"t/h",
        icon: b"pkg",
        generic: b"package-x-generic",
    },
    IconRow {
        kind: b"t/m",
        icon: b"t-m",
        generic: b"t-x-generic",
    },
];

#[test]
fn icons_that_are_named(rt: HostRuntime) {
    let database = database_of(&rt, rt.alloc(), &WITH_ICONS);
    let bytes = write_cache(rt.alloc(), &database, 1024).expect(&rt, "its cache");
    for row in &WRITTEN {
        let same = has_icons(&rt, rt.alloc(), &bytes, row);
        alike(&rt, "icons", (row.kind, same), (row.kind, true));
    }
}

/// Whether the icons of a type are those of a row, by a database.
fn has_icons_over(rt: &impl Abort, alloc: Global, database: &Database, row: &IconRow) -> bool {
    let kind = TypeName::new(alloc, row.kind).expect(rt, "a type");
    let icons = icon_of_plain(alloc, database, &kind).expect(rt, "icons");
    are_icons(&icons, row)
}

/// The database of a directory has the icons of these rows.
fn have_icons_over(rt: &impl Abort, alloc: Global, dirs: &[Texts<'_>], rows: &[IconRow]) {
    let database = database_of(rt, alloc, dirs);
    for row in rows {
        let same = has_icons_over(rt, alloc, &database, row);
        alike(rt, "icons", (row.kind, same), (row.kind, true));
    }
}

#[test]
fn icons_by_a_database(rt: HostRuntime) {
    have_icons_over(&rt, rt.alloc(), &[SAMPLE_TEXTS], &OF_THE_SAMPLE);
    have_icons_over(&rt, rt.alloc(), &WITH_ICONS, &WRITTEN);
}

/// Why a cache gives no icons, if it doesn't, and how much was read.
fn stop_of_icons(rt: &impl Abort, alloc: Global, cache: &[u8]) -> Option<(Cause, u64)> {
    let kind = TypeName::new(alloc, b"t/g").expect(rt, "a type");
    let icons = icon_of(alloc, Counted::new(cache), &kind);
    icons.err().map(|stopped| (stopped.cause, stopped.read))
}

#[test]
fn icons_of_damaged_caches(rt: HostRuntime) {
    let rows: [(&str, usize, CacheFault); 5] = [
        ("the version", 0, CacheFault::Version(0xffff, 0xffff)),
        ("the offset of the aliases", 4, FAR),
        ("the offset of the icons", 32, FAR),
        ("the offset of the generic icons", 36, FAR),
        ("the count of the aliases", 40, CacheFault::OutOfRange(40)),
    ];
    for (name, at, fault) in rows {
        let stop = stop_of_icons(&rt, rt.alloc(), &damaged(at));
        alike(&rt, name, stop, Some((Cause::Cache(fault), 0)));
    }
}

/// Where both lists of icons lie outside, the fault is that of the icons.
#[test]
fn the_icon_is_looked_for_first(rt: HostRuntime) {
    let bytes = changed(changed(SAMPLE, 32, 1_000), 36, 2_000);
    let stop = stop_of_icons(&rt, rt.alloc(), &bytes);
    let fault = Cause::Cache(CacheFault::OutOfRange(1_000));
    alike(&rt, "fault", stop, Some((fault, 0)));
}

/// Whether a type is another or a subclass of it, by a cache.
fn leads(
    rt: &impl Abort,
    alloc: Global,
    cache: &[u8],
    kind: &[u8],
    base: &[u8],
) -> Result<bool, Cause> {
    let kind = TypeName::new(alloc, kind).expect(rt, "a type");
    let base = TypeName::new(alloc, base).expect(rt, "a type");
    leads_from(alloc, cache, &kind, &base)
}

/// The same of types.
fn leads_from(
    alloc: Global,
    cache: &[u8],
    kind: &TypeName,
    base: &TypeName,
) -> Result<bool, Cause> {
    match is_a(alloc, Counted::new(cache), kind, base) {
        Ok((found, _meter)) => Ok(found),
        Err(stopped) => Err(stopped.cause),
    }
}

#[test]
fn subclasses_of_the_sample(rt: HostRuntime) {
    let rows: [(&[u8], &[u8], bool); 7] = [
        (b"t/h", b"t/m", true),
        (b"t/g", b"t/m", true),
        (b"t/g", b"t/h", true),
        (b"t/z", b"t/z", true),
        (b"t/m", b"application/octet-stream", true),
        (b"t/m", b"t/g", false),
        (b"inode/directory", b"application/octet-stream", false),
    ];
    for (kind, base, is) in rows {
        let found = leads(&rt, rt.alloc(), &SAMPLE, kind, base);
        alike(&rt, "is a", (kind, base, found), (kind, base, Ok(is)));
    }
}

#[test]
fn subclasses_by_damaged_caches(rt: HostRuntime) {
    let rows: [(&str, usize, CacheFault); 5] = [
        ("the offset of the aliases", 4, FAR),
        ("the offset of the parent list", 8, FAR),
        (
            "the count of the parent list",
            52,
            CacheFault::OutOfRange(52),
        ),
        ("the count of the parents", 64, CacheFault::OutOfRange(64)),
        ("the offset of the parent", 68, FAR),
    ];
    for (name, at, fault) in rows {
        let found = leads(&rt, rt.alloc(), &damaged(at), b"t/g", b"t/z");
        alike(&rt, name, found, Err(Cause::Cache(fault)));
    }
}

/// A chain of more steps than are made without marks, a type of two parents, two types that are each above the other, aliases, and
/// names that are found by one mark: those of `m` and their aliases.
static SUBCLASSES: [Texts<'static>; 1] = [Texts {
    aliases: b"x/1last m/1last\nx/2last m/2last\nx/first c/0\nx/third c/2\n",
    subclasses: b"c/0 c/1\nc/1 c/2\nc/2 c/3\nc/3 c/4\nc/4 c/5\nc/5 c/6\nc/6 c/7\nc/7 c/8\nc/8 c/9\nc/9 c/10\nc/10 c/11\nc/11 c/12\nc/12 c/13\nc/13 c/14\nc/14 c/15\nc/15 c/16\nc/16 c/17\nc/17 c/18\n\
d/bottom d/left\nd/bottom d/right\nd/right d/top\nl/a l/b\nl/b l/a\nm/1last m/top\nm/2last m/side\nm/2last m/top\n",
    ..EMPTY
}];

/// Whether a type is another or a subclass of it, by an index.
fn leads_by_index(
    rt: &impl Abort,
    alloc: Global,
    index: &IndexedDatabase<'_>,
    kind: &[u8],
    base: &[u8],
) -> bool {
    let kind = TypeName::new(alloc, kind).expect(rt, "a type");
    let base = TypeName::new(alloc, base).expect(rt, "a type");
    leads_at(rt, alloc, index, &kind, &base)
}

/// The same of types.
fn leads_at(
    rt: &impl Abort,
    alloc: Global,
    index: &IndexedDatabase<'_>,
    kind: &TypeName,
    base: &TypeName,
) -> bool {
    let (found, _meter) = is_a_indexed(alloc, index, kind, base).expect(rt, "an answer");
    found
}

/// Whether a type is another or a subclass of it, by a database.
fn leads_over(
    rt: &impl Abort,
    alloc: Global,
    database: &Database,
    kind: &[u8],
    base: &[u8],
) -> bool {
    let kind = TypeName::new(alloc, kind).expect(rt, "a type");
    let base = TypeName::new(alloc, base).expect(rt, "a type");
    leads_among(rt, alloc, database, &kind, &base)
}

/// The same of types.
fn leads_among(
    rt: &impl Abort,
    alloc: Global,
    database: &Database,
    kind: &TypeName,
    base: &TypeName,
) -> bool {
    let (found, _meter) = is_a_plain(alloc, database, kind, base).expect(rt, "an answer");
    found
}

/// Types, bases, and whether the one is the other or a subclass of it.
static SUBCLASS_ROWS: [(&[u8], &[u8], bool); 26] = [
    (b"c/0", b"c/0", true),
    (b"c/0", b"c/1", true),
    (b"c/0", b"c/15", true),
    (b"c/0", b"c/16", true),
    (b"c/0", b"c/17", true),
    (b"c/0", b"c/18", true),
    (b"c/18", b"c/17", false),
    (b"c/0", b"d/top", false),
    (b"x/first", b"x/third", true),
    (b"c/3", b"x/third", false),
    (b"d/bottom", b"d/top", true),
    (b"d/bottom", b"d/left", true),
    (b"d/bottom", b"c/0", false),
    (b"d/left", b"d/top", false),
    (b"l/a", b"l/b", true),
    (b"l/a", b"l/c", false),
    (b"m/1last", b"m/top", true),
    (b"m/1last", b"m/side", false),
    (b"m/2last", b"m/side", true),
    (b"m/2last", b"m/top", true),
    (b"m/3last", b"m/top", false),
    (b"x/1last", b"m/top", true),
    (b"x/2last", b"m/side", true),
    (b"x/3last", b"m/top", false),
    (b"text/x", b"text/plain", true),
    (b"inode/x", b"application/octet-stream", false),
];

/// Each row is answered by an index.
fn lead_by_index(rt: &impl Abort, alloc: Global, database: &Database) {
    let index = unprepared_index_of(rt, alloc, database);
    for &(kind, base, is) in &SUBCLASS_ROWS {
        let found = leads_by_index(rt, alloc, &index, kind, base);
        alike(rt, "is a", (kind, base, found), (kind, base, is));
    }
}

#[test]
fn subclasses_by_an_index(rt: HostRuntime) {
    let database = database_of(&rt, rt.alloc(), &SUBCLASSES);
    lead_by_index(&rt, rt.alloc(), &database);
}

#[test]
fn subclasses_by_a_database(rt: HostRuntime) {
    let database = database_of(&rt, rt.alloc(), &SUBCLASSES);
    for &(kind, base, is) in &SUBCLASS_ROWS {
        let found = leads_over(&rt, rt.alloc(), &database, kind, base);
        alike(&rt, "is a", (kind, base, found), (kind, base, is));
    }
}

/// The nodes and bytes that a search for a subclass in the sample counts, and those of one for icons.
fn counts_of(
    rt: &impl Abort,
    alloc: Global,
    kind: &TypeName,
    base: &TypeName,
) -> ((u64, u64), (u64, u64)) {
    let (_, searched) = is_a(alloc, Counted::new(&SAMPLE), kind, base).expect(rt, "an answer");
    let found = icon_of(alloc, Counted::new(&SAMPLE), kind)
        .expect(rt, "icons")
        .meter;
    ((searched.nodes, searched.bytes), (found.nodes, found.bytes))
}

/// The same by a cache, opened once: what is answered too.
fn told_again(
    rt: &impl Abort,
    alloc: Global,
    cache: &[u8],
) -> (bool, bool, ((u64, u64), (u64, u64))) {
    let indexed = opened(rt, alloc, cache);
    let (is, searched) = is_a_again(alloc, &indexed, b"t/h", b"t/m").expect(rt, "an answer");
    let icons = icon_again(alloc, &indexed, b"t/h").expect(rt, "icons");
    let found = icons.meter;
    let counted = ((searched.nodes, searched.bytes), (found.nodes, found.bytes));
    (is, are_icons(&icons, &OF_THE_SAMPLE[0]), counted)
}

/// They are counted by hand, as those of whole lookups.
#[test]
fn counts_of_the_sample(rt: HostRuntime) {
    let kind = TypeName::new(rt.alloc(), b"t/h").expect(&rt, "a type");
    let base = TypeName::new(rt.alloc(), b"t/m").expect(&rt, "a type");
    let (wanted, alloc) = (((13, 30), (6, 8)), rt.alloc());
    alike(&rt, "counted", counts_of(&rt, alloc, &kind, &base), wanted);
    let again = told_again(&rt, alloc, &SAMPLE);
    alike(&rt, "again", again, (true, true, wanted));
}

/// The sample with three aliases after it, of which the first and the last lie outside.
fn aliases_outside() -> [u8; 268] {
    let mut cache = [0; 268];
    write_at(&mut cache, 0, &SAMPLE);
    let numbers: [(usize, u32); 5] = [(4, 240), (240, 3), (244, 1_000), (252, 228), (260, 2_000)];
    for (at, number) in numbers {
        write_at(&mut cache, at, &number.to_be_bytes());
    }
    cache
}

/// The type is resolved before the base: where neither can be, the fault is the type's.
#[test]
fn the_type_is_resolved_first(rt: HostRuntime) {
    let cache = aliases_outside();
    let rows: [(&[u8], &[u8], u64); 2] = [(b"a/a", b"t/z", 1_000), (b"t/z", b"a/a", 2_000)];
    for (kind, base, at) in rows {
        let found = leads(&rt, rt.alloc(), &cache, kind, base);
        let fault = Err(Cause::Cache(CacheFault::OutOfRange(at)));
        alike(&rt, "fault", (kind, found), (kind, fault));
    }
}
