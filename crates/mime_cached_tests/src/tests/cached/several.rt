//! Names of several types over a cache, of which parts are read back: the type is the one by a walk and by the lists of the database,
//! whatever is read back, and once names and pairs are, no record but the header is visited for a name alone.

mod damaged;

use super::{
    Asked, Outcome, Parts, cache_of, database_of, found_again, opened, outcome_of, read_parts,
    walked,
};
use crate::tests::checked::alike;
use mime_base::{Database, Host};
use mime_lookup::{IndexedCache, Order, look_up_again, look_up_name_again, look_up_plain};
use mime_samples::texts::{EMPTY, Texts};
use std::alloc::Global;
use std::process::Abort;

/// Of `.ogg` four types, one of them by an alias; of `.two` a type of two parents and one of none; of `.tie` types of two weights; of `q`
/// five types, more than the halving of so short a name pays for, and of `w` four.
static SEVERAL: [Texts<'static>; 1] = [Texts {
    globs2: b"60:t/high:*.tie\n50:a/ogg:*.ogg\n50:v/ogg:*.ogg\n50:x/theora:*.ogg\n50:t/other:*.ogg\n50:d/one:*.two\n50:d/both:*.two\n\
50:t/low:*.tie\n50:q/1:q\n50:q/2:q\n50:q/3:q\n50:q/4:q\n50:q/5:q\n50:w/1:w\n50:w/2:w\n50:w/3:w\n50:w/4:w\n",
    magic: b"MIME-Magic\0\n[50:p/ogg]\n>0=\0\x01O\n[50:x/theora]\n>0=\0\x01T\n[50:v/ogg]\n>0=\0\x01V\n[50:r/right]\n>0=\0\x01R\n\
[50:z/none]\n>0=\0\x01Z\n[50:t/low]\n>0=\0\x01L\n[50:q/5]\n>0=\0\x01Q\n[50:w/4]\n>0=\0\x01W\n[90:t/loud]\n>0=\0\x01!\n",
    aliases: b"x/theora v/theora\nx/container p/ogg\n",
    subclasses: b"a/ogg x/container\nv/ogg p/ogg\nv/theora v/ogg\nd/both l/left\nd/both r/right\nl/a l/b\nl/b l/a\n",
    ..EMPTY
}];

/// A name, a content, and its type where the preferred rules are asked and where all that match are.
type Row = (
    &'static [u8],
    Option<&'static [u8]>,
    &'static [u8],
    &'static [u8],
);

const OCTETS: &[u8] = b"application/octet-stream";

static ROWS: [Row; 18] = [
    // Without a content what is sniffed is application/octet-stream, which the first type is.
    (b"x.ogg", None, b"a/ogg", b"a/ogg"),
    (b"x.ogg", Some(b"O"), b"a/ogg", b"a/ogg"),
    (b"x.ogg", Some(b"T"), b"v/theora", b"v/theora"),
    (b"X.OGG", Some(b"V"), b"v/ogg", b"v/ogg"),
    (b"x.ogg", Some(b"Z"), b"a/ogg", b"a/ogg"),
    (b"x.ogg", Some(b"text"), b"a/ogg", b"a/ogg"),
    (b"x.ogg", Some(b""), b"a/ogg", b"a/ogg"),
    (b"x.two", None, b"d/one", b"d/one"),
    (b"x.two", Some(b"R"), b"d/both", b"d/both"),
    (b"x.two", Some(b"O"), b"d/one", b"d/one"),
    (b"x.tie", Some(b"L"), b"t/high", b"t/low"),
    (b"x.tie", Some(b"text"), b"t/high", b"t/high"),
    (b"q", None, b"q/1", b"q/1"),
    (b"q", Some(b"Q"), b"q/5", b"q/5"),
    (b"w", None, b"w/1", b"w/1"),
    (b"w", Some(b"W"), b"w/4", b"w/4"),
    // A name with no rule, after which the content alone decides.
    (b"none", Some(b"T"), b"v/theora", b"v/theora"),
    (b"none", None, OCTETS, OCTETS),
];

/// Names of which the type is known by the index: all but that of five types.
static NAMES: [(&[u8], &[u8], bool); 5] = [
    (b"x.ogg", b"a/ogg", true),
    (b"x.two", b"d/one", true),
    (b"w", b"w/1", true),
    (b"q", b"q/1", false),
    (b"none", OCTETS, true),
];

/// Each choice of what is read back: names, magic and pairs.
static EACH: [(bool, bool, bool); 8] = [
    (false, false, false),
    (true, false, false),
    (false, true, false),
    (true, true, false),
    (false, false, true),
    (true, false, true),
    (false, true, true),
    (true, true, true),
];

/// A cache that is opened, with names, magic and pairs read back as they are chosen.
fn read_back<'a>(
    rt: &impl Abort,
    alloc: Global,
    cache: &'a [u8],
    (names, magic, pairs): (bool, bool, bool),
) -> Box<IndexedCache<'a>> {
    let mut indexed = opened(rt, alloc, cache);
    let parts = Parts {
        names,
        magic,
        pairs,
    };
    read_parts(alloc, &mut indexed, parts).expect(rt, "what is read back");
    indexed
}

/// The outcome by the lists of a database.
fn listed<'a>(
    alloc: Global,
    database: &'a Database,
    (file, content, order): Asked<'_>,
) -> Outcome<'a> {
    let mut content = content;
    outcome_of(look_up_plain(alloc, database, file, &mut content, Host::Little, order))
}

/// By the lists, by a walk and by what was read back what is asked has one outcome.
fn look_up_alike<'a>(
    rt: &impl Abort,
    alloc: Global,
    database: &'a Database,
    indexed: &IndexedCache<'_>,
    cache: &[u8],
    asked: Asked<'_>,
) -> Outcome<'a> {
    let plain = listed(alloc, database, asked);
    alike(
        rt,
        "walked",
        (asked, walked(alloc, cache, asked)),
        (asked, plain),
    );
    alike(
        rt,
        "again",
        (asked, found_again(alloc, indexed, asked)),
        (asked, plain),
    );
    plain
}

/// The type of an answer.
fn kind_of<'a>(outcome: Outcome<'a>) -> Option<&'a [u8]> {
    match outcome {
        Ok((kind, _)) => Some(kind),
        Err(_) => None,
    }
}

/// A row, in each order: its outcome is its type, if that is given.
fn row_alike(
    rt: &impl Abort,
    alloc: Global,
    database: &Database,
    indexed: &IndexedCache<'_>,
    cache: &[u8],
    &(file, content, kind, of_all): &Row,
) {
    for (order, wanted) in [
        (Order::GlobsFirst, Some(kind)),
        (Order::AllGlobs, Some(of_all)),
        (Order::MagicFirst, Some(kind)),
        (Order::ContentOnly, None),
    ] {
        let asked = (file, content, order);
        let found = look_up_alike(rt, alloc, database, indexed, cache, asked);
        if wanted.is_some() {
            alike(rt, "kind", (asked, kind_of(found)), (asked, wanted));
        }
    }
}

/// Each row, after parts of the cache were read back.
fn rows_alike(
    rt: &impl Abort,
    alloc: Global,
    database: &Database,
    cache: &[u8],
    choice: (bool, bool, bool),
) {
    let indexed = read_back(rt, alloc, cache, choice);
    for row in &ROWS {
        row_alike(rt, alloc, database, &indexed, cache, row);
    }
}

#[test]
fn several_types(rt: HostRuntime) {
    let alloc = rt.alloc();
    let database = database_of(&rt, alloc, &SEVERAL);
    let cache = cache_of(&rt, alloc, &SEVERAL);
    for &choice in &EACH {
        rows_alike(&rt, alloc, &database, &cache, choice);
    }
}

/// Where magic is asked first a content of high priority goes before the types of the name.
fn is_loud(rt: &impl Abort, alloc: Global, cache: &[u8], choice: (bool, bool, bool)) {
    let indexed = read_back(rt, alloc, cache, choice);
    for (order, kind) in [
        (Order::MagicFirst, &b"t/loud"[..]),
        (Order::GlobsFirst, b"a/ogg"),
        (Order::AllGlobs, b"a/ogg"),
    ] {
        let found = found_again(alloc, &indexed, (b"x.ogg", Some(b"!"), order));
        alike(rt, "loud", found, Ok((kind, 1)));
    }
}

#[test]
fn loud_contents(rt: HostRuntime) {
    let cache = cache_of(&rt, rt.alloc(), &SEVERAL);
    for &choice in &EACH {
        is_loud(&rt, rt.alloc(), &cache, choice);
    }
}

/// A name has a type, for two records where that is known by the index.
fn is_named(
    rt: &impl Abort,
    alloc: Global,
    indexed: &IndexedCache<'_>,
    (file, kind, is_indexed): (&[u8], &[u8], bool),
) {
    let found = look_up_name_again(alloc, indexed, file, Order::GlobsFirst);
    let found = found.expect(rt, "an answer");
    let told = (file, found.kind, found.meter.nodes <= 2);
    alike(rt, "a name", told, (file, kind, is_indexed));
}

/// Once names and pairs are read back, a name of several types visits the header and the record that states the extent, no other; one of
/// more types than its halving pays for goes by the walk.
fn are_named(rt: &impl Abort, alloc: Global, cache: &[u8]) {
    let indexed = read_back(rt, alloc, cache, (true, false, true));
    for &name in &NAMES {
        is_named(rt, alloc, &indexed, name);
    }
}

#[test]
fn names_alone(rt: HostRuntime) {
    let cache = cache_of(&rt, rt.alloc(), &SEVERAL);
    are_named(&rt, rt.alloc(), &cache);
}

/// A content chooses among the types of a name, for two records.
fn is_chosen(rt: &impl Abort, alloc: Global, indexed: &IndexedCache<'_>, order: Order) {
    let (mut content, host) = (Some(&b"T"[..]), Host::Little);
    let found = look_up_again(alloc, indexed, b"x.ogg", &mut content, host, order);
    let found = found.expect(rt, "an answer");
    let told = (found.kind, found.meter.nodes);
    alike(rt, "a content", told, (&b"v/theora"[..], 2));
}

/// Once all is read back, so does a content that chooses among the types of a name.
fn are_chosen(rt: &impl Abort, alloc: Global, cache: &[u8]) {
    let indexed = read_back(rt, alloc, cache, (true, true, true));
    for order in [Order::GlobsFirst, Order::AllGlobs, Order::MagicFirst] {
        is_chosen(rt, alloc, &indexed, order);
    }
}

#[test]
fn contents_that_choose(rt: HostRuntime) {
    let cache = cache_of(&rt, rt.alloc(), &SEVERAL);
    are_chosen(&rt, rt.alloc(), &cache);
}
