//! Contents that are sniffed by the index of the magic of a cache, which gives what a lookup by the lists of the database gives.

use super::{cache_of, database_of, outcome_of};
use crate::tests::checked::alike;
use mime_base::{Counted, Database, Host, Meter};
use mime_load::read_back;
use mime_lookup::{MagicIndex, Order, look_up_plain};
use mime_samples::texts::{EMPTY, Texts};
use std::alloc::Global;
use std::process::Abort;

/// A section without lines, and lines of one place and of a range, with a mask, in words, with children, of no offset and of no
/// bytes; and a type twice.
static TEXTS: [Texts<'static>; 1] = [Texts {
    magic: b"MIME-Magic\0\n[90:t/none]\n[80:t/two]\n>0=\0\x03one\n>1=\0\x03two\n[70:t/range]\n>2=\0\x02xy+5\n\
[60:t/mask]\n>0=\0\x02MK&\xdf\xdf\n>0=\0\x01N&\x0f\n[50:t/word]\n>0=\0\x02\x01\x02~2\n\
[50:t/parent]\n>0=\0\x01p\n1>1=\0\x01q\n1>1=\0\x01r\n2>2=\0\x01s\n[50:t/no-offset]\n>0=\0\x01z+0\n\
[40:t/two]\n>0=\0\x01z\n[30:t/end]\n>9=\0\0\n",
    ..EMPTY
}];

/// A content, the type and the priority of its first section, if there is one, and its type.
struct Row {
    name: &'static str,
    content: &'static [u8],
    section: Option<(&'static [u8], u32)>,
    kind: &'static [u8],
}

static ROWS: [Row; 16] = [
    Row {
        name: "no bytes",
        content: b"",
        section: None,
        kind: b"application/x-zerosize",
    },
    Row {
        name: "the first line of a section",
        content: b"one",
        section: Some((b"t/two", 80)),
        kind: b"t/two",
    },
    Row {
        name: "the second line",
        content: b"xtwo",
        section: Some((b"t/two", 80)),
        kind: b"t/two",
    },
    Row {
        name: "a value cut off",
        content: b"on",
        section: None,
        kind: b"text/plain",
    },
    Row {
        name: "the last place of a range",
        content: b"aaaaaaxy",
        section: Some((b"t/range", 70)),
        kind: b"t/range",
    },
    Row {
        name: "a place after it",
        content: b"aaaaaaaxy",
        section: Some((b"t/end", 30)),
        kind: b"t/end",
    },
    Row {
        name: "a small letter under a mask",
        content: b"mk",
        section: Some((b"t/mask", 60)),
        kind: b"t/mask",
    },
    Row {
        name: "low bits under a mask",
        content: b".",
        section: Some((b"t/mask", 60)),
        kind: b"t/mask",
    },
    Row {
        name: "a word turned round",
        content: b"\x02\x01",
        section: Some((b"t/word", 50)),
        kind: b"t/word",
    },
    Row {
        name: "a word as it stands",
        content: b"\x01\x02",
        section: None,
        kind: b"application/octet-stream",
    },
    Row {
        name: "a parent without a child",
        content: b"p.",
        section: None,
        kind: b"text/plain",
    },
    Row {
        name: "a child",
        content: b"pq",
        section: Some((b"t/parent", 50)),
        kind: b"t/parent",
    },
    Row {
        name: "a child without its own",
        content: b"pr.",
        section: None,
        kind: b"text/plain",
    },
    Row {
        name: "a child of a child",
        content: b"prs",
        section: Some((b"t/parent", 50)),
        kind: b"t/parent",
    },
    Row {
        name: "a type again",
        content: b"z",
        section: Some((b"t/two", 40)),
        kind: b"t/two",
    },
    Row {
        name: "no bytes at the end",
        content: b"123456789",
        section: Some((b"t/end", 30)),
        kind: b"t/end",
    },
];

/// By the index of the cache's magic, and by the lists of the database.
fn is_found(
    rt: &impl Abort,
    alloc: Global,
    database: &Database,
    index: &MagicIndex<'_>,
    row: &Row,
) {
    let mut meter = Meter::new();
    let section = index.first_section(row.content, Host::Little, &mut meter);
    alike(rt, row.name, section, row.section);
    let (mut content, order) = (Some(row.content), Order::ContentOnly);
    let answer = look_up_plain(alloc, database, b"q", &mut content, Host::Little, order);
    let read = row.content.len() as u64;
    alike(rt, row.name, outcome_of(answer), Ok((row.kind, read)));
}

/// The index of the magic of a cache, boxed too.
pub fn magic_of<'a>(rt: &impl Abort, alloc: Global, cache: &'a [u8]) -> Box<MagicIndex<'a>> {
    let lists = read_back(alloc, &Counted::new(cache), &mut Meter::new()).expect(rt, "lists");
    let index = MagicIndex::new(alloc, lists.magic).expect(rt, "an index");
    Box::new(alloc, index).expect(rt, "room")
}

/// Each row is found.
fn are_found(rt: &impl Abort, alloc: Global, database: &Database, cache: &[u8]) {
    let index = magic_of(rt, alloc, cache);
    for row in &ROWS {
        is_found(rt, alloc, database, &index, row);
    }
}

#[test]
fn sections_of_a_cache(rt: HostRuntime) {
    let database = database_of(&rt, rt.alloc(), &TEXTS);
    let cache = cache_of(&rt, rt.alloc(), &database);
    are_found(&rt, rt.alloc(), &database, &cache);
}
