//! Contents over the index of a database, which are sniffed as by its lists.

use super::{by_index, by_lists, database_of, index_of, of_magic, outcome_of};
use crate::tests::checked::alike;
use mime_base::{Database, Host};
use mime_lookup::{DatabaseMagic, IndexedDatabase, Order, look_up_by_magic};
use mime_samples::texts::{EMPTY, Texts};
use std::alloc::Global;
use std::process::Abort;

/// A content has one outcome by the lists and by the index, on each host.
fn is_alike(
    rt: &impl Abort,
    alloc: Global,
    database: &Database,
    index: &IndexedDatabase<'_>,
    content: &[u8],
) {
    for host in [Host::Little, Host::Big] {
        let way = (host, Order::ContentOnly);
        let wanted = by_lists(alloc, database, b"", Some(content), way);
        let found = by_index(alloc, index, b"", Some(content), way);
        alike(rt, "by the index", found, wanted);
    }
}

/// So it has with each byte of it changed, and cut at each place. It has no more than 16 bytes.
fn changes_are_alike(
    rt: &impl Abort,
    alloc: Global,
    database: &Database,
    index: &IndexedDatabase<'_>,
    content: &[u8],
) {
    let size = content.len().min(16);
    let mut changed = [b'.'; 16];
    for place in 0..size {
        changed[place] = content[place];
    }
    for place in 0..size {
        is_alike(rt, alloc, database, index, &content[..place]);
        changed[place] = b'.';
        is_alike(rt, alloc, database, index, &changed[..size]);
        changed[place] = content[place];
    }
    is_alike(rt, alloc, database, index, content);
}

/// Lines of one place: of one byte and of more, that begin alike, under masks that keep the first two bytes of the value and
/// that don't, in words, and more than one of a place and a byte.
const HEADS: &[u8] =
    b"MIME-Magic\0\n[50:t/abcd]\n>0=\0\x06abcdef\n[50:t/abce]\n>0=\0\x04abce\n[50:t/abc]\n>0=\0\x03abc\n\
[50:t/ab-x]\n>0=\0\x02ab\n1>3=\0\x01x\n[50:t/ab]\n>0=\0\x02ab\n[50:t/a]\n>0=\0\x01a\n[50:t/late]\n>0=\0\x02ab\n\
[50:t/second]\n>1=\0\x02bc\n[50:t/kept]\n>0=\0\x04MKab&\xff\xff\0\xff\n[50:t/first]\n>0=\0\x04NKab&\xff\0\xff\xff\n\
[50:t/none]\n>0=\0\x02PQ&\xdf\xff\n[50:t/twos]\n>0=\0\x04wxyz~2\n[50:t/fours]\n>4=\0\x04stuv~4\n[50:t/pair]\n>0=\0\x02op~2\n\
[40:t/one]\n>2=\0\x01Z+4\n[40:t/short]\n>1=\0\x04hijk+3\n[40:t/masked]\n>1=\0\x04lmno&\xff\xff\xff\0+3\n";

/// What each of them seeks, alone and before more.
static HEADED: [&[u8]; 17] = [
    b"abcdefg",
    b"abcxe",
    b"abxx",
    b".bcde",
    b"MKxb",
    b"NxabK",
    b"PQ",
    b"pQ",
    b"xwzy",
    b"wxyz",
    b"....vuts",
    b"....stuv",
    b"opqr",
    b"poqr",
    b"....Z.",
    b".hhijkk",
    b"..lmn",
];

/// So has each of them.
fn heads_are_alike(rt: &impl Abort, alloc: Global, database: &Database) {
    let index = index_of(rt, alloc, database);
    for &content in &HEADED {
        changes_are_alike(rt, alloc, database, &index, content);
    }
}

#[test]
fn heads(rt: HostRuntime) {
    heads_are_alike(&rt, rt.alloc(), &of_magic(&rt, rt.alloc(), HEADS));
}

/// A name and a content have one outcome by the lists and by the magic alone, in each order.
fn is_alike_by_magic(
    rt: &impl Abort,
    alloc: Global,
    database: &Database,
    magic: &DatabaseMagic<'_>,
    content: &[u8],
) {
    let (host, name) = (Host::Little, b"x.a");
    for order in [Order::ContentOnly, Order::GlobsFirst, Order::AllGlobs] {
        let wanted = by_lists(alloc, database, name, Some(content), (host, order));
        let mut of_magic = Some(content);
        let found = look_up_by_magic(alloc, magic, name, &mut of_magic, host, order);
        alike(rt, "by the magic", outcome_of(found), wanted);
    }
}

/// So has each content.
fn are_alike_by_magic(rt: &impl Abort, alloc: Global, database: &Database) {
    let magic = DatabaseMagic::new(alloc, database).expect(rt, "its magic");
    for &content in &HEADED {
        is_alike_by_magic(rt, alloc, database, &magic, content);
    }
}

/// The same lines, and names of two types.
static NAMED: [Texts<'static>; 1] = [Texts {
    globs2: b"50:t/abce:*.a\n50:t/late:*.a\n",
    aliases: b"t/abc t/other\n",
    subclasses: b"t/second t/late\n",
    magic: HEADS,
    ..EMPTY
}];

#[test]
fn magic_alone(rt: HostRuntime) {
    are_alike_by_magic(&rt, rt.alloc(), &database_of(&rt, rt.alloc(), &NAMED));
}

/// Ranges of which the last place of a later pair is the last that is noted, one more, and far beyond; each value has capitals
/// late, so that they are the later pair.
const RANGES: &[u8] =
    b"MIME-Magic\0\n[50:t/noted]\n>270=\0\x04abAB+16\n[50:t/next]\n>270=\0\x04cdCD+17\n[50:t/far]\n>2=\0\x05efEFG+320\n\
[50:t/small]\n>3=\0\x04ghij+300\n[50:t/pair]\n>280=\0\x02KL+9\n[50:t/children]\n>0=\0\x03MNO+400\n1>1=\0\x01!\n";

/// A value at a place of a content of 340 bytes, and of one that ends with it.
fn place_is_alike(
    rt: &impl Abort,
    alloc: Global,
    database: &Database,
    index: &IndexedDatabase<'_>,
    value: &[u8],
    place: usize,
) {
    let mut content = [b'.'; 340];
    for at in 0..value.len() {
        let to = place.saturating_add(at);
        if to < 340 {
            content[to] = value[at];
        }
    }
    let end = place.saturating_add(value.len()).min(340);
    is_alike(rt, alloc, database, index, &content);
    is_alike(rt, alloc, database, index, &content[..end]);
}

/// A value at places near the last that is noted, and at the first.
fn places_are_alike(
    rt: &impl Abort,
    alloc: Global,
    database: &Database,
    index: &IndexedDatabase<'_>,
    value: &[u8],
) {
    for place in 264..326 {
        place_is_alike(rt, alloc, database, index, value, place);
    }
    for place in 0..6 {
        place_is_alike(rt, alloc, database, index, value, place);
    }
}

/// What each of the ranges seeks, and what none does.
static RANGED: [&[u8]; 9] = [
    b"abAB", b"cdCD", b"efEFG", b"ghij", b"KL", b"MNO", b"efEF", b"abAb", b"KKL",
];

/// Each of them at these places.
fn ranges_are_alike(rt: &impl Abort, alloc: Global, database: &Database) {
    let index = index_of(rt, alloc, database);
    for &value in &RANGED {
        places_are_alike(rt, alloc, database, &index, value);
    }
}

#[test]
fn ranges(rt: HostRuntime) {
    ranges_are_alike(&rt, rt.alloc(), &of_magic(&rt, rt.alloc(), RANGES));
}

/// More places than there are tables, each with a line of its own, and one line of all of them before and after.
fn many_places(rt: &impl Abort, alloc: Global) -> Vec<u8> {
    let mut magic = Vec::new(alloc);
    magic
        .extend_from_slice(b"MIME-Magic\0\n[60:t/before]\n>299=\0\x01Y\n")
        .expect(rt, "room");
    for place in 0..300 {
        let line = format!(in alloc; "[50:t/p{place}]\n>{place}=").expect(rt, "a text");
        magic.extend_from_slice(line.as_bytes()).expect(rt, "room");
        magic.extend_from_slice(b"\0\x01Z\n").expect(rt, "room");
    }
    magic
        .extend_from_slice(b"[40:t/after]\n>0=\0\x01Z\n")
        .expect(rt, "room");
    magic
}

/// Values at places that have a table and at places that have none.
fn tables_are_alike(rt: &impl Abort, alloc: Global, database: &Database) {
    let index = index_of(rt, alloc, database);
    for place in [0, 1, 254, 255, 256, 257, 298, 299] {
        place_is_alike(rt, alloc, database, &index, b"Z", place);
        place_is_alike(rt, alloc, database, &index, b"ZZ", place);
        place_is_alike(rt, alloc, database, &index, b"Y", place);
    }
}

#[test]
fn places(rt: HostRuntime) {
    let magic = many_places(&rt, rt.alloc());
    tables_are_alike(&rt, rt.alloc(), &of_magic(&rt, rt.alloc(), &magic));
}

/// Many lines of one place and byte, of which the one that holds is late.
fn many_lines(rt: &impl Abort, alloc: Global) -> Vec<u8> {
    let mut magic = Vec::new(alloc);
    magic
        .extend_from_slice(b"MIME-Magic\0\n[50:t/many]\n")
        .expect(rt, "room");
    for second in 0..250 {
        magic.extend_from_slice(b">0=\0\x03A").expect(rt, "room");
        magic
            .extend_from_slice(&[second, b'B', b'\n'])
            .expect(rt, "room");
    }
    magic
        .extend_from_slice(b"[40:t/late]\n>0=\0\x02A.\n")
        .expect(rt, "room");
    magic
}

/// The lines' values, whole and cut.
fn chains_are_alike(rt: &impl Abort, alloc: Global, database: &Database) {
    let index = index_of(rt, alloc, database);
    for second in 0..255 {
        is_alike(rt, alloc, database, &index, &[b'A', second]);
        is_alike(rt, alloc, database, &index, &[b'A', second, b'B']);
    }
    is_alike(rt, alloc, database, &index, b"A.C");
}

#[test]
fn chains(rt: HostRuntime) {
    let magic = many_lines(&rt, rt.alloc());
    chains_are_alike(&rt, rt.alloc(), &of_magic(&rt, rt.alloc(), &magic));
}
