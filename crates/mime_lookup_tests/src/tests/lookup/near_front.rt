//! Values that stand around the last places that an index notes of a content, by the index and by the lists.

use super::{Outcome, by_index, by_lists, index_of, of_magic};
use crate::tests::checked::alike;
use mime_base::{Database, Host};
use mime_lookup::{IndexedDatabase, Order};
use std::alloc::Global;
use std::process::Abort;

/// A line, and where its value may begin: at the first place, and at so many.
struct Row {
    magic: &'static [u8],
    value: &'static [u8],
    start: usize,
    range: usize,
}

static ROWS: [Row; 10] = [
    Row {
        magic: b"MIME-Magic\0\n[50:t/it]\n>0=\0\x02ab+254\n",
        value: b"ab",
        start: 0,
        range: 254,
    },
    Row {
        magic: b"MIME-Magic\0\n[50:t/it]\n>0=\0\x02ab+255\n",
        value: b"ab",
        start: 0,
        range: 255,
    },
    Row {
        magic: b"MIME-Magic\0\n[50:t/it]\n>0=\0\x02ab+256\n",
        value: b"ab",
        start: 0,
        range: 256,
    },
    Row {
        magic: b"MIME-Magic\0\n[50:t/it]\n>0=\0\x02ab+287\n",
        value: b"ab",
        start: 0,
        range: 287,
    },
    Row {
        magic: b"MIME-Magic\0\n[50:t/it]\n>280=\0\x02ab+8\n",
        value: b"ab",
        start: 280,
        range: 8,
    },
    Row {
        magic: b"MIME-Magic\0\n[50:t/it]\n>280=\0\x02ab+9\n",
        value: b"ab",
        start: 280,
        range: 9,
    },
    Row {
        magic: b"MIME-Magic\0\n[50:t/it]\n>250=\0\x04abQR+36\n",
        value: b"abQR",
        start: 250,
        range: 36,
    },
    Row {
        magic: b"MIME-Magic\0\n[50:t/it]\n>250=\0\x04abQR+37\n",
        value: b"abQR",
        start: 250,
        range: 37,
    },
    Row {
        magic: b"MIME-Magic\0\n[50:t/it]\n>250=\0\x06abQRcd+32\n",
        value: b"abQRcd",
        start: 250,
        range: 32,
    },
    Row {
        magic: b"MIME-Magic\0\n[50:t/it]\n>250=\0\x01Q+40\n",
        value: b"Q",
        start: 250,
        range: 40,
    },
];

/// How many bytes are before the value.
static PLACES: [usize; 28] = [
    0, 1, 249, 250, 251, 252, 253, 254, 255, 256, 257, 279, 280, 281, 282, 283, 284, 285, 286, 287,
    288, 289, 290, 291, 292, 293, 294, 300,
];

/// The type that was found, or nothing.
fn kind_in(found: Outcome<'_>) -> &[u8] {
    match found {
        Ok((kind, _)) => kind,
        Err(_) => b"",
    }
}

/// A content with the value of the row at this place.
fn content_of(rt: &impl Abort, alloc: Global, row: &Row, place: usize, after: &[u8]) -> Vec<u8> {
    let mut bytes = Vec::new(alloc);
    for _ in 0..place {
        bytes.push(b'x').expect(rt, "room");
    }
    bytes.extend_from_slice(row.value).expect(rt, "room");
    bytes.extend_from_slice(after).expect(rt, "room");
    bytes
}

/// Its type: the row's, where the line may begin there.
fn kind_at(row: &Row, place: usize) -> &'static [u8] {
    if row.start <= place && place - row.start < row.range {
        b"t/it"
    } else {
        b"text/plain"
    }
}

/// A content has a type by the lists and by the index.
fn has_kind(
    rt: &impl Abort,
    alloc: Global,
    database: &Database,
    index: &IndexedDatabase<'_>,
    content: &[u8],
    kind: &[u8],
) {
    let way = (Host::Little, Order::ContentOnly);
    let plain = by_lists(alloc, database, b"q", Some(content), way);
    alike(rt, "by the lists", kind_in(plain), kind);
    let indexed = by_index(alloc, index, b"q", Some(content), way);
    alike(rt, "by the index", kind_in(indexed), kind);
}

/// The value of a row at a place, alone and before others, has its type.
fn has_kind_at(
    rt: &impl Abort,
    alloc: Global,
    database: &Database,
    index: &IndexedDatabase<'_>,
    row: &Row,
    place: usize,
) {
    for after in [&b""[..], b"xx"] {
        let content = content_of(rt, alloc, row, place, after);
        has_kind(rt, alloc, database, index, &content, kind_at(row, place));
    }
}

/// So it has at each place.
fn has_kinds(rt: &impl Abort, alloc: Global, database: &Database, row: &Row) {
    let index = index_of(rt, alloc, database);
    for &place in &PLACES {
        has_kind_at(rt, alloc, database, &index, row, place);
    }
}

#[test]
fn values_near_the_end_of_the_front(rt: HostRuntime) {
    for row in &ROWS {
        let database = of_magic(&rt, rt.alloc(), row.magic);
        has_kinds(&rt, rt.alloc(), &database, row);
    }
}
