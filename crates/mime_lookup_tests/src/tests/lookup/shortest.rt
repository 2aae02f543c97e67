//! Contents that are shorter than what any line of magic needs, as long, and longer, by the index and by the lists.

use super::magic_index::magic_of;
use super::{by_index, by_lists, cache_of, index_of, of_magic};
use crate::tests::checked::alike;
use mime_base::{Database, Host, Meter};
use mime_lookup::{IndexedDatabase, MagicIndex, Order};
use std::alloc::Global;
use std::process::Abort;

/// Fronts of this are asked, of each length.
const CONTENT: &[u8] = b"aaaaaaaa";

/// Lines of one section, and how many of these bytes a content needs at least for one of them to hold.
struct Row {
    name: &'static str,
    magic: &'static [u8],
    least: usize,
}

static ROWS: [Row; 12] = [
    Row {
        name: "no bytes",
        magic: b"MIME-Magic\0\n[50:t/it]\n>0=\0\0\n",
        least: 0,
    },
    Row {
        name: "one byte",
        magic: b"MIME-Magic\0\n[50:t/it]\n>0=\0\x01a\n",
        least: 1,
    },
    Row {
        name: "two bytes",
        magic: b"MIME-Magic\0\n[50:t/it]\n>0=\0\x02aa\n",
        least: 2,
    },
    Row {
        name: "one byte after three",
        magic: b"MIME-Magic\0\n[50:t/it]\n>3=\0\x01a\n",
        least: 4,
    },
    Row {
        name: "no bytes after two",
        magic: b"MIME-Magic\0\n[50:t/it]\n>2=\0\0\n",
        least: 2,
    },
    Row {
        name: "under a mask",
        magic: b"MIME-Magic\0\n[50:t/it]\n>1=\0\x02aa&\x0f\x0f\n",
        least: 3,
    },
    Row {
        name: "a word",
        magic: b"MIME-Magic\0\n[50:t/it]\n>2=\0\x02aa~2\n",
        least: 4,
    },
    Row {
        name: "a range",
        magic: b"MIME-Magic\0\n[50:t/it]\n>1=\0\x02aa+3\n",
        least: 3,
    },
    Row {
        name: "a shorter line after a longer one",
        magic: b"MIME-Magic\0\n[50:t/it]\n>4=\0\x02aa\n>0=\0\x03aaa\n",
        least: 3,
    },
    Row {
        name: "a shorter line before a longer one",
        magic: b"MIME-Magic\0\n[50:t/it]\n>2=\0\x01a\n>4=\0\x02aa\n",
        least: 3,
    },
    Row {
        name: "a child",
        magic: b"MIME-Magic\0\n[50:t/it]\n>0=\0\x01a\n1>4=\0\x01a\n",
        least: 5,
    },
    Row {
        name: "no lines",
        magic: b"MIME-Magic\0\n[50:t/it]\n",
        least: 9,
    },
];

/// The type of a front, where so many bytes are needed for the section to hold.
fn kind_of(least: usize, length: usize) -> &'static [u8] {
    if length >= least {
        b"t/it"
    } else if length == 0 {
        b"application/x-zerosize"
    } else {
        b"text/plain"
    }
}

/// A front has its type by the lists and by the index of the database, and a section by the index of the cache.
fn front_has(
    rt: &impl Abort,
    alloc: Global,
    database: &Database,
    (index, of_cache): (&IndexedDatabase<'_>, &MagicIndex<'_>),
    row: &Row,
    length: usize,
) {
    let (front, host) = (CONTENT.get(..length).unwrap_or(CONTENT), Host::Little);
    let wanted = Ok((kind_of(row.least, length), length as u64));
    let way = (host, Order::ContentOnly);
    let plain = by_lists(alloc, database, b"q", Some(front), way);
    alike(rt, row.name, plain, wanted);
    let indexed = by_index(alloc, index, b"q", Some(front), way);
    alike(rt, row.name, indexed, wanted);
    let section = of_cache.first_section(front, host, &mut Meter::new());
    alike(rt, row.name, section.is_some(), length >= row.least);
}

/// Each front has its type.
fn fronts_have(rt: &impl Abort, alloc: Global, database: &Database, cache: &[u8], row: &Row) {
    let index = index_of(rt, alloc, database);
    let of_cache = magic_of(rt, alloc, cache);
    for length in 0..CONTENT.len() + 1 {
        front_has(rt, alloc, database, (&index, &of_cache), row, length);
    }
}

#[test]
fn contents_of_each_length(rt: HostRuntime) {
    for row in &ROWS {
        let database = of_magic(&rt, rt.alloc(), row.magic);
        let cache = cache_of(&rt, rt.alloc(), &database);
        fronts_have(&rt, rt.alloc(), &database, &cache, row);
    }
}
