//! Keys that are compared with texts of a cache, alone and as one that many texts are compared with.

use crate::tests::checked::alike;
use mime_base::{ByteFault, Counted, Key, Meter};
use std::cmp::Ordering;
use std::cmp::Ordering::{Equal, Greater, Less};

/// Texts of 40, 15, 16 and 3 bytes at 0, 41, 57 and 74; then two letters that no zero ends.
static TEXTS: &[u8] = b"abcdefghijklmnopqrstuvwxyz0123456789ABCD\0\
abcdefghijklmno\0abcdefghijklmnop\0t/m\0ab";

/// An offset, a key, how the text there compares with it, and how many bytes are read.
type Row = (u64, &'static [u8], Result<Ordering, ByteFault>, u64);

static ROWS: [Row; 38] = [
    (0, b"", Ok(Greater), 1),
    (0, b"a", Ok(Greater), 2),
    (0, b"b", Ok(Less), 1),
    (0, b"\0", Ok(Greater), 1),
    (0, b"abc\0efg", Ok(Greater), 4),
    (0, b"abcdefghijklmn\0", Ok(Greater), 15),
    (0, b"abcdefghijklmno", Ok(Greater), 16),
    (0, b"abcdefghijklmnp", Ok(Less), 15),
    (0, b"abcdefghijklmnop", Ok(Greater), 17),
    (0, b"abcdefghijklmnoo", Ok(Greater), 16),
    (0, b"abcdefghijklmnoq", Ok(Less), 16),
    (0, b"abcdefghijklmnopq", Ok(Greater), 18),
    (0, b"abcdefghijklmnopp", Ok(Greater), 17),
    (0, b"abcdefghijklmnop\0", Ok(Greater), 17),
    (
        0,
        b"abcdefghijklmnopqrstuvwxyz0123456789ABCD",
        Ok(Equal),
        41,
    ),
    (0, b"abcdefghijklmnopqrstuvwxyz0123456789ABCE", Ok(Less), 40),
    (0, &[b'a'; 300], Ok(Greater), 2),
    (41, b"abcdefghijklmno", Ok(Equal), 16),
    (41, b"abcdefghijklmnop", Ok(Less), 16),
    (41, b"abcdefghijklmno\0", Ok(Less), 16),
    (41, b"abcdefghijklmno\0a", Ok(Less), 16),
    (57, b"abcdefghijklmno", Ok(Greater), 16),
    (57, b"abcdefghijklmnop", Ok(Equal), 17),
    (57, b"abcdefghijklmnopq", Ok(Less), 17),
    (
        57,
        b"abcdefghijklmnopqrstuvwxyz0123456789ABCD",
        Ok(Less),
        17,
    ),
    (64, b"hijklmnop", Ok(Equal), 10),
    (64, b"hijklmnop\0t", Ok(Less), 10),
    (65, b"ijklmnop", Ok(Equal), 9),
    (74, b"", Ok(Greater), 1),
    (74, b"t/m", Ok(Equal), 4),
    (74, b"t/m\0", Ok(Less), 4),
    (74, b"t/n", Ok(Less), 3),
    (74, &[b't'; 40], Ok(Less), 2),
    (78, b"a", Ok(Greater), 2),
    (78, b"ab", Err(ByteFault::OutOfRange(78)), 2),
    (78, b"abcdefghijklmnopq", Err(ByteFault::OutOfRange(78)), 2),
    (80, b"", Err(ByteFault::OutOfRange(80)), 0),
    (u64::MAX, b"ab", Err(ByteFault::OutOfRange(u64::MAX)), 0),
];

fn table() -> &'static [Row] {
    &ROWS
}

#[test]
fn keys_of_each_length(rt: HostRuntime) {
    let cache = Counted::new(TEXTS);
    for &(at, key, order, bytes) in table() {
        let mut meter = Meter::new();
        let answer = cache.compare_text(at, key, &mut meter);
        let found = (at, key, answer, meter.nodes, meter.bytes);
        alike(&rt, "alone", found, (at, key, order, 0, bytes));
    }
}

#[test]
fn keys_of_searches(rt: HostRuntime) {
    let cache = Counted::new(TEXTS);
    for &(at, key, order, bytes) in table() {
        let mut meter = Meter::new();
        let answer = cache.compare_key(at, &Key::new(key), &mut meter);
        let found = (at, key, answer, meter.nodes, meter.bytes);
        alike(&rt, "of a search", found, (at, key, order, 0, bytes));
    }
}
