//! The texts of caches, up to the longest, and names that are compared.

use crate::tests::checked::alike;
use mime_base::{ByteFault, Counted, Meter, same_name};
use mime_samples::caches::SAMPLE;
use std::cmp::Ordering;
use std::process::Abort;

/// Texts stand at offsets, and that many bytes are read for each.
fn are_read(rt: &impl Abort, cache: Counted<'_>, rows: &[Text]) {
    for row in rows {
        let mut meter = Meter::new();
        let text = cache.text_at(row.at, &mut meter);
        let found = (text, meter.nodes, meter.bytes);
        alike(rt, row.name, found, (row.text, 0, row.bytes));
    }
}

static OF_SAMPLE: [Text; 6] = [
    Text {
        name: "t/g",
        at: 220,
        text: Ok(b"t/g"),
        bytes: 4,
    },
    Text {
        name: "t/m",
        at: 224,
        text: Ok(b"t/m"),
        bytes: 4,
    },
    Text {
        name: "t/h",
        at: 228,
        text: Ok(b"t/h"),
        bytes: 4,
    },
    Text {
        name: "mk",
        at: 232,
        text: Ok(b"mk"),
        bytes: 3,
    },
    Text {
        name: "1F 8B",
        at: 236,
        text: Ok(b"\x1f\x8b"),
        bytes: 3,
    },
    Text {
        name: "the last byte",
        at: 239,
        text: Ok(b""),
        bytes: 1,
    },
];

#[test]
fn sample_texts(rt: HostRuntime) {
    are_read(&rt, Counted::new(&SAMPLE), &OF_SAMPLE);
}

/// The text `t/m` of the sample against a key: the order, and how many bytes are read.
static KEYS: [(&[u8], Ordering, u64); 13] = [
    (b"", Ordering::Greater, 1),
    (b"t", Ordering::Greater, 2),
    (b"t/", Ordering::Greater, 3),
    (b"t/g", Ordering::Greater, 3),
    (b"t/m", Ordering::Equal, 4),
    (b"t/m\0", Ordering::Less, 4),
    (b"t/m\0x", Ordering::Less, 4),
    (b"t/ma", Ordering::Less, 4),
    (b"t/n", Ordering::Less, 3),
    (b"s/m", Ordering::Greater, 1),
    (b"u", Ordering::Less, 1),
    (b"\xff", Ordering::Less, 1),
    (b"\0", Ordering::Greater, 1),
];

#[test]
fn orders_of_a_text(rt: HostRuntime) {
    let sample = Counted::new(&SAMPLE);
    for &(key, order, bytes) in &KEYS {
        let mut meter = Meter::new();
        let answer = sample.compare_text(224, key, &mut meter);
        let found = (key, answer, meter.nodes, meter.bytes);
        alike(&rt, "against a key", found, (key, Ok(order), 0, bytes));
    }
}

/// Letters and three zeros, which end texts of 0, 1 and 255 bytes; then come 511 letters.
fn texts_of_letters() -> [u8; 770] {
    let mut bytes = [b'a'; 770];
    bytes[0] = 0;
    bytes[2] = 0;
    bytes[258] = 0;
    bytes
}

/// What stands at an offset among the letters, and how many bytes are read for it.
struct Text {
    name: &'static str,
    at: u64,
    text: Result<&'static [u8], ByteFault>,
    bytes: u64,
}

static TEXTS: [Text; 5] = [
    Text {
        name: "no byte",
        at: 0,
        text: Ok(b""),
        bytes: 1,
    },
    Text {
        name: "one byte",
        at: 1,
        text: Ok(b"a"),
        bytes: 2,
    },
    Text {
        name: "255 bytes",
        at: 3,
        text: Ok(&[b'a'; 255]),
        bytes: 256,
    },
    Text {
        name: "256 bytes",
        at: 259,
        text: Err(ByteFault::LongText(259)),
        bytes: 256,
    },
    Text {
        name: "no zero before the end",
        at: 515,
        text: Err(ByteFault::OutOfRange(515)),
        bytes: 255,
    },
];

#[test]
fn longest_texts(rt: HostRuntime) {
    let bytes = texts_of_letters();
    let cache = Counted::new(&bytes);
    are_read(&rt, cache, &TEXTS);
}

/// How the text at an offset among the letters compares with a key, and how many bytes are read.
struct Order {
    name: &'static str,
    at: u64,
    key: &'static [u8],
    order: Result<Ordering, ByteFault>,
    bytes: u64,
}

static ORDERS: [Order; 7] = [
    Order {
        name: "255 bytes, the same",
        at: 3,
        key: &[b'a'; 255],
        order: Ok(Ordering::Equal),
        bytes: 256,
    },
    Order {
        name: "255 bytes, a longer key",
        at: 3,
        key: &[b'a'; 300],
        order: Ok(Ordering::Less),
        bytes: 256,
    },
    Order {
        name: "256 bytes, a longer key",
        at: 259,
        key: &[b'a'; 300],
        order: Err(ByteFault::LongText(259)),
        bytes: 256,
    },
    Order {
        name: "256 bytes, the same",
        at: 259,
        key: &[b'a'; 256],
        order: Err(ByteFault::LongText(259)),
        bytes: 256,
    },
    Order {
        name: "256 bytes, a shorter key",
        at: 259,
        key: &[b'a'; 255],
        order: Ok(Ordering::Greater),
        bytes: 256,
    },
    Order {
        name: "no zero before the end, a longer key",
        at: 515,
        key: &[b'a'; 300],
        order: Err(ByteFault::OutOfRange(515)),
        bytes: 255,
    },
    Order {
        name: "no zero before the end, a shorter key",
        at: 515,
        key: &[b'a'; 254],
        order: Ok(Ordering::Greater),
        bytes: 255,
    },
];

#[test]
fn orders_of_the_longest_texts(rt: HostRuntime) {
    let bytes = texts_of_letters();
    let cache = Counted::new(&bytes);
    for row in &ORDERS {
        let mut meter = Meter::new();
        let order = cache.compare_text(row.at, row.key, &mut meter);
        let found = (order, meter.nodes, meter.bytes);
        alike(&rt, row.name, found, (row.order, 0, row.bytes));
    }
}

/// Where no text of the sample stands.
static PAST: [u64; 3] = [240, 241, u64::MAX];

#[test]
fn texts_past_the_end(rt: HostRuntime) {
    let sample = Counted::new(&SAMPLE);
    let mut meter = Meter::new();
    for &at in &PAST {
        let fault = ByteFault::OutOfRange(at);
        alike(&rt, "text", sample.text_at(at, &mut meter), Err(fault));
        let order = sample.compare_text(at, b"t/m", &mut meter);
        alike(&rt, "against t/m", order, Err(fault));
        let order = sample.compare_text(at, b"", &mut meter);
        alike(&rt, "against no byte", order, Err(fault));
    }
    alike(&rt, "nothing", (meter.nodes, meter.bytes), (0, 0));
}

/// Two names, whether they are the same, and how many bytes are read.
static NAMES: [(&[u8], &[u8], bool, u64); 5] = [
    (b"", b"", true, 1),
    (b"t/m", b"t/m", true, 4),
    (b"t/m", b"t/", false, 3),
    (b"t/m", b"t/ma", false, 4),
    (b"t/m", b"s/m", false, 1),
];

#[test]
fn names_compared(rt: HostRuntime) {
    for &(left, right, same, bytes) in &NAMES {
        let mut meter = Meter::new();
        let answer = same_name(left, right, &mut meter);
        let found = (left, right, answer, meter.nodes, meter.bytes);
        alike(&rt, "names", found, (left, right, same, 0, bytes));
    }
}
