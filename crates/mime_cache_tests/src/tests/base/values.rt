//! Windows of a content against values of a cache.

use crate::tests::checked::alike;
use mime_base::{ByteFault, Counted, Host, Meter};
use mime_samples::caches::{SAMPLE, SELF_CHILD};
use std::process::Abort;

/// A value of four bytes at 4 and a mask at 8.
static MASKED: [u8; 12] = [
    0xee, 0xee, 0xee, 0xee, 0x12, 0x34, 0x56, 0x78, 0xff, 0xf0, 0x0f, 0xff,
];

static OF_SAMPLE: [(&str, &[u8], bool, u64); 3] = [
    ("equal", b"\x1f\x8b", true, 2),
    ("the last byte differs", b"\x1f\x8a", false, 2),
    ("the first byte differs", b"\x1e\x8b", false, 1),
];

#[test]
fn sample_value(rt: HostRuntime) {
    let sample = Counted::new(&SAMPLE);
    for &(name, window, equal, bytes) in &OF_SAMPLE {
        let mut meter = Meter::new();
        let answer = sample.value_equals(236, 0, 2, 1, window, Host::Little, &mut meter);
        let found = (answer, meter.nodes, meter.bytes);
        alike(&rt, name, found, (Ok(equal), 0, bytes));
    }
}

#[test]
fn a_value_of_no_bytes_lies_anywhere(rt: HostRuntime) {
    let cache = Counted::new(&SELF_CHILD);
    let mut meter = Meter::new();
    let answer = cache.value_equals(u64::MAX, u64::MAX, 0, 1, &[], Host::Little, &mut meter);
    alike(&rt, "no bytes", answer, Ok(true));
    alike(&rt, "nothing", (meter.nodes, meter.bytes), (0, 0));
}

/// A window of two bytes against a value at the end of [`SAMPLE`].
struct Place {
    name: &'static str,
    at: u64,
    mask_at: u64,
    window: [u8; 2],
    answer: Result<bool, ByteFault>,
    bytes: u64,
}

static PLACES: [Place; 8] = [
    Place {
        name: "the value at the end",
        at: 240,
        mask_at: 0,
        window: *b"ab",
        answer: Err(ByteFault::OutOfRange(240)),
        bytes: 0,
    },
    Place {
        name: "the value past the end",
        at: 241,
        mask_at: 0,
        window: *b"ab",
        answer: Err(ByteFault::OutOfRange(241)),
        bytes: 0,
    },
    Place {
        name: "the value at the greatest offset",
        at: u64::MAX,
        mask_at: 0,
        window: *b"ab",
        answer: Err(ByteFault::OutOfRange(u64::MAX)),
        bytes: 0,
    },
    Place {
        name: "the mask at the end",
        at: 236,
        mask_at: 240,
        window: *b"ab",
        answer: Err(ByteFault::OutOfRange(240)),
        bytes: 0,
    },
    Place {
        name: "the mask past the end",
        at: 236,
        mask_at: 241,
        window: *b"ab",
        answer: Err(ByteFault::OutOfRange(241)),
        bytes: 0,
    },
    Place {
        name: "the mask at the greatest offset",
        at: 236,
        mask_at: u64::MAX,
        window: *b"ab",
        answer: Err(ByteFault::OutOfRange(u64::MAX)),
        bytes: 0,
    },
    Place {
        name: "the last two bytes",
        at: 238,
        mask_at: 0,
        window: [0, 0],
        answer: Ok(true),
        bytes: 2,
    },
    Place {
        name: "the value is needed before the mask",
        at: 239,
        mask_at: 241,
        window: *b"ab",
        answer: Err(ByteFault::OutOfRange(239)),
        bytes: 0,
    },
];

#[test]
fn values_at_the_end(rt: HostRuntime) {
    let sample = Counted::new(&SAMPLE);
    for row in &PLACES {
        let mut meter = Meter::new();
        let answer = sample.value_equals(
            row.at,
            row.mask_at,
            2,
            1,
            &row.window,
            Host::Big,
            &mut meter,
        );
        let found = (answer, meter.nodes, meter.bytes);
        alike(&rt, row.name, found, (row.answer, 0, row.bytes));
    }
}

/// The value of [`MASKED`], and itself with its pairs and with all its bytes turned round; then the
/// same of what equals it under the mask.
static WINDOWS: [[u8; 4]; 6] = [
    [0x12, 0x34, 0x56, 0x78],
    [0x34, 0x12, 0x78, 0x56],
    [0x78, 0x56, 0x34, 0x12],
    [0x12, 0x39, 0xa6, 0x78],
    [0x39, 0x12, 0x78, 0xa6],
    [0x78, 0xa6, 0x39, 0x12],
];

/// Words and hosts for which each window is answered alike: whether it is equal, and how many of its
/// bytes were compared.
struct Words {
    name: &'static str,
    asked: &'static [(u32, Host)],
    mask_at: u64,
    equal: [bool; 6],
    bytes: [u64; 6],
}

const AS_IT_STANDS: &[(u32, Host)] = &[
    (1, Host::Little),
    (1, Host::Big),
    (2, Host::Big),
    (3, Host::Little),
    (3, Host::Big),
    (4, Host::Big),
];

/// Computed by Python's `struct`, which reads value and mask as big-endian numbers and the window in
/// the host's order.
static WORDS: [Words; 6] = [
    Words {
        name: "as it stands, no mask",
        asked: AS_IT_STANDS,
        mask_at: 0,
        equal: [true, false, false, false, false, false],
        bytes: [4, 1, 1, 2, 1, 1],
    },
    Words {
        name: "as it stands, masked",
        asked: AS_IT_STANDS,
        mask_at: 8,
        equal: [true, false, false, true, false, false],
        bytes: [4, 1, 1, 4, 1, 1],
    },
    Words {
        name: "pairs turned round, no mask",
        asked: &[(2, Host::Little)],
        mask_at: 0,
        equal: [false, true, false, false, false, false],
        bytes: [1, 4, 1, 1, 1, 1],
    },
    Words {
        name: "pairs turned round, masked",
        asked: &[(2, Host::Little)],
        mask_at: 8,
        equal: [false, true, false, false, true, false],
        bytes: [1, 4, 1, 1, 4, 1],
    },
    Words {
        name: "all turned round, no mask",
        asked: &[(4, Host::Little)],
        mask_at: 0,
        equal: [false, false, true, false, false, false],
        bytes: [1, 1, 4, 1, 1, 2],
    },
    Words {
        name: "all turned round, masked",
        asked: &[(4, Host::Little)],
        mask_at: 8,
        equal: [false, false, true, false, false, true],
        bytes: [1, 1, 4, 1, 1, 4],
    },
];

/// The windows are answered so with a word and a host.
fn are_equal(rt: &impl Abort, cache: &Counted<'_>, row: &Words, (word, host): (u32, Host)) {
    for i in 0..6 {
        let mut meter = Meter::new();
        let (mask_at, window) = (row.mask_at, &WINDOWS[i]);
        let answer = cache.value_equals(4, mask_at, 4, word, window, host, &mut meter);
        let found = (word, i, answer, meter.bytes);
        alike(
            rt,
            row.name,
            found,
            (word, i, Ok(row.equal[i]), row.bytes[i]),
        );
    }
}

#[test]
fn words_and_masks(rt: HostRuntime) {
    let cache = Counted::new(&MASKED);
    for row in &WORDS {
        for asked in row.asked {
            are_equal(&rt, &cache, row, *asked);
        }
    }
}

/// A word, a window of six bytes, and whether it equals the value of six bytes.
static UNDIVIDED: [(u32, &[u8], bool); 3] = [
    (2, &[0x34, 0x12, 0x78, 0x56, 0xf0, 0xff], true),
    (4, &[0x12, 0x34, 0x56, 0x78, 0xff, 0xf0], true),
    (4, &[0x78, 0x56, 0x34, 0x12, 0xff, 0xf0], false),
];

#[test]
fn words_that_do_not_divide(rt: HostRuntime) {
    let cache = Counted::new(&MASKED);
    for &(word, window, equal) in &UNDIVIDED {
        let mut meter = Meter::new();
        let answer = cache.value_equals(4, 0, 6, word, window, Host::Little, &mut meter);
        alike(&rt, "a window", (window, answer), (window, Ok(equal)));
    }
}
