//! Values of a cache at the offsets of a range, and what is counted on the way.

use crate::tests::checked::alike;
use mime_base::{ByteFault, Counted, Host, Meter, NotedContent, StatedValue};
use mime_samples::caches::SAMPLE;

/// A range of a content against the value 1F 8B of [`SAMPLE`], and whether the first bytes alone rule it out.
struct Range {
    name: &'static str,
    content: &'static [u8],
    start: u32,
    range: u32,
    equal: bool,
    bytes: u64,
    at_once: bool,
}

static RANGES: [Range; 13] = [
    Range {
        name: "the first offset",
        content: b"\x1f\x8b",
        start: 0,
        range: 1,
        equal: true,
        bytes: 2,
        at_once: false,
    },
    Range {
        name: "offsets that are skipped",
        content: b"ab\x1f\x8b",
        start: 0,
        range: 3,
        equal: true,
        bytes: 4,
        at_once: false,
    },
    Range {
        name: "a first byte alone",
        content: b"\x1fb\x1f\x8b",
        start: 0,
        range: 3,
        equal: true,
        bytes: 5,
        at_once: false,
    },
    Range {
        name: "a first byte at the end",
        content: b"ab\x1f",
        start: 0,
        range: 9,
        equal: false,
        bytes: 2,
        at_once: true,
    },
    Range {
        name: "past the range",
        content: b"ab\x1f\x8b",
        start: 0,
        range: 2,
        equal: false,
        bytes: 2,
        at_once: true,
    },
    Range {
        name: "before the range",
        content: b"\x1f\x8bab",
        start: 1,
        range: 9,
        equal: false,
        bytes: 2,
        at_once: false,
    },
    Range {
        name: "the last offset",
        content: b"a\x1f\x8b",
        start: 1,
        range: 9,
        equal: true,
        bytes: 2,
        at_once: false,
    },
    Range {
        name: "an empty range",
        content: b"\x1f\x8b",
        start: 0,
        range: 0,
        equal: false,
        bytes: 0,
        at_once: false,
    },
    Range {
        name: "a content that is too short",
        content: b"\x1f",
        start: 0,
        range: 5,
        equal: false,
        bytes: 0,
        at_once: false,
    },
    Range {
        name: "a start that is too great",
        content: b"\x1f\x8b",
        start: 1,
        range: u32::MAX,
        equal: false,
        bytes: 0,
        at_once: false,
    },
    Range {
        name: "one offset",
        content: b"ab",
        start: 0,
        range: 1,
        equal: false,
        bytes: 1,
        at_once: true,
    },
    Range {
        name: "as many offsets as are noted",
        content: &[0; 400],
        start: 0,
        range: 288,
        equal: false,
        bytes: 288,
        at_once: true,
    },
    Range {
        name: "one offset more",
        content: &[0; 400],
        start: 0,
        range: 289,
        equal: false,
        bytes: 289,
        at_once: false,
    },
];

fn table() -> &'static [Range] {
    &RANGES
}

const GZIP: StatedValue = StatedValue {
    at: 236,
    mask_at: 0,
    size: 2,
    word: 1,
};

/// One byte of it is the last of [`SAMPLE`].
const OUTSIDE: StatedValue = StatedValue {
    at: 239,
    mask_at: 0,
    size: 2,
    word: 1,
};

#[test]
fn values_in_ranges(rt: HostRuntime) {
    let sample = Counted::new(&SAMPLE);
    for row in table() {
        let (host, mut meter) = (Host::Little, Meter::new());
        let (start, range) = (row.start, row.range);
        let answer = sample.value_in_range(GZIP, start, range, row.content, host, &mut meter);
        let found = (answer, meter.nodes, meter.bytes);
        alike(&rt, row.name, found, (Ok(row.equal), 0, row.bytes));
    }
}

#[test]
fn ranges_that_differ_at_once(rt: HostRuntime) {
    let sample = Counted::new(&SAMPLE);
    for row in table() {
        let (content, mut meter) = (NotedContent::new(row.content), Meter::new());
        let differs = sample.differs_at_once(GZIP, row.start, row.range, &content, &mut meter);
        let found = (differs, meter.nodes, meter.bytes);
        let bytes = if row.at_once { row.bytes } else { 0 };
        alike(&rt, row.name, found, (row.at_once, 0, bytes));
    }
}

#[test]
fn a_value_is_needed_by_a_window(rt: HostRuntime) {
    let sample = Counted::new(&SAMPLE);
    let mut meter = Meter::new();
    let answer = sample.value_in_range(OUTSIDE, 0, 1, b"ab", Host::Little, &mut meter);
    alike(&rt, "needed", answer, Err(ByteFault::OutOfRange(239)));
    let unneeded = sample.value_in_range(OUTSIDE, 0, 1, b"a", Host::Little, &mut meter);
    alike(&rt, "not needed", unneeded, Ok(false));
    alike(&rt, "nothing", (meter.nodes, meter.bytes), (0, 0));
}
