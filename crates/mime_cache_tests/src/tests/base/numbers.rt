//! The numbers of caches, by the tables of their records.

ghost use Rattle.std.specs.Prelude.{◌≤◌};

use crate::tests::checked::alike;
use mime_base::{ByteFault, Counted, Meter};
use mime_samples::caches::{SAMPLE, SELF_CHILD};
use std::process::Abort;

/// A record of [`SAMPLE`] and its numbers.
struct Record<const N: usize> {
    name: &'static str,
    at: u64,
    numbers: [u32; N],
}

static COUNTS: [Record<1>; 8] = [
    Record {
        name: "aliases",
        at: 40,
        numbers: [1],
    },
    Record {
        name: "types with parents",
        at: 52,
        numbers: [1],
    },
    Record {
        name: "parents of t/g",
        at: 64,
        numbers: [1],
    },
    Record {
        name: "literals",
        at: 72,
        numbers: [1],
    },
    Record {
        name: "globs",
        at: 144,
        numbers: [0],
    },
    Record {
        name: "namespaces",
        at: 208,
        numbers: [0],
    },
    Record {
        name: "icons",
        at: 212,
        numbers: [0],
    },
    Record {
        name: "generic icons",
        at: 216,
        numbers: [0],
    },
];

static PAIRS: [Record<2>; 3] = [
    Record {
        name: "t/h is t/g",
        at: 44,
        numbers: [228, 220],
    },
    Record {
        name: "t/g and its parents",
        at: 56,
        numbers: [220, 64],
    },
    Record {
        name: "the tree's head",
        at: 88,
        numbers: [1, 96],
    },
];

static TRIPLES: [Record<3>; 6] = [
    Record {
        name: "mk",
        at: 76,
        numbers: [232, 224, 50],
    },
    Record {
        name: "the node z",
        at: 96,
        numbers: [122, 1, 108],
    },
    Record {
        name: "the node g",
        at: 108,
        numbers: [103, 1, 120],
    },
    Record {
        name: "the node of the point",
        at: 120,
        numbers: [46, 1, 132],
    },
    Record {
        name: "the leaf",
        at: 132,
        numbers: [0, 220, 50],
    },
    Record {
        name: "the head of the magic list",
        at: 148,
        numbers: [1, 3, 160],
    },
];

/// Records have these numbers, of which one is read in each.
fn are_read<const N: usize>(
    rt: &impl Abort,
    cache: &Counted<'_>,
    meter: &mut Meter,
    rows: &[Record<N>],
)
    requires { N ≤ 10 }
{
    for row in rows {
        let numbers = cache.cards::<N>(row.at, meter);
        alike(rt, row.name, numbers, Ok(row.numbers));
    }
}

static HEADER: [Record<10>; 1] = [Record {
    name: "header",
    at: 0,
    numbers: [65538, 40, 52, 72, 88, 144, 148, 208, 212, 216],
}];

static SECTION: [Record<4>; 1] = [Record {
    name: "section",
    at: 160,
    numbers: [40, 220, 1, 176],
}];

static LINE: [Record<8>; 1] = [Record {
    name: "line",
    at: 176,
    numbers: [0, 1, 1, 2, 236, 0, 0, 0],
}];

#[test]
fn sample_records(rt: HostRuntime) {
    let sample = Counted::new(&SAMPLE);
    let mut meter = Meter::new();
    alike(&rt, "length", sample.length(), 240);
    are_read(&rt, &sample, &mut meter, &HEADER);
    are_read(&rt, &sample, &mut meter, &COUNTS);
    are_read(&rt, &sample, &mut meter, &PAIRS);
    are_read(&rt, &sample, &mut meter, &TRIPLES);
    are_read(&rt, &sample, &mut meter, &SECTION);
    are_read(&rt, &sample, &mut meter, &LINE);
    alike(&rt, "nodes", (meter.nodes, meter.bytes), (20, 0));
}

static SELF_HEADER: [Record<10>; 1] = [Record {
    name: "header",
    at: 0,
    numbers: [65538, 40, 40, 40, 40, 40, 48, 40, 40, 40],
}];

static SELF_MAGIC: [Record<3>; 1] = [Record {
    name: "the head of the magic list",
    at: 48,
    numbers: [1, 128, 60],
}];

static SELF_SECTION: [Record<4>; 1] = [Record {
    name: "section",
    at: 60,
    numbers: [50, 108, 1, 76],
}];

static SELF_LINE: [Record<8>; 1] = [Record {
    name: "line",
    at: 76,
    numbers: [0, 1, 1, 0, 108, 0, 1, 76],
}];

/// The text at an offset is this one.
fn is_text(rt: &impl Abort, cache: &Counted<'_>, meter: &mut Meter, at: u64, text: &[u8]) {
    alike(rt, "text", cache.text_at(at, meter), Ok(text));
}

#[test]
fn self_child_records(rt: HostRuntime) {
    let cache = Counted::new(&SELF_CHILD);
    let mut meter = Meter::new();
    are_read(&rt, &cache, &mut meter, &SELF_HEADER);
    are_read(&rt, &cache, &mut meter, &SELF_MAGIC);
    are_read(&rt, &cache, &mut meter, &SELF_SECTION);
    are_read(&rt, &cache, &mut meter, &SELF_LINE);
    is_text(&rt, &cache, &mut meter, 108, b"a/b");
    alike(&rt, "nodes and bytes", (meter.nodes, meter.bytes), (4, 4));
}

static LAST: [Record<1>; 1] = [Record {
    name: "the last number",
    at: 236,
    numbers: [0x1f8b_0000],
}];

static NONE: [Record<0>; 1] = [Record {
    name: "no number",
    at: 240,
    numbers: [],
}];

static PAST: [u64; 5] = [237, 240, 241, u64::MAX - 3, u64::MAX];

#[test]
fn numbers_at_the_end(rt: HostRuntime) {
    let sample = Counted::new(&SAMPLE);
    let mut meter = Meter::new();
    are_read(&rt, &sample, &mut meter, &LAST);
    are_read(&rt, &sample, &mut meter, &NONE);
    for &at in &PAST {
        let fault = ByteFault::OutOfRange(at);
        let numbers = sample.cards::<1>(at, &mut meter);
        alike(&rt, "past the end", numbers, Err(fault));
    }
    alike(&rt, "nodes", (meter.nodes, meter.bytes), (7, 0));
}

static ALIASES: [Record<1>; 1] = [Record {
    name: "aliases",
    at: 40,
    numbers: [1],
}];

#[test]
fn sums_stop_at_the_greatest_number(rt: HostRuntime) {
    let sample = Counted::new(&SAMPLE);
    let mut meter = Meter {
        nodes: u64::MAX,
        bytes: u64::MAX - 2,
    };
    are_read(&rt, &sample, &mut meter, &ALIASES);
    is_text(&rt, &sample, &mut meter, 220, b"t/g");
    let greatest = (u64::MAX, u64::MAX);
    alike(&rt, "the greatest", (meter.nodes, meter.bytes), greatest);
}
