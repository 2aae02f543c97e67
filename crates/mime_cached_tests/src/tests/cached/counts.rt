//! What whole lookups count: each record that is visited, and each byte that is read or compared.
//!
//! The numbers are counted by hand along the bytes of the caches: a record is a node, a text that is read its bytes and
//! the zero, one that is compared those up to and including the first that differs.

use super::{look_up_over, spent, with_numbers};
use crate::tests::checked::alike;
use mime_base::Host;
use mime_lookup::{Cause, Order};
use mime_samples::caches::{PLAIN_LAYOUT, SAMPLE_BYTES};
use mime_view::CacheFault;
use std::alloc::Global;
use std::process::Abort;

/// A lookup in a cache, of which some numbers are changed, why it stops, and the nodes and bytes that it counts.
struct Row {
    name: &'static str,
    of: &'static [u8],
    numbers: &'static [(usize, u32)],
    file: &'static [u8],
    content: Option<&'static [u8]>,
    stop: Option<Cause>,
    counts: (u64, u64),
}

/// What a number of that size stops it for.
const OUTSIDE: Option<Cause> = Some(Cause::Cache(CacheFault::OutOfRange(4_294_967_295)));

static ROWS: [Row; 7] = [
    Row {
        name: "a literal",
        of: &SAMPLE_BYTES,
        numbers: &[],
        file: b"mk",
        content: None,
        stop: None,
        counts: (11, 13),
    },
    Row {
        name: "an ending, with capitals",
        of: &SAMPLE_BYTES,
        numbers: &[],
        file: b"A.GZ",
        content: None,
        stop: None,
        counts: (24, 9),
    },
    Row {
        name: "a content",
        of: &SAMPLE_BYTES,
        numbers: &[],
        file: b"x",
        content: Some(&[0x1f, 0x8b, 8]),
        stop: None,
        counts: (13, 10),
    },
    Row {
        name: "a rule of the glob list, and one of less rank",
        of: &PLAIN_LAYOUT,
        numbers: &[],
        file: b"mk",
        content: None,
        stop: None,
        counts: (8, 17),
    },
    Row {
        name: "a rule of the glob list that begins otherwise",
        of: &PLAIN_LAYOUT,
        numbers: &[(108, 1)],
        file: b"x",
        content: None,
        stop: None,
        counts: (5, 4),
    },
    Row {
        name: "a literal that lies outside",
        of: &SAMPLE_BYTES,
        numbers: &[(76, u32::MAX)],
        file: b"mk",
        content: None,
        stop: OUTSIDE,
        counts: (3, 0),
    },
    Row {
        name: "an alias that lies outside",
        of: &SAMPLE_BYTES,
        numbers: &[(44, u32::MAX)],
        file: b"mk",
        content: None,
        stop: OUTSIDE,
        counts: (11, 10),
    },
];

/// Why a row's lookup stops, if it does, and its nodes and bytes.
fn counted(rt: &impl Abort, alloc: Global, row: &Row) -> (Option<Cause>, (u64, u64)) {
    let cache = with_numbers(rt, alloc, row.of, row.numbers);
    let (mut content, host) = (row.content, Host::Little);
    let order = Order::GlobsFirst;
    let found = look_up_over(alloc, &cache, row.file, &mut content, host, order);
    let (_, meter) = spent(&found);
    let stop = found.err().map(|stopped| stopped.cause);
    (stop, (meter.nodes, meter.bytes))
}

#[test]
fn rows(rt: HostRuntime) {
    for row in &ROWS {
        let found = counted(&rt, rt.alloc(), row);
        alike(&rt, row.name, found, (row.stop, row.counts));
    }
}
