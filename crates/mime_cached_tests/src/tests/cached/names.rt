//! Lookups over the sample's bytes, over its rules in the plain layout, and over bytes that are no cache.

use super::{Row, are_answered, look_up_over};
use crate::tests::checked::alike;
use mime_base::{Host, Meter};
use mime_lookup::{Cause, Order, Stopped};
use mime_samples::caches::{PLAIN_LAYOUT, SAMPLE_BYTES};
use mime_view::CacheFault;
use std::alloc::Global;
use std::process::Abort;

const GZIP: Option<&[u8]> = Some(&[0x1f, 0x8b, 8]);

static ROWS: [Row<'static>; 9] = [
    Row {
        name: "sample-lookups, an ending",
        cache: &SAMPLE_BYTES,
        file: b"A.GZ",
        content: None,
        order: Order::GlobsFirst,
        outcome: Ok((b"t/g", 0)),
    },
    Row {
        name: "sample-lookups, a literal",
        cache: &SAMPLE_BYTES,
        file: b"mk",
        content: None,
        order: Order::GlobsFirst,
        outcome: Ok((b"t/m", 0)),
    },
    Row {
        name: "sample-lookups, by its content",
        cache: &SAMPLE_BYTES,
        file: b"x",
        content: GZIP,
        order: Order::GlobsFirst,
        outcome: Ok((b"t/g", 3)),
    },
    Row {
        name: "name-too-long, 4,096 bytes",
        cache: &SAMPLE_BYTES,
        file: &[b'a'; 4096],
        content: None,
        order: Order::GlobsFirst,
        outcome: Ok((b"application/octet-stream", 0)),
    },
    Row {
        name: "plain layout, an ending",
        cache: &PLAIN_LAYOUT,
        file: b"A.GZ",
        content: None,
        order: Order::GlobsFirst,
        outcome: Ok((b"t/g", 0)),
    },
    Row {
        name: "plain layout, a literal",
        cache: &PLAIN_LAYOUT,
        file: b"mk",
        content: None,
        order: Order::GlobsFirst,
        outcome: Ok((b"t/m", 0)),
    },
    Row {
        name: "plain layout, by its content",
        cache: &PLAIN_LAYOUT,
        file: b"x",
        content: GZIP,
        order: Order::GlobsFirst,
        outcome: Ok((b"t/g", 3)),
    },
    Row {
        name: "39 bytes",
        cache: &[0; 39],
        file: b"a",
        content: None,
        order: Order::GlobsFirst,
        outcome: Err((Cause::Cache(CacheFault::Truncated), 0)),
    },
    Row {
        name: "version 0.0",
        cache: &[0; 40],
        file: b"a",
        content: None,
        order: Order::GlobsFirst,
        outcome: Err((Cause::Cache(CacheFault::Version(0, 0)), 0)),
    },
];

#[test]
fn rows(rt: HostRuntime) {
    are_answered(&rt, rt.alloc(), &ROWS);
}

/// A name of 4,097 bytes is refused, and its content left unread.
fn is_refused(rt: &impl Abort, alloc: Global, order: Order) {
    let mut content = Some(&b"hi\n"[..]);
    let (name, host) = (&[b'a'; 4097], Host::Little);
    let refused = look_up_over(alloc, &[], name, &mut content, host, order).err();
    let too_long = Stopped {
        cause: Cause::NameTooLong,
        read: 0,
        meter: Meter::new(),
    };
    alike(rt, "refused", (order, refused), (order, Some(too_long)));
    alike(rt, "unread", (order, content), (order, Some(&b"hi\n"[..])));
}

#[test]
fn name_too_long(rt: HostRuntime) {
    for order in [Order::GlobsFirst, Order::MagicFirst] {
        is_refused(&rt, rt.alloc(), order);
    }
}
