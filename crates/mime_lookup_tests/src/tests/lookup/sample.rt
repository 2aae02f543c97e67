//! Lookups over the texts of the sample, with its section at other priorities.

use super::{Row, are_answered};
use mime_base::Host;
use mime_lookup::Order;
use mime_samples::texts::{SAMPLE_TEXTS, Texts};

/// The sample with a section of the priority below which magic is never asked first.
const BELOW: Texts<'static> = Texts {
    magic: b"MIME-Magic\0\n[79:t/g]\n>0=\0\x02\x1f\x8b\n",
    ..SAMPLE_TEXTS
};

/// The sample with a section of the least priority that is asked first.
const HIGH: Texts<'static> = Texts {
    magic: b"MIME-Magic\0\n[80:t/g]\n>0=\0\x02\x1f\x8b\n",
    ..SAMPLE_TEXTS
};

static ROWS: [Row; 13] = [
    Row {
        name: "sample-lookups, an ending",
        dirs: &[SAMPLE_TEXTS],
        file: b"A.GZ",
        content: None,
        host: Host::Little,
        order: Order::GlobsFirst,
        kind: b"t/g",
        read: 0,
    },
    Row {
        name: "sample-lookups, a literal",
        dirs: &[SAMPLE_TEXTS],
        file: b"mk",
        content: None,
        host: Host::Little,
        order: Order::GlobsFirst,
        kind: b"t/m",
        read: 0,
    },
    Row {
        name: "sample-lookups, by its content",
        dirs: &[SAMPLE_TEXTS],
        file: b"x",
        content: Some(&[0x1f, 0x8b, 8]),
        host: Host::Little,
        order: Order::GlobsFirst,
        kind: b"t/g",
        read: 3,
    },
    Row {
        name: "priority 40, globs first",
        dirs: &[SAMPLE_TEXTS],
        file: b"mk",
        content: Some(&[0x1f, 0x8b, 8]),
        host: Host::Little,
        order: Order::GlobsFirst,
        kind: b"t/m",
        read: 0,
    },
    Row {
        name: "priority 40, magic first",
        dirs: &[SAMPLE_TEXTS],
        file: b"mk",
        content: Some(&[0x1f, 0x8b, 8]),
        host: Host::Little,
        order: Order::MagicFirst,
        kind: b"t/m",
        read: 3,
    },
    Row {
        name: "priority 79, globs first",
        dirs: &[BELOW],
        file: b"mk",
        content: Some(&[0x1f, 0x8b, 8]),
        host: Host::Little,
        order: Order::GlobsFirst,
        kind: b"t/m",
        read: 0,
    },
    Row {
        name: "priority 79, magic first",
        dirs: &[BELOW],
        file: b"mk",
        content: Some(&[0x1f, 0x8b, 8]),
        host: Host::Little,
        order: Order::MagicFirst,
        kind: b"t/m",
        read: 3,
    },
    Row {
        name: "priority 80, globs first",
        dirs: &[HIGH],
        file: b"mk",
        content: Some(&[0x1f, 0x8b, 8]),
        host: Host::Little,
        order: Order::GlobsFirst,
        kind: b"t/m",
        read: 0,
    },
    Row {
        name: "priority 80, magic first",
        dirs: &[HIGH],
        file: b"mk",
        content: Some(&[0x1f, 0x8b, 8]),
        host: Host::Little,
        order: Order::MagicFirst,
        kind: b"t/g",
        read: 3,
    },
    Row {
        name: "priority 80, no content, magic first",
        dirs: &[HIGH],
        file: b"mk",
        content: None,
        host: Host::Little,
        order: Order::MagicFirst,
        kind: b"t/m",
        read: 0,
    },
    Row {
        name: "content only, by its content",
        dirs: &[SAMPLE_TEXTS],
        file: b"mk",
        content: Some(&[0x1f, 0x8b, 8]),
        host: Host::Little,
        order: Order::ContentOnly,
        kind: b"t/g",
        read: 3,
    },
    Row {
        name: "content only, text",
        dirs: &[SAMPLE_TEXTS],
        file: b"mk",
        content: Some(b"hi\n"),
        host: Host::Little,
        order: Order::ContentOnly,
        kind: b"text/plain",
        read: 3,
    },
    Row {
        name: "content only, no content",
        dirs: &[SAMPLE_TEXTS],
        file: b"mk",
        content: None,
        host: Host::Little,
        order: Order::ContentOnly,
        kind: b"application/octet-stream",
        read: 0,
    },
];

#[test]
fn rows(rt: HostRuntime) {
    let alloc = rt.alloc();
    are_answered(&rt, alloc, &ROWS)
}
