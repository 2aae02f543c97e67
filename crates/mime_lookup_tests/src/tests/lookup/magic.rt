//! Contents of names that no rule matches: lines of magic at their limits.

use super::{Row, are_answered};
use mime_base::Host;
use mime_lookup::Order;
use mime_samples::texts::{EMPTY, Texts};

const EMPTY_AT_0: Texts<'static> = Texts {
    magic: b"MIME-Magic\0\n[50:t/a]\n>0=\0\0\n",
    ..EMPTY
};

const EMPTY_AT_1: Texts<'static> = Texts {
    magic: b"MIME-Magic\0\n[50:t/a]\n>1=\0\0\n",
    ..EMPTY
};

const NO_OFFSET: Texts<'static> = Texts {
    magic: b"MIME-Magic\0\n[50:t/a]\n>0=\0\x01x+0\n",
    ..EMPTY
};

const MASKED: Texts<'static> = Texts {
    magic: b"MIME-Magic\0\n[50:t/a]\n>4=\0\x02ab&\xdf\xdf+3\n",
    ..EMPTY
};

const WORDS: Texts<'static> = Texts {
    magic: b"MIME-Magic\0\n[50:t/a]\n>0=\0\x02\x01\x02~2\n",
    ..EMPTY
};

const FAR: Texts<'static> = Texts {
    magic: b"MIME-Magic\0\n[50:t/a]\n>200=\0\x02ab\n",
    ..EMPTY
};

static ROWS: [Row; 11] = [
    Row {
        name: "an empty value, no bytes",
        dirs: &[EMPTY_AT_0],
        file: b"q",
        content: Some(b""),
        host: Host::Little,
        order: Order::GlobsFirst,
        kind: b"t/a",
        read: 0,
    },
    Row {
        name: "an empty value where the content ends",
        dirs: &[EMPTY_AT_1],
        file: b"q",
        content: Some(b"x"),
        host: Host::Little,
        order: Order::GlobsFirst,
        kind: b"t/a",
        read: 1,
    },
    Row {
        name: "an empty value past the content",
        dirs: &[EMPTY_AT_1],
        file: b"q",
        content: Some(b""),
        host: Host::Little,
        order: Order::GlobsFirst,
        kind: b"application/x-zerosize",
        read: 0,
    },
    Row {
        name: "a range of no offset",
        dirs: &[NO_OFFSET],
        file: b"q",
        content: Some(b"x"),
        host: Host::Little,
        order: Order::GlobsFirst,
        kind: b"text/plain",
        read: 1,
    },
    Row {
        name: "masked-range, at the last offset",
        dirs: &[MASKED],
        file: b"q",
        content: Some(b"....XXAB"),
        host: Host::Little,
        order: Order::GlobsFirst,
        kind: b"t/a",
        read: 8,
    },
    Row {
        name: "masked-range, one further",
        dirs: &[MASKED],
        file: b"q",
        content: Some(b"....XXXAB"),
        host: Host::Little,
        order: Order::GlobsFirst,
        kind: b"text/plain",
        read: 9,
    },
    Row {
        name: "word-order, little and turned round",
        dirs: &[WORDS],
        file: b"q",
        content: Some(b"\x02\x01"),
        host: Host::Little,
        order: Order::GlobsFirst,
        kind: b"t/a",
        read: 2,
    },
    Row {
        name: "word-order, little and as it stands",
        dirs: &[WORDS],
        file: b"q",
        content: Some(b"\x01\x02"),
        host: Host::Little,
        order: Order::GlobsFirst,
        kind: b"application/octet-stream",
        read: 2,
    },
    Row {
        name: "word-order, big and as it stands",
        dirs: &[WORDS],
        file: b"q",
        content: Some(b"\x01\x02"),
        host: Host::Big,
        order: Order::GlobsFirst,
        kind: b"t/a",
        read: 2,
    },
    Row {
        name: "word-order, big and turned round",
        dirs: &[WORDS],
        file: b"q",
        content: Some(b"\x02\x01"),
        host: Host::Big,
        order: Order::GlobsFirst,
        kind: b"application/octet-stream",
        read: 2,
    },
    Row {
        name: "extent-prefix",
        dirs: &[FAR],
        file: b"x",
        content: Some(&[0; 1000]),
        host: Host::Little,
        order: Order::GlobsFirst,
        kind: b"application/octet-stream",
        read: 203,
    },
];

#[test]
fn rows(rt: HostRuntime) {
    are_answered(&rt, rt.alloc(), &ROWS)
}
