//! How answers are printed: with zero bytes, without the FILE, with escapes.

use super::{ROW, Row, are_answered};
use std::test::Fail;

static PRINTED: [Row; 9] = [
    Row {
        name: "zero bytes",
        words: &["type", "-c", "/c", "-0", "/x", "/mk"],
        out: "/x\0t/g\0/mk\0t/m\0",
        ..ROW
    },
    Row {
        name: "the type alone",
        words: &["type", "-c", "/c", "--brief", "/x", "/mk"],
        out: "t/g\nt/m\n",
        ..ROW
    },
    Row {
        name: "the type alone, with zero bytes",
        words: &["type", "-b0", "-c", "/c", "/x", "/mk"],
        out: "t/g\0t/m\0",
        ..ROW
    },
    Row {
        name: "messages are lines",
        words: &["type", "-c", "/c", "--null", "/missing", "/mk"],
        status: 1,
        out: "/mk\0t/m\0",
        err: "mimelook: /missing: cannot open\n",
        ..ROW
    },
    Row {
        name: "a FILE that is escaped",
        words: &[
            "type",
            "-c",
            "/c",
            "--name-only",
            "--escape",
            "a\n\\\t\u{7f}\u{1f}b ~\u{e9}",
        ],
        out: "a\\012\\134\\011\\177\\037b ~\u{e9}: application/octet-stream\n",
        ..ROW
    },
    Row {
        name: "its name is looked up as it is",
        words: &[
            "type",
            "-c",
            "/c",
            "--name-only",
            "--escape",
            "d\n/mk",
            "\n.gz",
        ],
        out: "d\\012/mk: t/m\n\\012.gz: t/g\n",
        ..ROW
    },
    Row {
        name: "a FILE that is escaped in a message",
        words: &["type", "-c", "/c", "--escape", "/\r\n", "/mk"],
        status: 1,
        out: "/mk: t/m\n",
        err: "mimelook: /\\015\\012: cannot open\n",
        ..ROW
    },
    Row {
        name: "without it",
        words: &["type", "-c", "/c", "--name-only", "a\nb"],
        out: "a\nb: application/octet-stream\n",
        ..ROW
    },
    Row {
        name: "the type alone, escaped",
        words: &["type", "-c", "/c", "--escape", "-b", "/x", "/\n"],
        status: 1,
        out: "t/g\n",
        err: "mimelook: /\\012: cannot open\n",
        ..ROW
    },
];

#[test]
fn prints_as_it_is_asked(rt: HostRuntime) -> Result<(), Fail> {
    are_answered(&rt, rt.alloc(), &PRINTED)
}
