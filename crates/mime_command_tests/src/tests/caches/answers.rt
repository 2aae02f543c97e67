//! What is printed from a cache: rules, `yes` or `no`, icons and types.

use super::{Cache, ROW, Row, WHOLE, are_answered};
use std::test::Fail;

static ANSWERS: [Row; 9] = [
    Row {
        name: "the rules of both lists",
        words: &["list", "-c", "/c"],
        out: "50:t/m:mk\n50:t/g:*.gz\n",
        ..ROW
    },
    Row {
        name: "a flag at the literal rule",
        words: &["list", "-c", "/c"],
        cache: Cache {
            at: 86,
            byte: 1,
            ..WHOLE
        },
        out: "50:t/m:mk:cs\n50:t/g:*.gz\n",
        ..ROW
    },
    Row {
        name: "a type is a subclass by its alias",
        words: &["isa", "-c", "/c", "t/h", "t/m"],
        out: "yes\n",
        ..ROW
    },
    Row {
        name: "a base is no subclass",
        words: &["isa", "-c", "/c", "t/m", "t/g"],
        status: 1,
        out: "no\n",
        ..ROW
    },
    Row {
        name: "icons that the cache doesn't name",
        words: &["icon", "-c", "/c", "t/h"],
        out: "icon: t-g\ngeneric: t-x-generic\n",
        ..ROW
    },
    Row {
        name: "types by names alone",
        words: &["type", "-c", "/c", "--name-only", "d/A.GZ", "x", "mk"],
        out: "d/A.GZ: t/g\nx: application/octet-stream\nmk: t/m\n",
        ..ROW
    },
    Row {
        name: "types by contents",
        words: &["type", "-c", "/c", "/x", "/mk"],
        out: "/x: t/g\n/mk: t/m\n",
        ..ROW
    },
    Row {
        name: "types by contents alone",
        words: &["type", "-c", "/c", "--content-only", "/x", "/mk"],
        out: "/x: t/g\n/mk: t/g\n",
        ..ROW
    },
    Row {
        name: "content of high priority comes first",
        words: &["type", "-c", "/c", "--magic-first", "/x", "/mk"],
        cache: Cache {
            at: 163,
            byte: 80,
            ..WHOLE
        },
        out: "/x: t/g\n/mk: t/g\n",
        ..ROW
    },
];

#[test]
fn prints_what_is_asked(rt: HostRuntime) -> Result<(), Fail> {
    are_answered(&rt, rt.alloc(), &ANSWERS)
}
