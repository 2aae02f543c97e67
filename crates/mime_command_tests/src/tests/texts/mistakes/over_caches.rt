//! What is wrong with words of the commands over a cache.

use crate::tests::texts::{Row, SAID, are_answered};
use std::test::Fail;

const TWO_SOURCES: &str = "\
error: give -c CACHE or -d DIRS, not both

Usage: mimelook <COMMAND>

For more information, try '--help'.
";

const NO_CACHE: &str = "\
error: a value is required for '--cache <CACHE>' but none was supplied

For more information, try '--help'.
";

const IS_A_ALONE: &str = "\
error: the following required arguments were not provided:
  <TYPE>
  <BASE>

Usage: mimelook isa [-c CACHE | -d DIRS] TYPE BASE

For more information, try '--help'.
";

const NO_BASE: &str = "\
error: the following required arguments were not provided:
  <BASE>

Usage: mimelook isa [-c CACHE | -d DIRS] TYPE BASE

For more information, try '--help'.
";

const CACHE_TWICE: &str = "\
error: the argument '--cache <CACHE>' cannot be used multiple times

Usage: mimelook isa [-c CACHE | -d DIRS] TYPE BASE

For more information, try '--help'.
";

const NO_TYPE: &str = "\
error: the following required arguments were not provided:
  <TYPE>

Usage: mimelook icon [-c CACHE | -d DIRS] TYPE

For more information, try '--help'.
";

const SECOND_TYPE: &str = "\
error: unexpected argument 't/m' found

Usage: mimelook icon [-c CACHE | -d DIRS] TYPE

For more information, try '--help'.
";

const TYPE_ALONE: &str = "\
error: give a FILE, --files0-from LIST or --stdin NAME

Usage: mimelook type [-c CACHE | -d DIRS] [--name-only | --content-only]
                     [--magic-first | --all-globs] [--inode] [--cost] [-0] [-b]
                     [--escape] {FILE... | --files0-from LIST | --stdin NAME}

For more information, try '--help'.
";

const NO_FILE_OF_TYPE: &str = "\
error: give a FILE, --files0-from LIST or --stdin NAME

Usage: mimelook type [-c CACHE | -d DIRS] [--name-only | --content-only]
                     [--magic-first | --all-globs] [--inode] [--cost] [-0] [-b]
                     [--escape] {FILE... | --files0-from LIST | --stdin NAME}

For more information, try '--help'.
";

const COST_TWICE: &str = "\
error: the argument '--cost' cannot be used multiple times

Usage: mimelook type [-c CACHE | -d DIRS] [--name-only | --content-only]
                     [--magic-first | --all-globs] [--inode] [--cost] [-0] [-b]
                     [--escape] {FILE... | --files0-from LIST | --stdin NAME}

For more information, try '--help'.
";

const ESCAPED_AND_NULL: &str = "\
error: give --escape or -0, not both

Usage: mimelook <COMMAND>

For more information, try '--help'.
";

const COST_OF_BRIEF: &str = "\
error: give --cost without -0 and -b

Usage: mimelook <COMMAND>

For more information, try '--help'.
";

const CONTENT_AND_ORDER: &str = "\
error: give --content-only without --name-only, --magic-first and --all-globs

Usage: mimelook <COMMAND>

For more information, try '--help'.
";

const TWO_ORDERS: &str = "\
error: give --magic-first or --all-globs, not both

Usage: mimelook <COMMAND>

For more information, try '--help'.
";

static MISTAKES: [Row<'static>; 17] = [
    Row {
        name: "escapes and zero bytes",
        words: &["type", "--escape", "--null", "-c", "c", "x"],
        err: ESCAPED_AND_NULL,
        ..SAID
    },
    Row {
        name: "cost and zero bytes",
        words: &["type", "--cost", "-0", "-c", "c", "x"],
        err: COST_OF_BRIEF,
        ..SAID
    },
    Row {
        name: "cost and TYPE alone",
        words: &["type", "-b", "--cost", "-c", "c", "x"],
        err: COST_OF_BRIEF,
        ..SAID
    },
    Row {
        name: "contents alone and names alone",
        words: &["type", "--content-only", "--name-only", "-c", "c", "x"],
        err: CONTENT_AND_ORDER,
        ..SAID
    },
    Row {
        name: "contents alone and magic first",
        words: &["plain", "--magic-first", "--content-only", "x"],
        err: CONTENT_AND_ORDER,
        ..SAID
    },
    Row {
        name: "contents alone and all globs",
        words: &["type", "--all-globs", "--content-only", "-c", "c", "x"],
        err: CONTENT_AND_ORDER,
        ..SAID
    },
    Row {
        name: "two orders",
        words: &["plain", "--all-globs", "--magic-first", "x"],
        err: TWO_ORDERS,
        ..SAID
    },
    Row {
        name: "both -c and -d",
        words: &["list", "-d", "/s", "--cache", "c"],
        err: TWO_SOURCES,
        ..SAID
    },
    Row {
        name: "-c without CACHE",
        words: &["list", "-c"],
        err: NO_CACHE,
        ..SAID
    },
    Row {
        name: "isa alone",
        words: &["isa"],
        err: IS_A_ALONE,
        ..SAID
    },
    Row {
        name: "no BASE",
        words: &["isa", "-c", "c", "t/h"],
        err: NO_BASE,
        ..SAID
    },
    Row {
        name: "-c twice",
        words: &["isa", "-c", "c", "-c", "c", "t/h", "t/m"],
        err: CACHE_TWICE,
        ..SAID
    },
    Row {
        name: "no TYPE",
        words: &["icon", "-c", "c"],
        err: NO_TYPE,
        ..SAID
    },
    Row {
        name: "a second type",
        words: &["icon", "-c", "c", "t/h", "t/m"],
        err: SECOND_TYPE,
        ..SAID
    },
    Row {
        name: "type alone",
        words: &["type"],
        err: TYPE_ALONE,
        ..SAID
    },
    Row {
        name: "no FILE",
        words: &["type", "--cost", "-c", "c"],
        err: NO_FILE_OF_TYPE,
        ..SAID
    },
    Row {
        name: "--cost twice",
        words: &["type", "-c", "c", "--cost", "--cost", "x"],
        err: COST_TWICE,
        ..SAID
    },
];

#[test]
fn shows_mistakes_whole(rt: HostRuntime) -> Result<(), Fail> {
    are_answered(&rt, rt.alloc(), &MISTAKES)
}
