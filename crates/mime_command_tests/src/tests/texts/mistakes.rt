//! What is wrong with words without a command, and with those of `build` and `plain`.

mod over_caches;

use super::{Row, SAID, are_answered};
use std::test::Fail;

const NO_COMMAND: &str = "\
error: 'mimelook' requires a subcommand but one was not provided
  [subcommands: build, plain, list, check, explain, isa, icon, type, help]

Usage: mimelook <COMMAND>

For more information, try '--help'.
";

const UNKNOWN_COMMAND: &str = "\
error: unrecognized subcommand 'sniff'

Usage: mimelook <COMMAND>

For more information, try '--help'.
";

const FILE_FOR_COMMAND: &str = "\
error: the first word is no command

  tip: 'mimelook type FILE...' prints the types of files

Usage: mimelook <COMMAND>

For more information, try '--help'.
";

const NO_OUTPUT: &str = "\
error: the following required arguments were not provided:
  --output <FILE>

Usage: mimelook build [-d DIRS] [--drop-twins] -o FILE

For more information, try '--help'.
";

const NO_FILE: &str = "\
error: give a FILE, --files0-from LIST or --stdin NAME

Usage: mimelook plain [-d DIRS] [--name-only | --content-only]
                      [--magic-first | --all-globs] [--inode] [-0] [-b]
                      [--escape] {FILE... | --files0-from LIST | --stdin NAME}

For more information, try '--help'.
";

const NO_VALUE: &str = "\
error: a value is required for '--data-dirs <DIRS>' but none was supplied

For more information, try '--help'.
";

const OPTION_TWICE: &str = "\
error: the argument '--data-dirs <DIRS>' cannot be used multiple times

Usage: mimelook plain [-d DIRS] [--name-only | --content-only]
                      [--magic-first | --all-globs] [--inode] [-0] [-b]
                      [--escape] {FILE... | --files0-from LIST | --stdin NAME}

For more information, try '--help'.
";

const UNKNOWN_OPTION: &str = "\
error: unexpected argument '--cost' found

  tip: to pass '--cost' as a value, use '-- --cost'

Usage: mimelook plain [-d DIRS] [--name-only | --content-only]
                      [--magic-first | --all-globs] [--inode] [-0] [-b]
                      [--escape] {FILE... | --files0-from LIST | --stdin NAME}

For more information, try '--help'.
";

const FILE_AND_INPUT: &str = "\
error: give one of FILEs, --files0-from LIST and --stdin NAME

Usage: mimelook <COMMAND>

For more information, try '--help'.
";

static MISTAKES: [Row<'static>; 15] = [
    Row {
        name: "no command",
        words: &[],
        err: NO_COMMAND,
        ..SAID
    },
    Row {
        name: "unknown command",
        words: &["sniff", "x"],
        err: UNKNOWN_COMMAND,
        ..SAID
    },
    Row {
        name: "a file in place of a command",
        words: &["notes.txt", "x"],
        err: FILE_FOR_COMMAND,
        ..SAID
    },
    Row {
        name: "help of an unknown command",
        words: &["help", "sniff"],
        err: UNKNOWN_COMMAND,
        ..SAID
    },
    Row {
        name: "no -o",
        words: &["build", "-d", "/s"],
        err: NO_OUTPUT,
        ..SAID
    },
    Row {
        name: "plain alone",
        words: &["plain"],
        err: NO_FILE,
        ..SAID
    },
    Row {
        name: "no FILE",
        words: &["plain", "--name-only", "-d", ""],
        err: NO_FILE,
        ..SAID
    },
    Row {
        name: "a FILE and standard input",
        words: &["plain", "a", "--stdin", "b"],
        err: FILE_AND_INPUT,
        ..SAID
    },
    Row {
        name: "a FILE after an empty NAME",
        words: &["type", "--stdin", "", "a"],
        err: FILE_AND_INPUT,
        ..SAID
    },
    Row {
        name: "a FILE beside a LIST",
        words: &["type", "--files0-from", "l", "a"],
        err: FILE_AND_INPUT,
        ..SAID
    },
    Row {
        name: "a FILE that is a hyphen beside a LIST",
        words: &["plain", "--files0-from=-", "-"],
        err: FILE_AND_INPUT,
        ..SAID
    },
    Row {
        name: "a LIST and standard input",
        words: &["plain", "--stdin", "a", "--files0-from", "-"],
        err: FILE_AND_INPUT,
        ..SAID
    },
    Row {
        name: "no DIRS",
        words: &["plain", "--name-only", "-d"],
        err: NO_VALUE,
        ..SAID
    },
    Row {
        name: "-d twice",
        words: &["plain", "--name-only", "-d", "/s", "-d", "/s", "a"],
        err: OPTION_TWICE,
        ..SAID
    },
    Row {
        name: "unknown option",
        words: &["plain", "--name-only", "-d", "/s", "--cost", "a"],
        err: UNKNOWN_OPTION,
        ..SAID
    },
];

#[test]
fn shows_mistakes_whole(rt: HostRuntime) -> Result<(), Fail> {
    are_answered(&rt, rt.alloc(), &MISTAKES)
}
