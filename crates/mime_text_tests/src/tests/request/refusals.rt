//! Words that are refused: the kind of error that answers them, and two texts.
//!
//! The tests of the program hold the other texts.

mod over_caches;

use super::answer_to;
use crate::tests::checked::alike;
use clap::error::ErrorKind;
use std::alloc::Global;
use std::process::Abort;
use std::test::Fail;

/// Words, and the kind of error that answers them.
struct Refused {
    name: &'static str,
    words: &'static str,
    kind: ErrorKind,
}

static REFUSED: [Refused; 31] = [
    Refused {
        name: "escapes with zero bytes",
        words: "plain --escape -0 x",
        kind: ErrorKind::ArgumentConflict,
    },
    Refused {
        name: "cost with zero bytes",
        words: "type --cost --null x",
        kind: ErrorKind::ArgumentConflict,
    },
    Refused {
        name: "cost with TYPE alone",
        words: "type -b --cost x",
        kind: ErrorKind::ArgumentConflict,
    },
    Refused {
        name: "contents alone and names alone",
        words: "type --name-only --content-only x",
        kind: ErrorKind::ArgumentConflict,
    },
    Refused {
        name: "contents alone in an order",
        words: "plain --content-only --magic-first x",
        kind: ErrorKind::ArgumentConflict,
    },
    Refused {
        name: "contents alone and all globs",
        words: "type --all-globs --content-only x",
        kind: ErrorKind::ArgumentConflict,
    },
    Refused {
        name: "two orders",
        words: "plain --magic-first --all-globs x",
        kind: ErrorKind::ArgumentConflict,
    },
    Refused {
        name: "a short flag and its long one",
        words: "plain -0 --null x",
        kind: ErrorKind::ArgumentConflict,
    },
    Refused {
        name: "no words",
        words: "",
        kind: ErrorKind::MissingSubcommand,
    },
    Refused {
        name: "unknown command",
        words: "sniff x",
        kind: ErrorKind::InvalidSubcommand,
    },
    Refused {
        name: "help of an unknown command",
        words: "help sniff",
        kind: ErrorKind::InvalidSubcommand,
    },
    Refused {
        name: "short version of isa",
        words: "isa -V",
        kind: ErrorKind::DisplayVersion,
    },
    Refused {
        name: "version",
        words: "--version",
        kind: ErrorKind::DisplayVersion,
    },
    Refused {
        name: "short version",
        words: "-V",
        kind: ErrorKind::DisplayVersion,
    },
    Refused {
        name: "version of plain",
        words: "plain --version",
        kind: ErrorKind::DisplayVersion,
    },
    Refused {
        name: "no FILE",
        words: "plain --name-only -d ''",
        kind: ErrorKind::MissingRequiredArgument,
    },
    Refused {
        name: "-d without DIRS",
        words: "plain --name-only x -d",
        kind: ErrorKind::InvalidValue,
    },
    Refused {
        name: "no words after build",
        words: "build",
        kind: ErrorKind::MissingRequiredArgument,
    },
    Refused {
        name: "no -o",
        words: "build -d a",
        kind: ErrorKind::MissingRequiredArgument,
    },
    Refused {
        name: "-o without FILE",
        words: "build -d a -o",
        kind: ErrorKind::InvalidValue,
    },
    Refused {
        name: "-o twice",
        words: "build -d a -o c -o c",
        kind: ErrorKind::ArgumentConflict,
    },
    Refused {
        name: "a word too many",
        words: "build -d a -o c x",
        kind: ErrorKind::UnknownArgument,
    },
    Refused {
        name: "an option of plain",
        words: "build -d a -o c --name-only",
        kind: ErrorKind::UnknownArgument,
    },
    Refused {
        name: "an option of build",
        words: "plain -d a -o c x",
        kind: ErrorKind::UnknownArgument,
    },
    Refused {
        name: "no words after plain",
        words: "plain",
        kind: ErrorKind::MissingRequiredArgument,
    },
    Refused {
        name: "-d twice",
        words: "plain -d a -d a --name-only x",
        kind: ErrorKind::ArgumentConflict,
    },
    Refused {
        name: "flag twice",
        words: "plain --name-only -d a --name-only x",
        kind: ErrorKind::ArgumentConflict,
    },
    Refused {
        name: "the other flag twice",
        words: "plain --magic-first --magic-first -d a x",
        kind: ErrorKind::ArgumentConflict,
    },
    Refused {
        name: "flag with a value",
        words: "plain -d a --magic-first=true x",
        kind: ErrorKind::TooManyValues,
    },
    Refused {
        name: "unknown option",
        words: "plain -d a --names x",
        kind: ErrorKind::UnknownArgument,
    },
    Refused {
        name: "FILE with a hyphen",
        words: "plain -d a --name-only -x",
        kind: ErrorKind::UnknownArgument,
    },
];

fn are_refused(rt: &impl Abort, alloc: Global, rows: &[Refused]) -> Result<(), Fail> {
    for row in rows {
        alike(
            rt,
            row.name,
            answer_to(alloc, row.words)?.kind,
            Some(row.kind),
        );
    }
    Ok(())
}

#[test]
fn refuses_by_kind(rt: HostRuntime) -> Result<(), Fail> {
    are_refused(&rt, rt.alloc(), &REFUSED)
}

const UNKNOWN_COMMAND: &str = "\
error: unrecognized subcommand 'sniff'

Usage: mimelook <COMMAND>

For more information, try '--help'.
";

/// What is said of an option that is like one of the command.
const SIMILAR_OPTION: &str = "\
error: unexpected argument '--names' found

  tip: a similar argument exists: '--name-only'

Usage: mimelook plain [-d DIRS] [--name-only | --content-only]
                      [--magic-first | --all-globs] [--inode] [-0] [-b]
                      [--escape] {FILE... | --files0-from LIST | --stdin NAME}

For more information, try '--help'.
";

/// Words, and the whole text that answers them.
struct Mistake {
    name: &'static str,
    words: &'static str,
    text: &'static str,
}

static MISTAKES: [Mistake; 2] = [
    Mistake {
        name: "unknown command",
        words: "sniff x",
        text: UNKNOWN_COMMAND,
    },
    Mistake {
        name: "unknown option",
        words: "plain -d a --names x",
        text: SIMILAR_OPTION,
    },
];

#[test]
fn says_what_is_wrong(rt: HostRuntime) -> Result<(), Fail> {
    for row in &MISTAKES {
        let answer = answer_to(rt.alloc(), row.words)?;
        alike(&rt, row.name, answer.text.as_str(), row.text);
    }
    Ok(())
}
