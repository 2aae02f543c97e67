//! Refused words of the commands over a cache.

use super::{Refused, are_refused};
use clap::error::ErrorKind;
use std::test::Fail;

static REFUSED: [Refused; 27] = [
    Refused {
        name: "-c without CACHE",
        words: "list -c",
        kind: ErrorKind::InvalidValue,
    },
    Refused {
        name: "-c twice",
        words: "list -c c -c c",
        kind: ErrorKind::ArgumentConflict,
    },
    Refused {
        name: "a word after list",
        words: "list -c c x",
        kind: ErrorKind::UnknownArgument,
    },
    Refused {
        name: "both -c and -d",
        words: "list -c c -d a",
        kind: ErrorKind::ArgumentConflict,
    },
    Refused {
        name: "both in long",
        words: "type --data-dirs '' x --cache ''",
        kind: ErrorKind::ArgumentConflict,
    },
    Refused {
        name: "an option of plain after list",
        words: "list -c c --name-only",
        kind: ErrorKind::UnknownArgument,
    },
    Refused {
        name: "a word after check",
        words: "check c",
        kind: ErrorKind::UnknownArgument,
    },
    Refused {
        name: "explain without FILE",
        words: "explain -c c",
        kind: ErrorKind::MissingRequiredArgument,
    },
    Refused {
        name: "both -c and -d after explain",
        words: "explain -d a -c c a",
        kind: ErrorKind::ArgumentConflict,
    },
    Refused {
        name: "two orders after explain",
        words: "explain --content-only --all-globs a",
        kind: ErrorKind::ArgumentConflict,
    },
    Refused {
        name: "an option of type after explain",
        words: "explain --inode a",
        kind: ErrorKind::UnknownArgument,
    },
    Refused {
        name: "both -c and -d after check",
        words: "check -d a -c c",
        kind: ErrorKind::ArgumentConflict,
    },
    Refused {
        name: "no words after isa",
        words: "isa",
        kind: ErrorKind::MissingRequiredArgument,
    },
    Refused {
        name: "no TYPE of isa",
        words: "isa -c c",
        kind: ErrorKind::MissingRequiredArgument,
    },
    Refused {
        name: "no BASE",
        words: "isa -c c t/h",
        kind: ErrorKind::MissingRequiredArgument,
    },
    Refused {
        name: "a third type",
        words: "isa -c c t/h t/m t/g",
        kind: ErrorKind::UnknownArgument,
    },
    Refused {
        name: "-c twice among types",
        words: "isa -c c t/h -c c t/m",
        kind: ErrorKind::ArgumentConflict,
    },
    Refused {
        name: "no TYPE of icon",
        words: "icon -c c",
        kind: ErrorKind::MissingRequiredArgument,
    },
    Refused {
        name: "a second type",
        words: "icon -c c t/h t/m",
        kind: ErrorKind::UnknownArgument,
    },
    Refused {
        name: "a TYPE with a hyphen",
        words: "icon -c c -t",
        kind: ErrorKind::UnknownArgument,
    },
    Refused {
        name: "no words after type",
        words: "type",
        kind: ErrorKind::MissingRequiredArgument,
    },
    Refused {
        name: "no FILE of type",
        words: "type --name-only --cost -c c",
        kind: ErrorKind::MissingRequiredArgument,
    },
    Refused {
        name: "--cost twice",
        words: "type -c c --cost --cost x",
        kind: ErrorKind::ArgumentConflict,
    },
    Refused {
        name: "-c twice around FILE",
        words: "type -c c x -c d",
        kind: ErrorKind::ArgumentConflict,
    },
    Refused {
        name: "--cost with a value",
        words: "type -c c --cost=1 x",
        kind: ErrorKind::TooManyValues,
    },
    Refused {
        name: "an option of build after type",
        words: "type -c c -o d x",
        kind: ErrorKind::UnknownArgument,
    },
    Refused {
        name: "--cost of plain",
        words: "plain -d a --cost x",
        kind: ErrorKind::UnknownArgument,
    },
];

#[test]
fn refuses_by_kind(rt: HostRuntime) -> Result<(), Fail> {
    are_refused(&rt, rt.alloc(), &REFUSED)
}
