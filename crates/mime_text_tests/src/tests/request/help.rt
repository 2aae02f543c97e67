//! Which command's help words ask for, by its first line.
//!
//! The tests of the program hold each help whole.

use super::answer_to;
use crate::tests::checked::alike;
use clap::error::ErrorKind;
use std::test::Fail;

const OF_MIMELOOK: &str = "Tells the MIME types of files";

const OF_BUILD: &str = "Writes a mime.cache from the text files of data directories";

const OF_PLAIN: &str = "Prints FILE: TYPE for each FILE, with no cache between";

const OF_LIST: &str = "Prints a line WEIGHT:TYPE:PATTERN for each glob rule of a cache";

const OF_CHECK: &str = "Prints how much a cache has of each list, if it is sound";

const OF_EXPLAIN: &str = "Prints FILE: TYPE for each FILE, and below it why";

const OF_IS_A: &str = "Prints yes where TYPE is BASE or is derived from it, and else no";

const OF_ICON: &str = "Prints the icon and the generic icon of a type";

const OF_TYPE: &str = "Prints FILE: TYPE for each FILE, by a cache";

/// Words, and the first line of the help that answers them.
struct Help {
    name: &'static str,
    words: &'static str,
    first_line: &'static str,
}

static HELPS: [Help; 14] = [
    Help {
        name: "help",
        words: "--help",
        first_line: OF_MIMELOOK,
    },
    Help {
        name: "short help",
        words: "-h",
        first_line: OF_MIMELOOK,
    },
    Help {
        name: "help before version",
        words: "--help --version",
        first_line: OF_MIMELOOK,
    },
    Help {
        name: "help as a command",
        words: "help",
        first_line: OF_MIMELOOK,
    },
    Help {
        name: "help before a command",
        words: "help isa",
        first_line: OF_IS_A,
    },
    Help {
        name: "help of plain",
        words: "plain --help",
        first_line: OF_PLAIN,
    },
    Help {
        name: "help after a FILE",
        words: "plain x -h",
        first_line: OF_PLAIN,
    },
    Help {
        name: "help of build",
        words: "build --help",
        first_line: OF_BUILD,
    },
    Help {
        name: "help of list",
        words: "list --help",
        first_line: OF_LIST,
    },
    Help {
        name: "help of check",
        words: "check --help",
        first_line: OF_CHECK,
    },
    Help {
        name: "help of explain",
        words: "explain --help",
        first_line: OF_EXPLAIN,
    },
    Help {
        name: "help of isa",
        words: "isa --help",
        first_line: OF_IS_A,
    },
    Help {
        name: "help after a TYPE",
        words: "icon t/h -h",
        first_line: OF_ICON,
    },
    Help {
        name: "help after -c",
        words: "type -c c --help",
        first_line: OF_TYPE,
    },
];

#[test]
fn shows_the_help_of_a_command(rt: HostRuntime) -> Result<(), Fail> {
    for row in &HELPS {
        let answer = answer_to(rt.alloc(), row.words)?;
        alike(&rt, row.name, answer.kind, Some(ErrorKind::DisplayHelp));
        alike(
            &rt,
            row.name,
            answer.text.lines().next(),
            Some(row.first_line),
        );
    }
    Ok(())
}
