//! The version, and the help of the program, of `build` and of `plain`.

mod over_caches;

use super::{PRINTED, Row, are_answered};
use std::test::Fail;

const HELP: &str = "\
Tells the MIME types of files

Usage: mimelook <COMMAND>

Commands:
  build    Writes a mime.cache from the text files of data directories
  plain    Prints FILE: TYPE for each FILE, with no cache between
  list     Prints a line WEIGHT:TYPE:PATTERN for each glob rule of a cache
  check    Prints how much a cache has of each list, if it is sound
  explain  Prints FILE: TYPE for each FILE, and below it why
  isa      Prints yes where TYPE is BASE or is derived from it, and else no
  icon     Prints the icon and the generic icon of a type
  type     Prints FILE: TYPE for each FILE, by a cache
  help     Print this message or the help of the given subcommand(s)

Options:
  -h, --help     Print help
  -V, --version  Print version

Messages go to standard error. The --help of a command says more of its exit
statuses. Without -c CACHE and -d DIRS, each command asks the user's data
directories: XDG_DATA_HOME, or else .local/share below HOME, and then those of
XDG_DATA_DIRS, or else /usr/local/share and /usr/share.

Exit status:
  0  what was asked for was done; or help or the version was printed
  1  some file not answered, isa says no, or the cache that check or explain
     reads back spells no database
  2  the command line is wrong
  3  database, cache or output refused
  4  out of memory

Examples:
  $ mimelook type notes.txt
  notes.txt: text/plain
  $ mimelook type -c /usr/share/mime/mime.cache notes.txt
  notes.txt: text/plain
  $ mimelook build -d /usr/local/share:/usr/share -o mime.cache
";

const BUILD_HELP: &str = "\
Writes a mime.cache from the text files of data directories

Usage: mimelook build [-d DIRS] [--drop-twins] -o FILE

Options:
  -d, --data-dirs <DIRS>  Data directories, most preferred first, with colons
                          between them, such as /usr/local/share:/usr/share;
                          an empty part is skipped
      --drop-twins        Leave out each rule without cs where one with cs has
                          the same weight, type and pattern
  -o, --output <FILE>     The cache to write; it is written as FILE.new and then
                          renamed; - is standard output, if that is no terminal
  -h, --help              Print help
  -V, --version           Print version

Messages go to standard error. The files are DIR/mime/globs2, magic, aliases,
subclasses, icons and generic-icons; a missing one counts as empty. Without -d
the directories are the user's (see mimelook --help).
globs2 gives each rule with cs a twin without it, by which CORE and A.GS have a
type. With --drop-twins they have none, since GLib, Qt and xdgmime read caches
that have no twins.

Exit status:
  0  FILE was written; or help or the version was printed
  2  the command line is wrong, or a word of it is not UTF-8
  3  the data can't be read or is refused, the database is too large, FILE
     can't be written, or it is there and no directory has a text file
  4  out of memory

Example:
  $ mimelook build -d /usr/local/share:/usr/share -o mime.cache
";

const PLAIN_HELP: &str = "\
Prints FILE: TYPE for each FILE, with no cache between

Usage: mimelook plain [-d DIRS] [--name-only | --content-only]
                      [--magic-first | --all-globs] [--inode] [-0] [-b]
                      [--escape] {FILE... | --files0-from LIST | --stdin NAME}

Arguments:
  [FILE]...  The files to tell the types of; put -- before one that begins
             with -

Options:
  -d, --data-dirs <DIRS>    Data directories, most preferred first, with colons
                            between them, such as /usr/local/share:/usr/share;
                            an empty part is skipped
      --name-only           Go by the names alone: no FILE is opened
      --content-only        Go by the contents alone: no name is looked at; not
                            with --magic-first or --all-globs
      --magic-first         Let content of high priority (80 or more) decide
                            before names
      --all-globs           Let content choose among all patterns that match,
                            not among the preferred ones alone; not with
                            --magic-first
      --inode               Print inode/directory, chardevice, blockdevice, fifo
                            or socket for what is no regular file, and
                            inode/symlink for a link that leads nowhere; none of
                            them is opened
  -0, --null                Print a zero byte after FILE and one after TYPE, in
                            place of a colon and a newline
  -b, --brief               Print TYPE alone
      --escape              In FILE and TYPE, write the bytes below 32, 127 and
                            \\ as \\ and three octal digits
      --files0-from <LIST>  Take the FILEs from the file LIST, or from standard
                            input where LIST is -: each ends with a zero byte
      --stdin <NAME>        Look up standard input, by the name NAME, in place
                            of FILEs; no more of it is read than is needed
  -h, --help                Print help
  -V, --version             Print version

Messages go to standard error. The files are DIR/mime/globs2, magic, aliases,
subclasses, icons and generic-icons; a missing one counts as empty. Without -d
the directories are the user's (see mimelook --help).
A FILE that is a pipe can't be opened, nor one whose name is not UTF-8, which
has a type by --name-only; a pipe has one by --inode. LIST may be a pipe; its
names are looked up as they come.

Exit status:
  0  every FILE was answered; or help or the version was printed
  1  some FILE can't be opened or read, its name is too long (above 4096 bytes),
     or a name of LIST is empty; the others were answered
  2  the command line is wrong, or a word but a FILE is not UTF-8
  3  the data or LIST can't be read, the data is refused, or the output can't
     be written
  4  out of memory

Example:
  $ mimelook plain -d /usr/local/share:/usr/share notes.txt
  notes.txt: text/plain
";

const VERSION: &str = "mimelook 1.0.0\n";

static HELPS: [Row<'static>; 10] = [
    Row {
        name: "help",
        words: &["--help"],
        out: HELP,
        ..PRINTED
    },
    Row {
        name: "help in short",
        words: &["-h"],
        out: HELP,
        ..PRINTED
    },
    Row {
        name: "version",
        words: &["--version"],
        out: VERSION,
        ..PRINTED
    },
    Row {
        name: "version in short",
        words: &["-V"],
        out: VERSION,
        ..PRINTED
    },
    Row {
        name: "version of a command",
        words: &["type", "--version"],
        out: VERSION,
        ..PRINTED
    },
    Row {
        name: "version of a command in short",
        words: &["plain", "-V"],
        out: VERSION,
        ..PRINTED
    },
    Row {
        name: "help as a command",
        words: &["help"],
        out: HELP,
        ..PRINTED
    },
    Row {
        name: "help before a command",
        words: &["help", "plain"],
        out: PLAIN_HELP,
        ..PRINTED
    },
    Row {
        name: "help of build",
        words: &["build", "--help"],
        out: BUILD_HELP,
        ..PRINTED
    },
    Row {
        name: "help of plain",
        words: &["plain", "--help"],
        out: PLAIN_HELP,
        ..PRINTED
    },
];

#[test]
fn shows_help_whole(rt: HostRuntime) -> Result<(), Fail> {
    are_answered(&rt, rt.alloc(), &HELPS)
}
