//! The help of the commands over a cache.

use crate::tests::texts::{PRINTED, Row, are_answered};
use std::test::Fail;

const LIST_HELP: &str = "\
Prints a line WEIGHT:TYPE:PATTERN for each glob rule of a cache

Usage: mimelook list [-c CACHE | -d DIRS]

Options:
  -c, --cache <CACHE>     The cache to read, such as
                          /usr/share/mime/mime.cache
  -d, --data-dirs <DIRS>  Data directories, most preferred first, with colons
                          between them, such as /usr/local/share:/usr/share;
                          an empty part is skipped
  -h, --help              Print help
  -V, --version           Print version

Messages go to standard error. A line ends in :cs where the rule is
case-sensitive. With -d the cache is made of DIRS, as build makes it; without -c
and -d, of the user's data directories (see mimelook --help).

Exit status:
  0  every rule was printed; or help or the version was printed
  2  the command line is wrong, or a word of it is not UTF-8
  3  the data can't be read or is refused, or the output can't be written
  4  out of memory

Example:
  $ mimelook list -c /usr/share/mime/mime.cache
  50:text/plain:*.txt
";

const CHECK_HELP: &str = "\
Prints how much a cache has of each list, if it is sound

Usage: mimelook check [-c CACHE | -d DIRS]

Options:
  -c, --cache <CACHE>     The cache to read, such as
                          /usr/share/mime/mime.cache
  -d, --data-dirs <DIRS>  Data directories, most preferred first, with colons
                          between them, such as /usr/local/share:/usr/share;
                          an empty part is skipped
  -h, --help              Print help
  -V, --version           Print version

Messages go to standard error. The cache is read back, and each of its lists is
counted, and the lines of magic. One that spells no database is refused by its
first part that can't be read back: header, aliases, subclasses, literals,
suffixes, globs, magic, icons or generic icons. With -d the cache is made of
DIRS, as build makes it; without -c and -d, of the user's data directories (see
mimelook --help).

Exit status:
  0  the counts were printed; or help or the version was printed
  1  the cache can be opened, but spells no database
  2  the command line is wrong, or a word of it is not UTF-8
  3  the data can't be read or is refused, or the output can't be written
  4  out of memory

Example:
  $ mimelook check -c mime.cache
  rules 2
  aliases 1
  subclasses 1
  sections 1
  lines 1
  icons 0
  generic-icons 0
";

const EXPLAIN_HELP: &str = "\
Prints FILE: TYPE for each FILE, and below it why

Usage: mimelook explain [-c CACHE | -d DIRS] [--name-only | --content-only]
                        [--magic-first | --all-globs] [--escape] FILE...

Arguments:
  <FILE>...  The files to explain the types of; put -- before one that
             begins with -

Options:
  -c, --cache <CACHE>     The cache to read, such as
                          /usr/share/mime/mime.cache
  -d, --data-dirs <DIRS>  Data directories, most preferred first, with colons
                          between them, such as /usr/local/share:/usr/share;
                          an empty part is skipped
      --name-only         Go by the names alone: no FILE is opened
      --content-only      Go by the contents alone: no name is looked at; not
                          with --magic-first or --all-globs
      --magic-first       Let content of high priority (80 or more) decide
                          before names
      --all-globs         Let content choose among all patterns that match,
                          not among the preferred ones alone; not with
                          --magic-first
      --escape            In FILE and TYPE, write the bytes below 32, 127 and
                          \\ as \\ and three octal digits
  -h, --help              Print help
  -V, --version           Print version

Messages go to standard error. The cache is read back; one that spells no
database is refused as by check. Below FILE: TYPE stand, each after two spaces,
a line glob WEIGHT PATTERN TYPE for each glob rule that matches the name, the
preferred first; a line magic PRIORITY TYPE for the first section of magic that
holds for the content, or magic none TYPE for one that has its type by its bytes
alone; and what decides. Behind a rule stand cs where it is case-sensitive, kept
where no other is preferred to it, and -> OTHER where TYPE is an alias of OTHER.
By name: the rules give one type. By content: the content gives it, since no
rule matches or it is asked first. By both: of the types of the rules one is
that of the content or derived from it. By default: neither; it is the first
type of the rules, or the default.
The content is read even where the name decides, but no further than magic can
look. With -d the cache is made of DIRS, as build makes it; without -c and -d,
of the user's data directories (see mimelook --help).

Exit status:
  0  every FILE was answered; or help or the version was printed
  1  some FILE can't be opened or read, or its name is too long (above 4096
     bytes); the others were answered; or the cache spells no database
  2  the command line is wrong, or a word but a FILE is not UTF-8
  3  the data can't be read or is refused, or the output can't be written
  4  out of memory

Example:
  $ mimelook explain --name-only notes.txt
  notes.txt: text/plain
    glob 50 *.txt text/plain kept
    by name
";

const IS_A_HELP: &str = "\
Prints yes where TYPE is BASE or is derived from it, and else no

Usage: mimelook isa [-c CACHE | -d DIRS] TYPE BASE

Arguments:
  <TYPE>  The type that is asked about, such as text/html
  <BASE>  The type that it may be, such as text/plain

Options:
  -c, --cache <CACHE>     The cache to read, such as
                          /usr/share/mime/mime.cache
  -d, --data-dirs <DIRS>  Data directories, most preferred first, with colons
                          between them, such as /usr/local/share:/usr/share;
                          an empty part is skipped
  -h, --help              Print help
  -V, --version           Print version

Messages go to standard error. TYPE is BASE where they are the same type, or a
parent of TYPE is BASE. Any text type is text/plain, and any type but those of
inode is application/octet-stream. TYPE and BASE may be aliases. With -d the
cache is made of DIRS, as build makes it; without -c and -d, of the user's data
directories (see mimelook --help).

Exit status:
  0  yes was printed; or help or the version was printed
  1  no was printed
  2  the command line is wrong, a word of it is not UTF-8, or TYPE or BASE is no
     type
  3  the data can't be read or is refused, or the output can't be written
  4  out of memory

Example:
  $ mimelook isa text/html text/plain
  yes
";

const ICON_HELP: &str = "\
Prints the icon and the generic icon of a type

Usage: mimelook icon [-c CACHE | -d DIRS] TYPE

Arguments:
  <TYPE>  The type that is asked about, such as text/html

Options:
  -c, --cache <CACHE>     The cache to read, such as
                          /usr/share/mime/mime.cache
  -d, --data-dirs <DIRS>  Data directories, most preferred first, with colons
                          between them, such as /usr/local/share:/usr/share;
                          an empty part is skipped
  -h, --help              Print help
  -V, --version           Print version

Messages go to standard error. Where the cache names no icon, it is TYPE with -
in place of /; the generic one is then the part before the / and -x-generic.
TYPE may be an alias. With -d the cache is made of DIRS, as build makes it;
without -c and -d, of the user's data directories (see mimelook --help).

Exit status:
  0  both were printed; or help or the version was printed
  2  the command line is wrong, a word of it is not UTF-8, or TYPE is no type
  3  the data can't be read or is refused, or the output can't be written
  4  out of memory

Example:
  $ mimelook icon text/html
  icon: text-html
  generic: text-x-generic
";

const TYPE_HELP: &str = "\
Prints FILE: TYPE for each FILE, by a cache

Usage: mimelook type [-c CACHE | -d DIRS] [--name-only | --content-only]
                     [--magic-first | --all-globs] [--inode] [--cost] [-0] [-b]
                     [--escape] {FILE... | --files0-from LIST | --stdin NAME}

Arguments:
  [FILE]...  The files to tell the types of; put -- before one that begins
             with -

Options:
  -c, --cache <CACHE>       The cache to read, such as
                            /usr/share/mime/mime.cache
  -d, --data-dirs <DIRS>    Data directories, most preferred first, with colons
                            between them, such as /usr/local/share:/usr/share;
                            an empty part is skipped
      --name-only           Go by the names alone: no FILE is opened
      --content-only        Go by the contents alone: no name is looked at; not
                            with --magic-first or --all-globs
      --magic-first         Let content of high priority (80 or more) decide
                            before names
      --all-globs           Let content choose among all patterns that match,
                            not among the preferred ones alone; not with
                            --magic-first
      --inode               Print inode/directory, chardevice, blockdevice, fifo
                            or socket for what is no regular file, and
                            inode/symlink for a link that leads nowhere; none of
                            them is opened
      --cost                Print behind each TYPE what the answer cost:
                            nodes=N, records of the cache that were visited;
                            bytes=B, bytes that were read or compared; read=R,
                            bytes of FILE that were read
  -0, --null                Print a zero byte after FILE and one after TYPE, in
                            place of a colon and a newline
  -b, --brief               Print TYPE alone
      --escape              In FILE and TYPE, write the bytes below 32, 127 and
                            \\ as \\ and three octal digits
      --files0-from <LIST>  Take the FILEs from the file LIST, or from standard
                            input where LIST is -: each ends with a zero byte
      --stdin <NAME>        Look up standard input, by the name NAME, in place
                            of FILEs; no more of it is read than is needed
  -h, --help                Print help
  -V, --version             Print version

Messages go to standard error. With -d the cache is made of DIRS, as build makes
it; without -c and -d, of the user's data directories (see mimelook --help).
A FILE that is a pipe can't be opened, nor one whose name is not UTF-8, which
has a type by --name-only; a pipe has one by --inode. A CACHE that is a pipe
can't be read. LIST may be one; its names are looked up as they come.

Exit status:
  0  every FILE was answered; or help or the version was printed
  1  some FILE can't be opened or read, its name is too long (above 4096 bytes),
     or a name of LIST is empty; the others were answered
  2  the command line is wrong, or a word but a FILE is not UTF-8
  3  the data or LIST can't be read, the data is refused, or the output can't
     be written
  4  out of memory

Example:
  $ mimelook type notes.txt
  notes.txt: text/plain
";

static HELPS: [Row<'static>; 6] = [
    Row {
        name: "help of list",
        words: &["list", "--help"],
        out: LIST_HELP,
        ..PRINTED
    },
    Row {
        name: "help of check",
        words: &["check", "--help"],
        out: CHECK_HELP,
        ..PRINTED
    },
    Row {
        name: "help of explain",
        words: &["explain", "--help"],
        out: EXPLAIN_HELP,
        ..PRINTED
    },
    Row {
        name: "help of isa",
        words: &["isa", "--help"],
        out: IS_A_HELP,
        ..PRINTED
    },
    Row {
        name: "help after a TYPE",
        words: &["icon", "t/h", "-h"],
        out: ICON_HELP,
        ..PRINTED
    },
    Row {
        name: "help after -c",
        words: &["type", "-c", "c", "--help"],
        out: TYPE_HELP,
        ..PRINTED
    },
];

#[test]
fn shows_help_whole(rt: HostRuntime) -> Result<(), Fail> {
    are_answered(&rt, rt.alloc(), &HELPS)
}
