//! The texts of `--help`. This project's own.

// What stands around the list of a command's options.
#[derive(Clone, Copy)]
pub(crate) struct HelpTexts<'a> {
    pub(crate) about: &'a str,
    pub(crate) usage: &'a str,
    pub(crate) after_help: &'a str,
}

pub(crate) const MIMELOOK: HelpTexts<'static> = HelpTexts {
    about: "Tells the MIME types of files",
    usage: "mimelook <COMMAND>",
    after_help: "\
Messages go to standard error. The --help of a command says more of its exit
statuses. Without -c CACHE and -d DIRS, each command asks the user's data
directories: XDG_DATA_HOME, or else .local/share below HOME, and then those of
XDG_DATA_DIRS, or else /usr/local/share and /usr/share.

Exit status:
  0  what was asked for was done; or help or the version was printed
  1  some file not answered, isa says no, or the cache that check or explain
     reads back spells no database
  2  the command line is wrong
  3  database, cache or output refused
  4  out of memory

Examples:
  $ mimelook type notes.txt
  notes.txt: text/plain
  $ mimelook type -c /usr/share/mime/mime.cache notes.txt
  notes.txt: text/plain
  $ mimelook build -d /usr/local/share:/usr/share -o mime.cache",
};

pub(crate) const BUILD: HelpTexts<'static> = HelpTexts {
    about: "Writes a mime.cache from the text files of data directories",
    usage: "mimelook build [-d DIRS] [--drop-twins] -o FILE",
    after_help: "\
Messages go to standard error. The files are DIR/mime/globs2, magic, aliases,
subclasses, icons and generic-icons; a missing one counts as empty. Without -d
the directories are the user's (see mimelook --help).
globs2 gives each rule with cs a twin without it, by which CORE and A.GS have a
type. With --drop-twins they have none, since GLib, Qt and xdgmime read caches
that have no twins.

Exit status:
  0  FILE was written; or help or the version was printed
  2  the command line is wrong, or a word of it is not UTF-8
  3  the data can't be read or is refused, the database is too large, FILE
     can't be written, or it is there and no directory has a text file
  4  out of memory

Example:
  $ mimelook build -d /usr/local/share:/usr/share -o mime.cache",
};

pub(crate) const PLAIN: HelpTexts<'static> = HelpTexts {
    about: "Prints FILE: TYPE for each FILE, with no cache between",
    usage: "\
mimelook plain [-d DIRS] [--name-only | --content-only]
                      [--magic-first | --all-globs] [--inode] [-0] [-b]
                      [--escape] {FILE... | --files0-from LIST | --stdin NAME}",
    after_help: "\
Messages go to standard error. The files are DIR/mime/globs2, magic, aliases,
subclasses, icons and generic-icons; a missing one counts as empty. Without -d
the directories are the user's (see mimelook --help).
A FILE that is a pipe can't be opened, nor one whose name is not UTF-8, which
has a type by --name-only; a pipe has one by --inode. LIST may be a pipe; its
names are looked up as they come.

Exit status:
  0  every FILE was answered; or help or the version was printed
  1  some FILE can't be opened or read, its name is too long (above 4096 bytes),
     or a name of LIST is empty; the others were answered
  2  the command line is wrong, or a word but a FILE is not UTF-8
  3  the data or LIST can't be read, the data is refused, or the output can't
     be written
  4  out of memory

Example:
  $ mimelook plain -d /usr/local/share:/usr/share notes.txt
  notes.txt: text/plain",
};

pub(crate) const LIST: HelpTexts<'static> = HelpTexts {
    about: "Prints a line WEIGHT:TYPE:PATTERN for each glob rule of a cache",
    usage: "mimelook list [-c CACHE | -d DIRS]",
    after_help: "\
Messages go to standard error. A line ends in :cs where the rule is
case-sensitive. With -d the cache is made of DIRS, as build makes it; without -c
and -d, of the user's data directories (see mimelook --help).

Exit status:
  0  every rule was printed; or help or the version was printed
  2  the command line is wrong, or a word of it is not UTF-8
  3  the data can't be read or is refused, or the output can't be written
  4  out of memory

Example:
  $ mimelook list -c /usr/share/mime/mime.cache
  50:text/plain:*.txt",
};

pub(crate) const CHECK: HelpTexts<'static> = HelpTexts {
    about: "Prints how much a cache has of each list, if it is sound",
    usage: "mimelook check [-c CACHE | -d DIRS]",
    after_help: "\
Messages go to standard error. The cache is read back, and each of its lists is
counted, and the lines of magic. One that spells no database is refused by its
first part that can't be read back: header, aliases, subclasses, literals,
suffixes, globs, magic, icons or generic icons. With -d the cache is made of
DIRS, as build makes it; without -c and -d, of the user's data directories (see
mimelook --help).

Exit status:
  0  the counts were printed; or help or the version was printed
  1  the cache can be opened, but spells no database
  2  the command line is wrong, or a word of it is not UTF-8
  3  the data can't be read or is refused, or the output can't be written
  4  out of memory

Example:
  $ mimelook check -c mime.cache
  rules 2
  aliases 1
  subclasses 1
  sections 1
  lines 1
  icons 0
  generic-icons 0",
};

pub(crate) const EXPLAIN: HelpTexts<'static> = HelpTexts {
    about: "Prints FILE: TYPE for each FILE, and below it why",
    usage: "\
mimelook explain [-c CACHE | -d DIRS] [--name-only | --content-only]
                        [--magic-first | --all-globs] [--escape] FILE...",
    after_help: "\
Messages go to standard error. The cache is read back; one that spells no
database is refused as by check. Below FILE: TYPE stand, each after two spaces,
a line glob WEIGHT PATTERN TYPE for each glob rule that matches the name, the
preferred first; a line magic PRIORITY TYPE for the first section of magic that
holds for the content, or magic none TYPE for one that has its type by its bytes
alone; and what decides. Behind a rule stand cs where it is case-sensitive, kept
where no other is preferred to it, and -> OTHER where TYPE is an alias of OTHER.
By name: the rules give one type. By content: the content gives it, since no
rule matches or it is asked first. By both: of the types of the rules one is
that of the content or derived from it. By default: neither; it is the first
type of the rules, or the default.
The content is read even where the name decides, but no further than magic can
look. With -d the cache is made of DIRS, as build makes it; without -c and -d,
of the user's data directories (see mimelook --help).

Exit status:
  0  every FILE was answered; or help or the version was printed
  1  some FILE can't be opened or read, or its name is too long (above 4096
     bytes); the others were answered; or the cache spells no database
  2  the command line is wrong, or a word but a FILE is not UTF-8
  3  the data can't be read or is refused, or the output can't be written
  4  out of memory

Example:
  $ mimelook explain --name-only notes.txt
  notes.txt: text/plain
    glob 50 *.txt text/plain kept
    by name",
};

pub(crate) const IS_A: HelpTexts<'static> = HelpTexts {
    about: "Prints yes where TYPE is BASE or is derived from it, and else no",
    usage: "mimelook isa [-c CACHE | -d DIRS] TYPE BASE",
    after_help: "\
Messages go to standard error. TYPE is BASE where they are the same type, or a
parent of TYPE is BASE. Any text type is text/plain, and any type but those of
inode is application/octet-stream. TYPE and BASE may be aliases. With -d the
cache is made of DIRS, as build makes it; without -c and -d, of the user's data
directories (see mimelook --help).

Exit status:
  0  yes was printed; or help or the version was printed
  1  no was printed
  2  the command line is wrong, a word of it is not UTF-8, or TYPE or BASE is no
     type
  3  the data can't be read or is refused, or the output can't be written
  4  out of memory

Example:
  $ mimelook isa text/html text/plain
  yes",
};

pub(crate) const ICON: HelpTexts<'static> = HelpTexts {
    about: "Prints the icon and the generic icon of a type",
    usage: "mimelook icon [-c CACHE | -d DIRS] TYPE",
    after_help: "\
Messages go to standard error. Where the cache names no icon, it is TYPE with -
in place of /; the generic one is then the part before the / and -x-generic.
TYPE may be an alias. With -d the cache is made of DIRS, as build makes it;
without -c and -d, of the user's data directories (see mimelook --help).

Exit status:
  0  both were printed; or help or the version was printed
  2  the command line is wrong, a word of it is not UTF-8, or TYPE is no type
  3  the data can't be read or is refused, or the output can't be written
  4  out of memory

Example:
  $ mimelook icon text/html
  icon: text-html
  generic: text-x-generic",
};

pub(crate) const TYPE: HelpTexts<'static> = HelpTexts {
    about: "Prints FILE: TYPE for each FILE, by a cache",
    usage: "\
mimelook type [-c CACHE | -d DIRS] [--name-only | --content-only]
                     [--magic-first | --all-globs] [--inode] [--cost] [-0] [-b]
                     [--escape] {FILE... | --files0-from LIST | --stdin NAME}",
    after_help: "\
Messages go to standard error. With -d the cache is made of DIRS, as build makes
it; without -c and -d, of the user's data directories (see mimelook --help).
A FILE that is a pipe can't be opened, nor one whose name is not UTF-8, which
has a type by --name-only; a pipe has one by --inode. A CACHE that is a pipe
can't be read. LIST may be one; its names are looked up as they come.

Exit status:
  0  every FILE was answered; or help or the version was printed
  1  some FILE can't be opened or read, its name is too long (above 4096 bytes),
     or a name of LIST is empty; the others were answered
  2  the command line is wrong, or a word but a FILE is not UTF-8
  3  the data or LIST can't be read, the data is refused, or the output can't
     be written
  4  out of memory

Example:
  $ mimelook type notes.txt
  notes.txt: text/plain",
};

pub(crate) const CACHE: &str = "\
The cache to read, such as
/usr/share/mime/mime.cache";

pub(crate) const DIRS: &str = "\
Data directories, most preferred first, with colons
between them, such as /usr/local/share:/usr/share;
an empty part is skipped";

pub(crate) const OUTPUT: &str = "\
The cache to write; it is written as FILE.new and then
renamed; - is standard output, if that is no terminal";

pub(crate) const DROP_TWINS: &str = "\
Leave out each rule without cs where one with cs has
the same weight, type and pattern";

pub(crate) const FILES: &str = "\
The files to tell the types of; put -- before one that begins
with -";

pub(crate) const EXPLAINED: &str = "\
The files to explain the types of; put -- before one that
begins with -";

pub(crate) const FILES_LIST: &str = "\
Take the FILEs from the file LIST, or from standard
input where LIST is -: each ends with a zero byte";

pub(crate) const INPUT: &str = "\
Look up standard input, by the name NAME, in place
of FILEs; no more of it is read than is needed";

pub(crate) const COST: &str = "\
Print behind each TYPE what the answer cost:
nodes=N, records of the cache that were visited;
bytes=B, bytes that were read or compared; read=R,
bytes of FILE that were read";

pub(crate) const NAME_ONLY: &str = "\
Go by the names alone: no FILE is opened";

pub(crate) const CONTENT_ONLY: &str = "\
Go by the contents alone: no name is looked at; not
with --magic-first or --all-globs";

pub(crate) const MAGIC_FIRST: &str = "\
Let content of high priority (80 or more) decide
before names";

pub(crate) const ALL_GLOBS: &str = "\
Let content choose among all patterns that match,
not among the preferred ones alone; not with
--magic-first";

pub(crate) const INODE: &str = "\
Print inode/directory, chardevice, blockdevice, fifo
or socket for what is no regular file, and
inode/symlink for a link that leads nowhere; none of
them is opened";

pub(crate) const NULL: &str = "\
Print a zero byte after FILE and one after TYPE, in
place of a colon and a newline";

pub(crate) const BRIEF: &str = "\
Print TYPE alone";

pub(crate) const ESCAPE: &str = "\
In FILE and TYPE, write the bytes below 32, 127 and
\\ as \\ and three octal digits";
