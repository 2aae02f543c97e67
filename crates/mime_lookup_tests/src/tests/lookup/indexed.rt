//! Lookups over the index of a database, which have the outcome of those by its lists.

use super::{by_index, by_lists, database_of, index_of, unprepared_index_of};
use crate::tests::checked::alike;
use mime_base::{Database, Host};
use mime_lookup::{IndexedDatabase, Order};
use mime_samples::texts::{EMPTY, Texts};
use std::alloc::Global;
use std::process::Abort;

/// Endings and texts of one to six bytes and more, in both cases, and patterns that are no such text.
const GLOBS: &[u8] =
    b"50:t/1:*~\n50:t/2:*.c\n50:t/2-capital:*.C:cs\n50:t/3:*.gz\n50:t/4:*.tar\n50:t/5:*.jpeg\n\
50:t/7:*.tar.gz\n50:t/capital:*.TXT\n50:t/l1:a\n50:t/l2:ab\n50:t/l3:abc\n50:t/l4:abcd\n50:t/l5:abcde\n\
50:t/l5-capital:ABCDE:cs\n50:t/high:*.\xc0\xe0\n50:t/set:*.[ch]x\n50:t/middle:q*z\n50:t/one:?w\n50:t/escape:*\\\\k\n\
50:t/d1:*.doc\n50:t/d2:*.doc\n50:t/d3:x.doc\n50:t/e1:*1.doc\n50:t/e2:*21.doc\n60:t/e3:*321.doc\n50:t/e4:*.DOC:cs\n\
50:t/front:read*\n50:t/front-capital:Read?e:cs\n50:t/other-front:[a-c]x*y\n50:t/text:read.me\n50:t/old:*.old\n50:t/new:*.old\n";

/// The same, and a rule that every name matches.
const WITH_ANY: &[u8] = b"50:t/1:*~\n40:t/any:*\n50:t/2:*.c\n50:t/l1:a\n";

/// Rules of which most are no text and no star before a text: two of three of a name's first byte, and one that any name may match.
const MOSTLY_GENERAL: &[u8] =
    b"50:t/1:a*c\n60:t/2:a?\n50:t/3:[ab]*\n50:t/4:ab\n50:t/2-capital:*.C:cs\n50:t/old:?*.old\n";

/// Lines of one section and of more: near and far, in ranges that end where places are noted or one later, with a mask, with
/// words, with no value, no offset, and children.
const MAGIC: &[u8] =
    b"MIME-Magic\0\n[90:t/hi]\n>0=\0\x02hi\n[80:t/two]\n>0=\0\x03one\n>1=\0\x03two\n[60:t/far]\n>4=\0\x03abc\n\
[50:t/range]\n>2=\0\x02xy+5\n[50:t/edge]\n>280=\0\x01Q+8\n[50:t/past]\n>280=\0\x01R+9\n[50:t/mask]\n>0=\0\x02MK&\xdf\xdf\n\
[50:t/word]\n>0=\0\x02\x01\x02~2\n[50:t/parent]\n>0=\0\x01p\n1>1=\0\x01q\n[50:t/no-offset]\n>0=\0\x01z+0\n\
[50:t/d1]\n>0=\0\x01D\n[50:t/g]\n>0=\0\x01G\n[40:t/no-value]\n>299=\0\0\n";

/// Two types of one ending, one of which is under a type that magic gives.
const TEXTS: Texts<'static> = Texts {
    globs2: GLOBS,
    magic: MAGIC,
    aliases: b"t/old t/new\nt/1 t/tilde\n",
    subclasses: b"t/d2 t/g\nt/g t/h\n",
    ..EMPTY
};

const ANY: Texts<'static> = Texts {
    globs2: WITH_ANY,
    ..TEXTS
};

const GENERAL: Texts<'static> = Texts {
    globs2: MOSTLY_GENERAL,
    ..TEXTS
};

static DIRECTORY: [Texts<'static>; 1] = [TEXTS];

static EACH: [Texts<'static>; 4] = [TEXTS, ANY, GENERAL, EMPTY];

/// Names of no byte up to more than an ending has, in both cases, and endings alone.
static NAMES: [&[u8]; 60] = [
    b"",
    b"a",
    b"A",
    b"~",
    b"x~",
    b"ab",
    b"aB",
    b"xb",
    b".c",
    b".C",
    b"x.c",
    b"x.C",
    b"abc",
    b"ABC",
    b"xbc",
    b".gz",
    b"x.gz",
    b"x.GZ",
    b"xgz",
    b"abcd",
    b"Abcd",
    b"xbcd",
    b"bcd",
    b".tar",
    b"x.tar",
    b"abcde",
    b"ABCDE",
    b"Abcde",
    b"xbcde",
    b"bcde",
    b".jpeg",
    b"x.jpeg",
    b"xjpeg",
    b"x.TxT",
    b"x.tar.gz",
    b".tar.gz",
    b"tar.gz",
    b"x.\xc0\xe0",
    b"x.\xe0\xe0",
    b"x.cx",
    b"qz",
    b"Qaz",
    b"ww",
    b"x\\k",
    b"x.doc",
    b"y.doc",
    b"xx.doc",
    b"x.DOC",
    b"1.doc",
    b"21.doc",
    b"321.doc",
    b"4321.DOC",
    b"21doc",
    b"read",
    b"Reade",
    b"reade",
    b"read.me",
    b"xread.me",
    b"bxzy",
    b"x.old",
];

/// Contents that are shorter than what a line seeks, as long, and longer.
static CONTENTS: [&[u8]; 28] = [
    b"",
    b"h",
    b"hi",
    b"hi!",
    b"Hi",
    b"on",
    b"one",
    b"xtw",
    b"xtwo",
    b"xtwo!",
    b"1234ab",
    b"1234abc",
    b"1234abcd",
    b"12x",
    b"12xy",
    b"123xy",
    b"123456xy",
    b"1234567xy",
    b"xyxx",
    b"MK",
    b"mk",
    b"M",
    b"\x01\x02",
    b"\x02\x01",
    b"pq",
    b"p!",
    b"D",
    b"G",
];

/// Both lookups of a name and a content have one outcome.
fn is_alike(
    rt: &impl Abort,
    alloc: Global,
    database: &Database,
    index: &IndexedDatabase<'_>,
    asked: (&[u8], Option<&[u8]>),
    way: (Host, Order),
) {
    let (name, content) = asked;
    let wanted = by_lists(alloc, database, name, content, way);
    let found = by_index(alloc, index, name, content, way);
    alike(rt, "by the index", found, wanted);
}

/// So they have in each order, and on each host.
fn are_alike(
    rt: &impl Abort,
    alloc: Global,
    database: &Database,
    index: &IndexedDatabase<'_>,
    asked: (&[u8], Option<&[u8]>),
) {
    for order in [
        Order::GlobsFirst,
        Order::MagicFirst,
        Order::AllGlobs,
        Order::ContentOnly,
    ] {
        is_alike(rt, alloc, database, index, asked, (Host::Little, order));
        is_alike(rt, alloc, database, index, asked, (Host::Big, order));
    }
}

/// So they have for each name, with no content and with one.
fn names_are_alike(
    rt: &impl Abort,
    alloc: Global,
    database: &Database,
    index: &IndexedDatabase<'_>,
) {
    for &name in &NAMES {
        are_alike(rt, alloc, database, index, (name, None));
        are_alike(rt, alloc, database, index, (name, Some(b"G")));
    }
}

/// So they have for each content.
fn contents_are_alike(
    rt: &impl Abort,
    alloc: Global,
    database: &Database,
    index: &IndexedDatabase<'_>,
) {
    for &content in &CONTENTS {
        are_alike(rt, alloc, database, index, (b"none", Some(content)));
        are_alike(rt, alloc, database, index, (b"x.doc", Some(content)));
    }
}

/// So they have for each name and each content.
fn all_are_alike(rt: &impl Abort, alloc: Global, database: &Database) {
    let index = index_of(rt, alloc, database);
    names_are_alike(rt, alloc, database, &index);
    contents_are_alike(rt, alloc, database, &index);
}

#[test]
fn names_and_contents(rt: HostRuntime) {
    for &texts in &EACH {
        all_are_alike(&rt, rt.alloc(), &database_of(&rt, rt.alloc(), &[texts]));
    }
}

/// What is asked of an index has one outcome, whether its magic is prepared or not.
fn unprepared_are_alike(rt: &impl Abort, alloc: Global, database: &Database) {
    let index = unprepared_index_of(rt, alloc, database);
    contents_are_alike(rt, alloc, database, &index);
    are_alike(rt, alloc, database, &index, (b"x.doc", None));
}

#[test]
fn magic_unprepared(rt: HostRuntime) {
    unprepared_are_alike(&rt, rt.alloc(), &database_of(&rt, rt.alloc(), &DIRECTORY));
}

/// So have the longest name and one of a byte more.
fn long_are_alike(rt: &impl Abort, alloc: Global, database: &Database) {
    let index = index_of(rt, alloc, database);
    are_alike(rt, alloc, database, &index, (&[b'~'; 4096], Some(b"hi")));
    are_alike(rt, alloc, database, &index, (&[b'~'; 4097], Some(b"hi")));
}

#[test]
fn long_name(rt: HostRuntime) {
    long_are_alike(&rt, rt.alloc(), &database_of(&rt, rt.alloc(), &DIRECTORY));
}

/// A byte at each place near the end of the noted ones, in contents that end before it, at it and after it.
fn places_are_alike(
    rt: &impl Abort,
    alloc: Global,
    database: &Database,
    index: &IndexedDatabase<'_>,
    place: usize,
    byte: u8,
) {
    let mut bytes = [b'.'; 300];
    if place < 300 {
        bytes[place] = byte;
    }
    for end in 278..301 {
        are_alike(rt, alloc, database, index, (b"none", Some(&bytes[..end])));
    }
}

/// Two bytes at each place near that end.
fn all_places_are_alike(rt: &impl Abort, alloc: Global, database: &Database) {
    let index = index_of(rt, alloc, database);
    for place in 278..291 {
        places_are_alike(rt, alloc, database, &index, place, b'Q');
        places_are_alike(rt, alloc, database, &index, place, b'R');
    }
}

#[test]
fn places(rt: HostRuntime) {
    all_places_are_alike(&rt, rt.alloc(), &database_of(&rt, rt.alloc(), &DIRECTORY));
}
