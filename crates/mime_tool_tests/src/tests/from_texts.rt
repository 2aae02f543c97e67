//! Types by the bytes of directories, with nothing stored between.

use crate::tests::ran::alike;
use mime_base::{Host, Meter};
use mime_lookup::{Cause, Order, Stopped};
use mime_samples::texts::EMPTY;
use mime_text::{MagicFault, MagicFaultKind};
use mime_tool::{AnswerFault, DirTexts, OwnedAnswer, answer};
use std::alloc::Global;
use std::process::Abort;
use std::test::Fail;

/// A long suffix beside a short one.
static TARS: [DirTexts<'static>; 1] = [DirTexts {
    globs2: b"50:application/gzip:*.gz\n50:application/x-compressed-tar:*.tar.gz\n",
    ..EMPTY
}];

/// A marker, and a rule of its type in a less preferred directory.
static MARKED: [DirTexts<'static>; 2] = [
    DirTexts {
        globs2: b"0:t/a:__NOGLOBS__\n50:t/a:*.new\n",
        ..EMPTY
    },
    DirTexts {
        globs2: b"50:t/a:*.old\n",
        ..EMPTY
    },
];

/// Two types of one name, of which the second leads to what is sniffed.
static OGG: [DirTexts<'static>; 1] = [DirTexts {
    globs2: b"50:audio/ogg:*.ogg\n50:video/ogg:*.ogg\n",
    magic: b"MIME-Magic\0\n[50:application/ogg]\n>0=\0\x04OggS\n",
    subclasses: b"audio/ogg x/a\nx/a audio/ogg\nvideo/ogg x/a\nvideo/ogg application/ogg\n",
    ..EMPTY
}];

/// The answer to a name and a content, of which nothing is known.
pub fn type_of(
    alloc: Global,
    dirs: &[DirTexts<'_>],
    file: &[u8],
    content: Option<&[u8]>,
) -> Result<OwnedAnswer, AnswerFault> {
    let mut content = content;
    let (host, order) = (Host::Little, Order::GlobsFirst);
    answer(alloc, dirs, file, &mut content, host, order)
}

/// The directories give the name and the content this type, and that much of the content is read.
fn is_answered(
    rt: &impl Abort,
    alloc: Global,
    dirs: &[DirTexts<'_>],
    file: &[u8],
    content: Option<&[u8]>,
    kind: &[u8],
    read: u64,
) -> Result<(), Fail> {
    let name = str::from_utf8(kind)?;
    let found = type_of(alloc, dirs, file, content)?;
    alike(rt, name, found.kind.as_slice(), kind);
    alike(rt, name, found.read, read);
    Ok(())
}

#[test]
fn no_directories(rt: HostRuntime) -> Result<(), Fail> {
    is_answered(
        &rt,
        rt.alloc(),
        &[],
        b"a",
        None,
        b"application/octet-stream",
        0,
    )?;
    is_answered(&rt, rt.alloc(), &[], b"a", Some(b"hi\n"), b"text/plain", 3)
}

#[test]
fn globs_alone(rt: HostRuntime) -> Result<(), Fail> {
    let kind = b"application/x-compressed-tar";
    is_answered(
        &rt,
        rt.alloc(),
        &TARS,
        b"Data.tar.gz",
        Some(b"text"),
        kind,
        0,
    )
}

#[test]
fn a_marker(rt: HostRuntime) -> Result<(), Fail> {
    is_answered(&rt, rt.alloc(), &MARKED, b"f.new", None, b"t/a", 0)?;
    is_answered(
        &rt,
        rt.alloc(),
        &MARKED,
        b"f.old",
        None,
        b"application/octet-stream",
        0,
    )
}

#[test]
fn types_that_conflict(rt: HostRuntime) -> Result<(), Fail> {
    is_answered(
        &rt,
        rt.alloc(),
        &OGG,
        b"a.ogg",
        Some(b"OggS"),
        b"video/ogg",
        4,
    )
}

/// The second directory's magic is refused.
static REFUSED: [DirTexts<'static>; 2] = [
    EMPTY,
    DirTexts {
        magic: b"MIME",
        ..EMPTY
    },
];

#[test]
fn a_refused_magic_is_named(rt: HostRuntime) {
    let found = type_of(rt.alloc(), &REFUSED, b"a", None);
    let fault = MagicFault::Malformed {
        kind: MagicFaultKind::NoHeader,
        offset: 0,
    };
    let wanted = Some(AnswerFault::Magic(1, fault));
    alike(&rt, "the second magic", found.err(), wanted);
}

/// A name one byte past the limit.
static LONG: [u8; 4_097] = [b'a'; 4_097];

#[test]
fn a_name_may_be_too_long(rt: HostRuntime) {
    let found = type_of(rt.alloc(), &[], &LONG, None);
    let stopped = Stopped {
        cause: Cause::NameTooLong,
        read: 0,
        meter: Meter::new(),
    };
    let wanted = Some(AnswerFault::Lookup(stopped));
    alike(&rt, "4,097 bytes", found.err(), wanted);
}
