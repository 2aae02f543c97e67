//! Real files, and files, readers and writers that fail.

use crate::tests::ran::alike;
use mime_fakes::{Disk, Opened, Script, Step};
use mime_tool::{FileFault, Files, Sink, SinkFault, Stream, SystemFiles, read_whole};
use std::alloc::Global;
use std::io::ErrorKind;
use std::process::Abort;
use std::test::Fail;

/// The whole of a file of the system, of which nothing is known.
fn read_at(rt: &HostRuntime, path: &str) -> Result<Option<Vec<u8>>, FileFault> {
    SystemFiles::new(rt).whole(rt.alloc(), path)
}

#[test]
fn tells_missing_files_from_unreadable_ones(rt: HostRuntime) -> Result<(), Fail> {
    let linux = b"Linux\n".to_vec(rt.alloc())?;
    let system = read_at(&rt, "/proc/sys/kernel/ostype");
    alike(&rt, "ostype", system, Ok(Some(linux)));
    let missing = read_at(&rt, "/dev/no-such-file");
    alike(&rt, "no-such-file", missing, Ok(None));
    alike(&rt, "/", read_at(&rt, "/"), Err(FileFault::Folder));
    for path in ["/dev/null", "/dev/null/below"] {
        alike(&rt, path, read_at(&rt, path), Err(FileFault::Failed));
    }
    Ok(())
}

/// A path of the system, or files that fail or give so, and what opening comes to.
type Opening<T> = (T, Result<(), FileFault>);

const REFUSED: Result<(), FileFault> = Err(FileFault::Failed);

const NO_ROOM: Result<(), FileFault> = Err(FileFault::OutOfMemory);

static PATHS: [Opening<&str>; 5] = [
    ("/proc/sys/kernel/ostype", Ok(())),
    ("/dev/null", REFUSED),
    ("/", Err(FileFault::Folder)),
    ("/dev/no-such-file", REFUSED),
    ("/dev/null/below", REFUSED),
];

#[test]
fn opens_regular_files_alone(rt: HostRuntime) {
    let mut files = SystemFiles::new(&rt);
    for &(path, want) in &PATHS {
        let opened = files.open(rt.alloc(), path.as_bytes()).map(|_| ());
        alike(&rt, path, opened, want);
    }
}

// Such a path is refused, whatever file may have it.
#[test]
fn opens_no_path_that_is_not_text(rt: HostRuntime) {
    let path = b"/proc/sys/kernel/ostype\xff";
    let opened = SystemFiles::new(&rt).open(rt.alloc(), path).map(|_| ());
    alike(&rt, "Latin-1", opened, REFUSED);
}

const DENIED: ErrorKind = ErrorKind::PermissionDenied;

const MEMORY: ErrorKind = ErrorKind::OutOfMemory;

static DISKS: [(&str, Opening<Disk>); 11] = [
    ("missing", (Disk::Hides(ErrorKind::NotFound), REFUSED)),
    ("gone since", (Disk::Fails(ErrorKind::NotFound), REFUSED)),
    ("hidden", (Disk::Hides(DENIED), REFUSED)),
    ("no memory to look", (Disk::Hides(MEMORY), NO_ROOM)),
    ("denied", (Disk::Fails(DENIED), REFUSED)),
    ("interrupted", (Disk::Fails(INTERRUPTED), REFUSED)),
    ("no memory", (Disk::Fails(MEMORY), NO_ROOM)),
    ("not to be looked at", (UNKNOWN, REFUSED)),
    ("no memory to look at it", (UNKNOWABLE, NO_ROOM)),
    ("too long to be read whole", (ENDLESS, Ok(()))),
    ("unreadable", (UNREADABLE, Ok(()))),
];

const UNKNOWN: Disk = Disk::Gives(Opened {
    size: Err(DENIED),
    read: None,
});

const UNKNOWABLE: Disk = Disk::Gives(Opened {
    size: Err(MEMORY),
    read: None,
});

const ENDLESS: Disk = Disk::Gives(Opened {
    size: Ok(u64::MAX),
    read: None,
});

const UNREADABLE: Disk = Disk::Gives(Opened {
    size: Ok(1),
    read: Some(MEMORY),
});

// Opening looks at what a file is and at the opening, and not at the size.
#[test]
fn names_what_opening_fails_with(rt: HostRuntime) {
    for &(name, (disk, want)) in &DISKS {
        let opened = SystemFiles::new(&disk).open(rt.alloc(), b"a").map(|_| ());
        alike(&rt, name, opened, want);
    }
}

// The longest file that is read whole, in bytes.
const LONGEST: u64 = 4_294_967_296;

const FAILED: Result<bool, FileFault> = Err(FileFault::Failed);

const NO_MEMORY: Result<bool, FileFault> = Err(FileFault::OutOfMemory);

/// Files that fail or give so, and whether there is a file then, or its fault. What is read of one is
/// nothing.
struct Whole {
    name: &'static str,
    disk: Disk,
    want: Result<bool, FileFault>,
}

static WHOLE: [Whole; 19] = [
    Whole {
        name: "missing",
        disk: Disk::Hides(ErrorKind::NotFound),
        want: Ok(false),
    },
    Whole {
        name: "gone since",
        disk: Disk::Fails(ErrorKind::NotFound),
        want: Ok(false),
    },
    Whole {
        name: "hidden",
        disk: Disk::Hides(ErrorKind::PermissionDenied),
        want: FAILED,
    },
    Whole {
        name: "denied",
        disk: Disk::Fails(ErrorKind::PermissionDenied),
        want: FAILED,
    },
    Whole {
        name: "no folder",
        disk: Disk::Fails(ErrorKind::NotADirectory),
        want: FAILED,
    },
    Whole {
        name: "interrupted",
        disk: Disk::Fails(ErrorKind::Interrupted),
        want: FAILED,
    },
    Whole {
        name: "other",
        disk: Disk::Fails(ErrorKind::Other),
        want: FAILED,
    },
    Whole {
        name: "no memory to open",
        disk: Disk::Fails(ErrorKind::OutOfMemory),
        want: NO_MEMORY,
    },
    Whole {
        name: "empty",
        disk: Disk::Gives(Opened {
            size: Ok(0),
            read: None,
        }),
        want: Ok(true),
    },
    Whole {
        name: "longest",
        disk: Disk::Gives(Opened {
            size: Ok(LONGEST),
            read: None,
        }),
        want: Ok(true),
    },
    Whole {
        name: "one longer",
        disk: Disk::Gives(Opened {
            size: Ok(LONGEST + 1),
            read: None,
        }),
        want: FAILED,
    },
    Whole {
        name: "one longer isn't read",
        disk: Disk::Gives(Opened {
            size: Ok(LONGEST + 1),
            read: Some(ErrorKind::OutOfMemory),
        }),
        want: FAILED,
    },
    Whole {
        name: "far longer",
        disk: Disk::Gives(Opened {
            size: Ok(u64::MAX),
            read: Some(ErrorKind::OutOfMemory),
        }),
        want: FAILED,
    },
    Whole {
        name: "longest is read",
        disk: Disk::Gives(Opened {
            size: Ok(LONGEST),
            read: Some(ErrorKind::OutOfMemory),
        }),
        want: NO_MEMORY,
    },
    Whole {
        name: "no size",
        disk: Disk::Gives(Opened {
            size: Err(ErrorKind::PermissionDenied),
            read: None,
        }),
        want: FAILED,
    },
    Whole {
        name: "no memory for the size",
        disk: Disk::Gives(Opened {
            size: Err(ErrorKind::OutOfMemory),
            read: None,
        }),
        want: NO_MEMORY,
    },
    Whole {
        name: "denied read",
        disk: Disk::Gives(Opened {
            size: Ok(1),
            read: Some(ErrorKind::PermissionDenied),
        }),
        want: FAILED,
    },
    Whole {
        name: "missing read",
        disk: Disk::Gives(Opened {
            size: Ok(1),
            read: Some(ErrorKind::NotFound),
        }),
        want: FAILED,
    },
    Whole {
        name: "no memory to read",
        disk: Disk::Gives(Opened {
            size: Ok(1),
            read: Some(ErrorKind::OutOfMemory),
        }),
        want: NO_MEMORY,
    },
];

#[test]
fn names_what_the_system_fails_with(rt: HostRuntime) {
    for row in &WHOLE {
        let whole = SystemFiles::new(&row.disk).whole(rt.alloc(), "a");
        let is_there = whole.map(|file| file.is_some());
        alike(&rt, row.name, is_there, row.want);
    }
}

const INTERRUPTED: ErrorKind = ErrorKind::Interrupted;

/// A limit in bytes, what a reader meets, and how many bytes are read, or the fault.
type Reading = (
    &'static str,
    usize,
    &'static [Step],
    Result<usize, FileFault>,
);

static READS: [Reading; 10] = [
    ("a limit of 0", 0, &[Step::Bytes(1)], Err(FileFault::Failed)),
    ("nothing", 9, &[], Ok(0)),
    ("up to the limit", 9, &[Step::Bytes(9)], Ok(9)),
    (
        "one past the limit",
        9,
        &[Step::Bytes(10)],
        Err(FileFault::Failed),
    ),
    (
        "as many interruptions as are tried again",
        9,
        &[Step::Faults(1_000, INTERRUPTED), Step::Bytes(2)],
        Ok(2),
    ),
    (
        "one interruption more",
        9,
        &[Step::Faults(1_001, INTERRUPTED)],
        Err(FileFault::Failed),
    ),
    (
        "one more, in two parts",
        9,
        &[
            Step::Faults(600, INTERRUPTED),
            Step::Bytes(2),
            Step::Faults(401, INTERRUPTED),
        ],
        Err(FileFault::Failed),
    ),
    (
        "a fault in the middle",
        9,
        &[
            Step::Bytes(2),
            Step::Faults(1, ErrorKind::PermissionDenied),
            Step::Bytes(2),
        ],
        Err(FileFault::Failed),
    ),
    (
        "a fault at the limit",
        9,
        &[Step::Bytes(9), Step::Faults(1, ErrorKind::Other)],
        Err(FileFault::Failed),
    ),
    (
        "no memory",
        9,
        &[Step::Bytes(2), Step::Faults(1, ErrorKind::OutOfMemory)],
        Err(FileFault::OutOfMemory),
    ),
];

#[test]
fn reads_whole_files_up_to_their_limits(rt: HostRuntime) {
    for &(name, limit, steps, want) in &READS {
        let read = read_whole(rt.alloc(), limit, &mut Script::new(steps));
        alike(&rt, name, read.map(|bytes| bytes.len()), want);
    }
}

// A stream that is given two bytes.
static PUTS: [(&str, &[Step], Result<(), SinkFault>); 6] = [
    ("both are taken", &[Step::Bytes(2)], Ok(())),
    ("one is taken", &[Step::Bytes(1)], Err(SinkFault::Failed)),
    (
        "an interruption is tried again",
        &[Step::Bytes(1), Step::Faults(1, INTERRUPTED), Step::Bytes(1)],
        Ok(()),
    ),
    (
        "a fault",
        &[Step::Faults(1, ErrorKind::StorageFull)],
        Err(SinkFault::Failed),
    ),
    (
        "a fault after one",
        &[Step::Bytes(1), Step::Faults(1, ErrorKind::BrokenPipe)],
        Err(SinkFault::Failed),
    ),
    (
        "no memory",
        &[Step::Faults(1, ErrorKind::OutOfMemory)],
        Err(SinkFault::OutOfMemory),
    ),
];

// A stream that is flushed.
static FLUSHES: [(&str, &[Step], Result<(), SinkFault>); 4] = [
    ("it is flushed", &[], Ok(())),
    (
        "a fault",
        &[Step::Faults(1, ErrorKind::StorageFull)],
        Err(SinkFault::Failed),
    ),
    (
        "an interruption",
        &[Step::Faults(1, INTERRUPTED)],
        Err(SinkFault::Failed),
    ),
    (
        "no memory",
        &[Step::Faults(1, ErrorKind::OutOfMemory)],
        Err(SinkFault::OutOfMemory),
    ),
];

/// Two bytes are put on streams of these steps.
fn are_put(rt: &impl Abort) {
    for &(name, steps, want) in &PUTS {
        let mut stream = Stream(Script::new(steps));
        alike(rt, name, stream.put(b"hi"), want);
    }
}

/// Streams of these steps are flushed.
fn are_flushed(rt: &impl Abort) {
    for &(name, steps, want) in &FLUSHES {
        let mut stream = Stream(Script::new(steps));
        alike(rt, name, stream.flush(), want);
    }
}

static FULL_ONCE: [Step; 1] = [Step::Faults(1, ErrorKind::StorageFull)];

#[test]
fn passes_on_each_failure_of_a_stream(rt: HostRuntime) {
    are_put(&rt);
    are_flushed(&rt);
    let mut full = Stream(Script::new(&FULL_ONCE));
    alike(&rt, "a full disk", full.flush(), Err(SinkFault::Failed));
    alike(&rt, "what is flushed again", full.flush(), Ok(()));
}

/// Files that fail or give so, and the fault of replacing one.
static REPLACED: [(&str, Disk, FileFault); 3] = [
    ("denied", Disk::Fails(DENIED), FileFault::Failed),
    ("no memory", Disk::Fails(MEMORY), FileFault::OutOfMemory),
    ("no write", EMPTY, FileFault::Failed),
];

const EMPTY: Disk = Disk::Gives(Opened {
    size: Ok(0),
    read: None,
});

/// Each disk gives its fault.
fn are_not_replaced(rt: &impl Abort, alloc: Global) {
    for &(name, disk, want) in &REPLACED {
        let mut files = SystemFiles::new(&disk);
        let fault = files.replace(alloc, "c", ".new", b"x");
        alike(rt, name, fault, Err(want));
    }
}

/// What replacing a file of the system comes to.
fn replace_at(rt: &HostRuntime, path: &str) -> Result<(), FileFault> {
    SystemFiles::new(rt).replace(rt.alloc(), path, ".new", b"x")
}

#[test]
fn names_what_replacing_fails_with(rt: HostRuntime) {
    are_not_replaced(&rt, rt.alloc());
    for path in ["/proc/c", "/dev/null"] {
        alike(&rt, path, replace_at(&rt, path), Err(FileFault::Failed));
    }
    let folder = replace_at(&rt, "/dev");
    alike(&rt, "/dev", folder, Err(FileFault::Folder));
}
