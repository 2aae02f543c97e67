//! Files and sinks that fail.

use crate::tests::ran::{Taken, alike, is_taken_over, says, sound};
use arrayvec::ArrayVec;
use mime_fakes::{Entry, FailingFiles, FailingSink, Said, Slate, ran};
use mime_tool::{FileFault, Sink, SinkFault};
use std::alloc::Global;
use std::process::Abort;
use std::test::Fail;

static ENTRIES: &[(&str, Entry<'static>)] = &[(
    "/s/mime/globs2",
    Entry::Bytes(b"50:t/a:*.a\nnothing\n"),
)];

static WORDS: [&str; 7] = ["plain", "--name-only", "-d", "/s", "x.a", "y", "z.a"];

// What is put on standard output, call by call, after the flush that comes before the message; after it comes another.
static PIECES: [&str; 13] = [
    "",
    "x.a",
    ": ",
    "t/a",
    "\n",
    "y",
    ": ",
    "application/octet-stream",
    "\n",
    "z.a",
    ": ",
    "t/a",
    "\n",
];

const OUTPUT: &str = "x.a: t/a\ny: application/octet-stream\nz.a: t/a\n";

const IGNORED: &str = "mimelook: /s/mime/globs2: line 2 ignored\n";

const CANNOT_WRITE: &str = "mimelook: cannot write output\n";

const NO_MEMORY: &str = "mimelook: out of memory\n";

const CANNOT_READ: Said<'static> = Said {
    status: 3,
    out: "",
    err: "mimelook: /s/mime/globs2: cannot read\n",
};

const OUT_OF_MEMORY: Said<'static> = Said {
    status: 4,
    out: "",
    err: NO_MEMORY,
};

static OF_FILES: [(&str, FileFault, Said<'static>); 2] = [
    ("failed", FileFault::Failed, CANNOT_READ),
    ("no memory", FileFault::OutOfMemory, OUT_OF_MEMORY),
];

#[test]
fn names_what_files_fail_with(rt: HostRuntime) -> Result<(), Fail> {
    for &(name, fault, wanted) in &OF_FILES {
        let mut files = FailingFiles(fault);
        says(&rt, rt.alloc(), name, &WORDS, &mut files, wanted)?;
    }
    Ok(())
}

/// A run is out of memory, and prints nothing.
fn is_out_of_memory<E: Sink>(rt: &impl Abort, alloc: Global, err: &mut E) {
    let mut out = Vec::new(alloc);
    let mut files = FailingFiles(FileFault::OutOfMemory);
    let status = ran(alloc, &WORDS, &mut files, &mut out, err);
    alike(rt, "status", status, 4);
    alike(rt, "printed", out.is_empty(), true);
}

// Standard error is told of it whole where it has room for all of it, and isn't where it lacks one byte.
#[test]
fn says_out_of_memory_where_there_is_room(rt: HostRuntime) {
    let mut just = Slate::<24>(ArrayVec::new());
    is_out_of_memory(&rt, rt.alloc(), &mut just);
    alike(&rt, "24 bytes", just.0.as_slice(), NO_MEMORY.as_bytes());
    let mut less = Slate::<23>(ArrayVec::new());
    is_out_of_memory(&rt, rt.alloc(), &mut less);
    alike(&rt, "23 bytes", less.0.as_slice(), b"");
}

/// Faults of standard output, how many calls meet one, and how the run stops then.
struct Row {
    name: &'static str,
    times: usize,
    fault: SinkFault,
    status: u8,
    message: &'static str,
}

static FAULTS: [Row; 4] = [
    Row {
        name: "one fault",
        times: 1,
        fault: SinkFault::Failed,
        status: 3,
        message: CANNOT_WRITE,
    },
    Row {
        name: "faults",
        times: usize::MAX,
        fault: SinkFault::Failed,
        status: 3,
        message: CANNOT_WRITE,
    },
    Row {
        name: "no memory once",
        times: 1,
        fault: SinkFault::OutOfMemory,
        status: 4,
        message: NO_MEMORY,
    },
    Row {
        name: "no memory",
        times: usize::MAX,
        fault: SinkFault::OutOfMemory,
        status: 4,
        message: NO_MEMORY,
    },
];

/// A run over the rules, with these streams, ends so.
fn is_taken(
    rt: &impl Abort,
    alloc: Global,
    name: &str,
    words: &[&str],
    streams: (FailingSink, FailingSink),
    wanted: Taken<'_>,
) {
    is_taken_over(rt, alloc, name, words, ENTRIES, streams, wanted);
}

/// The first calls are met, then one fails, or all of them from there on. What was put before it stays, whole, and is
/// flushed where the sink lets it.
fn stops(rt: &impl Abort, alloc: Global, row: &Row, calls: usize, put: &str) -> Result<(), Fail> {
    let at = format!(in alloc; "{} at {calls}", row.name)?;
    let ignored = if calls == 0 { "" } else { IGNORED };
    let said = format!(in alloc; "{ignored}{}", row.message)?;
    let is_flushed = row.times == 1 && calls < PIECES.len();
    let wanted = Taken {
        status: row.status,
        out: put,
        flushed: if is_flushed { put.len() } else { 0 },
        err: said.as_str(),
    };
    let out = FailingSink::new(alloc, calls, row.times, row.fault);
    is_taken(rt, alloc, at.as_str(), &WORDS, (out, sound(alloc)), wanted);
    Ok(())
}

/// A run stops at each call in turn.
fn stops_at_each(rt: &impl Abort, alloc: Global, row: &Row) -> Result<(), Fail> {
    let mut put = String::new(alloc);
    for calls in 0..=PIECES.len() {
        stops(rt, alloc, row, calls, &put)?;
        put.push_str(PIECES.get(calls).unwrap_or(&""))?;
    }
    alike(rt, row.name, put.as_str(), OUTPUT);
    Ok(())
}

#[test]
fn stops_at_each_failing_write(rt: HostRuntime) -> Result<(), Fail> {
    for row in &FAULTS {
        stops_at_each(&rt, rt.alloc(), row)?;
    }
    Ok(())
}

#[test]
fn flushes_all_lines(rt: HostRuntime) {
    let wanted = Taken {
        status: 0,
        out: OUTPUT,
        flushed: OUTPUT.len(),
        err: IGNORED,
    };
    let streams = (sound(rt.alloc()), sound(rt.alloc()));
    is_taken(&rt, rt.alloc(), "no fault", &WORDS, streams, wanted);
}

/// A fault of standard error after that many calls, and what is printed and said then.
struct Message {
    name: &'static str,
    fault: SinkFault,
    calls: usize,
    status: u8,
    out: &'static str,
    err: &'static str,
}

// A message is two calls: its bytes, and a flush.
static MESSAGES: [Message; 4] = [
    Message {
        name: "a fault of the bytes",
        fault: SinkFault::Failed,
        calls: 0,
        status: 0,
        out: OUTPUT,
        err: "",
    },
    Message {
        name: "a fault of the flush",
        fault: SinkFault::Failed,
        calls: 1,
        status: 0,
        out: OUTPUT,
        err: IGNORED,
    },
    Message {
        name: "no memory for the bytes",
        fault: SinkFault::OutOfMemory,
        calls: 0,
        status: 4,
        out: "",
        err: "",
    },
    Message {
        name: "no memory for the flush",
        fault: SinkFault::OutOfMemory,
        calls: 1,
        status: 4,
        out: "",
        err: IGNORED,
    },
];

#[test]
fn passes_over_faults_of_messages(rt: HostRuntime) {
    let alloc = rt.alloc();
    for row in &MESSAGES {
        let wanted = Taken {
            status: row.status,
            out: row.out,
            flushed: row.out.len(),
            err: row.err,
        };
        let err = FailingSink::new(alloc, row.calls, usize::MAX, row.fault);
        is_taken(&rt, alloc, row.name, &WORDS, (sound(alloc), err), wanted);
    }
}

// Memory runs out at the message on the second file: the line of the first one is flushed.
#[test]
fn flushes_what_was_printed_before_memory_ran_out(rt: HostRuntime) -> Result<(), Fail> {
    let alloc = rt.alloc();
    let long = "a".repeat(alloc, 4_097)?;
    let line = "x: application/octet-stream\n";
    let wanted = Taken {
        status: 4,
        out: line,
        flushed: line.len(),
        err: NO_MEMORY,
    };
    let words = ["plain", "--name-only", "-d", "/e", "x", long.as_str(), "y"];
    let entries = [("/e/mime/globs2", Entry::Bytes(b""))];
    let err = FailingSink::new(alloc, 0, 1, SinkFault::OutOfMemory);
    is_taken_over(
        &rt,
        alloc,
        "no memory",
        &words,
        &entries,
        (sound(alloc), err),
        wanted,
    );
    Ok(())
}
