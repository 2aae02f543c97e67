//! Files and outputs that fail under the commands over a cache.

use super::entries_beside;
use crate::tests::ran::{Taken, is_taken_over, says, sound};
use mime_fakes::{FailingShelf, FailingSink, Said, Shelf};
use mime_samples::caches::SAMPLE;
use mime_tool::{FileFault, SinkFault};
use std::alloc::Global;
use std::process::Abort;
use std::test::Fail;

const LIST: &[&str] = &["list", "-c", "/c"];

const CHECK: &[&str] = &["check", "-c", "/c"];

const IS_A: &[&str] = &["isa", "-c", "/c", "t/h", "t/m"];

const ICON: &[&str] = &["icon", "-c", "/c", "t/h"];

const TYPE: &[&str] = &["type", "-c", "/c", "/x", "/missing", "/mk"];

const MISSING: &str = "mimelook: /missing: cannot open\n";

const CANNOT_READ: &str = "mimelook: /c: cannot read\n";

const CANNOT_WRITE: &str = "mimelook: cannot write output\n";

const NO_MEMORY: &str = "mimelook: out of memory\n";

/// Words, how many calls of the files are met before one fails out of memory or otherwise, and what comes of it.
struct Row {
    name: &'static str,
    words: &'static [&'static str],
    calls: usize,
    fault: FileFault,
    status: u8,
    out: &'static str,
    err: &'static str,
}

const ROW: Row = Row {
    name: "",
    words: TYPE,
    calls: 0,
    fault: FileFault::Failed,
    status: 3,
    out: "",
    err: CANNOT_READ,
};

const NO_ROOM: Row = Row {
    fault: FileFault::OutOfMemory,
    status: 4,
    err: NO_MEMORY,
    ..ROW
};

static ROWS: [Row; 17] = [
    Row {
        name: "list, no cache",
        words: LIST,
        ..ROW
    },
    Row {
        name: "check, no cache",
        words: CHECK,
        ..ROW
    },
    Row {
        name: "isa, no cache",
        words: IS_A,
        ..ROW
    },
    Row {
        name: "icon, no cache",
        words: ICON,
        ..ROW
    },
    Row {
        name: "type, no cache",
        ..ROW
    },
    Row {
        name: "list, no memory for the cache",
        words: LIST,
        ..NO_ROOM
    },
    Row {
        name: "check, no memory for the cache",
        words: CHECK,
        ..NO_ROOM
    },
    Row {
        name: "isa, no memory for the cache",
        words: IS_A,
        ..NO_ROOM
    },
    Row {
        name: "icon, no memory for the cache",
        words: ICON,
        ..NO_ROOM
    },
    Row {
        name: "type, no memory for the cache",
        ..NO_ROOM
    },
    Row {
        name: "the first file fails",
        calls: 1,
        status: 1,
        out: "/mk: t/m\n",
        err: "mimelook: /x: cannot open\nmimelook: /missing: cannot open\n",
        ..ROW
    },
    Row {
        name: "the missing file fails",
        calls: 2,
        status: 1,
        out: "/x: t/g\n/mk: t/m\n",
        err: MISSING,
        ..ROW
    },
    Row {
        name: "the last file fails",
        calls: 3,
        status: 1,
        out: "/x: t/g\n",
        err: "mimelook: /missing: cannot open\nmimelook: /mk: cannot open\n",
        ..ROW
    },
    Row {
        name: "no memory for the first file",
        calls: 1,
        ..NO_ROOM
    },
    Row {
        name: "no memory for the missing file",
        calls: 2,
        out: "/x: t/g\n",
        ..NO_ROOM
    },
    Row {
        name: "no memory for the last file",
        calls: 3,
        out: "/x: t/g\n",
        err: "mimelook: /missing: cannot open\nmimelook: out of memory\n",
        ..NO_ROOM
    },
    Row {
        name: "no fourth file is opened",
        calls: 4,
        status: 1,
        out: "/x: t/g\n/mk: t/m\n",
        err: MISSING,
        ..ROW
    },
];

#[test]
fn comes_to_its_row_where_a_file_fails(rt: HostRuntime) -> Result<(), Fail> {
    for row in &ROWS {
        comes_to(&rt, rt.alloc(), row)?;
    }
    Ok(())
}

fn comes_to(rt: &impl Abort, alloc: Global, row: &Row) -> Result<(), Fail> {
    let entries = entries_beside(&SAMPLE);
    let mut files = FailingShelf {
        shelf: Shelf { entries: &entries },
        calls: row.calls,
        fault: row.fault,
    };
    let wanted = Said {
        status: row.status,
        out: row.out,
        err: row.err,
    };
    says(rt, alloc, row.name, row.words, &mut files, wanted)
}

/// Words, what they put on standard output, call by call, with nothing for the flush before a message, how much that hands on, and
/// what is said.
struct Puts {
    name: &'static str,
    words: &'static [&'static str],
    pieces: &'static [&'static str],
    handed_on: usize,
    said: &'static str,
}

static PUTS: [Puts; 5] = [
    Puts {
        name: "list",
        words: LIST,
        pieces: &[
            "50", ":", "t/m", ":", "mk", "\n", "50", ":", "t/g", ":", "*.gz", "\n",
        ],
        handed_on: 0,
        said: "",
    },
    Puts {
        name: "check",
        words: CHECK,
        pieces: &[
            "rules 2\naliases 1\nsubclasses 1\nsections 1\nlines 1\nicons 0\ngeneric-icons 0\n",
        ],
        handed_on: 0,
        said: "",
    },
    Puts {
        name: "isa",
        words: IS_A,
        pieces: &["yes\n"],
        handed_on: 0,
        said: "",
    },
    Puts {
        name: "icon",
        words: ICON,
        pieces: &["icon: ", "t-g", "\ngeneric: ", "t-x-generic", "\n"],
        handed_on: 0,
        said: "",
    },
    Puts {
        name: "type",
        words: TYPE,
        pieces: &["/x", ": ", "t/g", "\n", "", "/mk", ": ", "t/m", "\n"],
        handed_on: 8,
        said: MISSING,
    },
];

/// A fault of standard output, and how the run stops then.
type Stop = (SinkFault, u8, &'static str);

static STOPS: [Stop; 2] = [
    (SinkFault::Failed, 3, CANNOT_WRITE),
    (SinkFault::OutOfMemory, 4, NO_MEMORY),
];

// One call fails, and the rest are met: what was put before it stays.
#[test]
fn stops_at_each_write_over_a_cache(rt: HostRuntime) -> Result<(), Fail> {
    for puts in &PUTS {
        for stop in &STOPS {
            stops_at_each(&rt, rt.alloc(), puts, stop)?;
        }
    }
    Ok(())
}

fn stops_at_each(rt: &impl Abort, alloc: Global, puts: &Puts, stop: &Stop) -> Result<(), Fail> {
    let mut put = String::new(alloc);
    for calls in 0..=puts.pieces.len() {
        stops_at(rt, alloc, puts, stop, calls, put.as_str())?;
        put.push_str(puts.pieces.get(calls).unwrap_or(&""))?;
    }
    Ok(())
}

/// The first calls are met, then one fails. What was put before it is flushed, unless it is the last flush that fails.
fn stops_at(
    rt: &impl Abort,
    alloc: Global,
    puts: &Puts,
    stop: &Stop,
    calls: usize,
    put: &str,
) -> Result<(), Fail> {
    let (fault, status, why) = *stop;
    // The message on the missing file stands between its neighbours' lines.
    let said = if calls < 5 { "" } else { puts.said };
    let at = format!(in alloc; "{} at {calls}: {why}", puts.name)?;
    let message = format!(in alloc; "{said}{why}")?;
    let is_flushed = calls < puts.pieces.len();
    let wanted = Taken {
        status,
        out: put,
        flushed: if is_flushed {
            put.len()
        } else {
            puts.handed_on
        },
        err: message.as_str(),
    };
    let streams = (FailingSink::new(alloc, calls, 1, fault), sound(alloc));
    is_taken_of(rt, alloc, at.as_str(), puts.words, streams, wanted);
    Ok(())
}

/// A run over the sample, with these streams, ends so.
fn is_taken_of(
    rt: &impl Abort,
    alloc: Global,
    name: &str,
    words: &[&str],
    streams: (FailingSink, FailingSink),
    wanted: Taken<'_>,
) {
    let entries = entries_beside(&SAMPLE);
    is_taken_over(rt, alloc, name, words, &entries, streams, wanted);
}

/// A fault of standard error, how many calls are met before it, and what comes of it.
struct Message {
    name: &'static str,
    fault: SinkFault,
    calls: usize,
    status: u8,
    out: &'static str,
    err: &'static str,
}

static MESSAGES: [Message; 4] = [
    Message {
        name: "a fault of the bytes",
        fault: SinkFault::Failed,
        calls: 0,
        status: 1,
        out: "/x: t/g\n/mk: t/m\n",
        err: "",
    },
    Message {
        name: "a fault of the flush",
        fault: SinkFault::Failed,
        calls: 1,
        status: 1,
        out: "/x: t/g\n/mk: t/m\n",
        err: MISSING,
    },
    Message {
        name: "no memory for the bytes",
        fault: SinkFault::OutOfMemory,
        calls: 0,
        status: 4,
        out: "/x: t/g\n",
        err: "",
    },
    Message {
        name: "no memory for the flush",
        fault: SinkFault::OutOfMemory,
        calls: 1,
        status: 4,
        out: "/x: t/g\n",
        err: MISSING,
    },
];

#[test]
fn passes_over_faults_of_messages_over_a_cache(rt: HostRuntime) {
    for row in &MESSAGES {
        passes_over(&rt, rt.alloc(), row);
    }
}

/// What is printed, all of it, is flushed.
fn passes_over(rt: &impl Abort, alloc: Global, row: &Message) {
    let wanted = Taken {
        status: row.status,
        out: row.out,
        flushed: row.out.len(),
        err: row.err,
    };
    let err = FailingSink::new(alloc, row.calls, usize::MAX, row.fault);
    is_taken_of(rt, alloc, row.name, TYPE, (sound(alloc), err), wanted);
}
