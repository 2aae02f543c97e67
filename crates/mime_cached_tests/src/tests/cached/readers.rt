//! Contents in pieces, with interruptions and faults, that tell their failures or tell nothing.

use super::{Outcome, look_up_in};
use crate::tests::checked::alike;
use mime_base::Host;
use mime_lookup::{Cause, Order, Script, Step, Untold};
use mime_samples::caches::{SAMPLE, changed};
use std::alloc::Global;
use std::process::Abort;

/// What reads of a content meet, and what the sample answers to a name then.
#[derive(Drop)]
struct Row<'a> {
    name: &'static str,
    file: &'static [u8],
    steps: &'a [Step<'static>],
    order: Order,
    outcome: Outcome<'static>,
}

static PIECES: [Step<'static>; 3] = [
    Step::Piece(&[0x1f]),
    Step::Piece(&[0x8b]),
    Step::Piece(&[8]),
];

static ROWS: [Row<'static>; 5] = [
    Row {
        name: "an ending, a read that fails",
        file: b"A.GZ",
        steps: &[Step::Fault],
        order: Order::GlobsFirst,
        outcome: Ok((b"t/g", 0)),
    },
    Row {
        name: "a literal, a read that fails",
        file: b"mk",
        steps: &[Step::Fault],
        order: Order::GlobsFirst,
        outcome: Ok((b"t/m", 0)),
    },
    Row {
        name: "a literal, a read that fails, magic first",
        file: b"mk",
        steps: &[Step::Fault],
        order: Order::MagicFirst,
        outcome: Err((Cause::Read, 0)),
    },
    Row {
        name: "a fault after a byte",
        file: b"x",
        steps: &[Step::Piece(&[0x1f]), Step::Fault],
        order: Order::GlobsFirst,
        outcome: Err((Cause::Read, 1)),
    },
    Row {
        name: "three pieces, an interruption between each two",
        file: b"x",
        steps: &[
            Step::Piece(&[0x1f]),
            Step::Interruption,
            Step::Piece(&[0x8b]),
            Step::Interruption,
            Step::Piece(&[8]),
        ],
        order: Order::GlobsFirst,
        outcome: Ok((b"t/g", 3)),
    },
];

/// A content of these steps is answered by the row's outcome, whether it tells its failures or not.
fn is_answered(rt: &impl Abort, alloc: Global, cache: &[u8], row: &Row<'_>) {
    let (file, host, order) = (row.file, Host::Little, row.order);
    let mut told = Some(Script::new(row.steps));
    let found = look_up_in(rt, alloc, cache, file, &mut told, host, order);
    alike(rt, row.name, ("told", found), ("told", row.outcome));
    let mut untold = Some(Untold(Script::new(row.steps)));
    let found = look_up_in(rt, alloc, cache, file, &mut untold, host, order);
    alike(rt, row.name, ("untold", found), ("untold", row.outcome));
}

#[test]
fn rows(rt: HostRuntime) {
    for row in &ROWS {
        is_answered(&rt, rt.alloc(), &SAMPLE, row);
    }
}

#[test]
fn an_extent_past_all_contents(rt: HostRuntime) {
    let row = Row {
        name: "the greatest extent",
        file: b"x",
        steps: &[Step::Piece(&[0x1f, 0x8b, 8])],
        order: Order::GlobsFirst,
        outcome: Ok((b"t/g", 3)),
    };
    is_answered(&rt, rt.alloc(), &changed(SAMPLE, 152, u32::MAX), &row);
}

/// The three pieces with another step before one of them, or before the end.
fn with(step: Step<'static>, at: usize) -> [Step<'static>; 4] {
    let mut steps = [step; 4];
    for (place, piece) in PIECES.iter().enumerate() {
        let moved = if place < at { place } else { place + 1 };
        steps[moved] = *piece;
    }
    steps
}

/// The reads of the three pieces, and how many bytes came before.
static READS: [(&str, u64); 4] = [
    ("the first read", 0),
    ("the second read", 1),
    ("the third read", 2),
    ("the read at the end", 3),
];

#[test]
fn each_read_fails(rt: HostRuntime) {
    for (at, (name, read)) in READS.iter().enumerate() {
        let row = Row {
            name: *name,
            file: b"x",
            steps: &with(Step::Fault, at),
            order: Order::GlobsFirst,
            outcome: Err((Cause::Read, *read)),
        };
        is_answered(&rt, rt.alloc(), &SAMPLE, &row);
    }
}

#[test]
fn each_read_is_interrupted(rt: HostRuntime) {
    for (at, (name, _)) in READS.iter().enumerate() {
        let row = Row {
            name: *name,
            file: b"x",
            steps: &with(Step::Interruption, at),
            order: Order::GlobsFirst,
            outcome: Ok((b"t/g", 3)),
        };
        is_answered(&rt, rt.alloc(), &SAMPLE, &row);
    }
}
