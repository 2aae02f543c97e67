//! A content that comes in pieces, with an interruption before each of its reads in turn, or with a read that fails.

use super::{
    Asked, Outcome, are_answered_alike, cache_of, is_outcome, look_up_cache, look_up_lists,
};
use mime_base::Database;
use mime_lookup::{Cause, Script, Step};
use std::alloc::Global;
use std::process::Abort;

/// How many pieces a content has at most where its reads are interrupted or fail.
const MOST: usize = 8;

/// The pieces of a content, each of that many bytes but the last.
fn pieces_of<'a>(rt: &impl Abort, alloc: Global, content: &'a [u8], size: usize) -> Vec<Step<'a>> {
    let mut pieces = Vec::new(alloc);
    for piece in content.chunks(size.max(1)) {
        pieces.push(Step::Piece(piece)).expect(rt, "room");
    }
    pieces
}

/// The pieces with another step before one of them, or after all.
fn with<'a>(
    rt: &impl Abort,
    alloc: Global,
    pieces: &[Step<'a>],
    step: Step<'a>,
    at: usize,
) -> Vec<Step<'a>> {
    let mut steps = Vec::from_slice(alloc, pieces).expect(rt, "room");
    steps.insert(at.min(pieces.len()), step).expect(rt, "room");
    steps
}

/// The outcome is the same whether the content comes at once, byte by byte, or in other pieces.
pub fn is_answered_in_pieces(
    rt: &impl Abort,
    alloc: Global,
    database: &Database,
    asked: &Asked<'_>,
    content: &[u8],
) {
    for size in [1, 3, 64, content.len()] {
        let pieces = pieces_of(rt, alloc, content, size);
        is_answered_by(rt, alloc, database, asked, &pieces);
    }
}

/// The outcome is the same where one of the reads is interrupted, each in turn.
pub fn is_interrupted(
    rt: &impl Abort,
    alloc: Global,
    database: &Database,
    asked: &Asked<'_>,
    content: &[u8],
) {
    let pieces = pieces_of(rt, alloc, content, content.len() / MOST + 1);
    for at in 0..=pieces.len() {
        let steps = with(rt, alloc, &pieces, Step::Interruption, at);
        is_answered_by(rt, alloc, database, asked, &steps);
    }
}

/// The outcome is the same where the reads follow these steps.
fn is_answered_by(
    rt: &impl Abort,
    alloc: Global,
    database: &Database,
    asked: &Asked<'_>,
    steps: &[Step<'_>],
) {
    let script = Some(Script::new(steps));
    are_answered_alike(rt, alloc, database, asked, (script, script))
}

/// Where a read fails, each in turn, the lookup stops with what was read before, unless all that it reads came before.
pub fn is_refused_by_failures(
    rt: &impl Abort,
    alloc: Global,
    database: &Database,
    asked: &Asked<'_>,
    content: &[u8],
) {
    let cache = cache_of(rt, alloc, database);
    let size = content.len() / MOST + 1;
    let pieces = pieces_of(rt, alloc, content, size);
    for at in 0..=pieces.len() {
        let before = content.len().min(size.saturating_mul(at));
        let steps = with(rt, alloc, &pieces, Step::Fault, at);
        fails_or_answers(rt, alloc, (database, &cache), asked, &steps, before);
    }
}

/// The same where the reads follow these steps, of which one fails after that many bytes.
fn fails_or_answers(
    rt: &impl Abort,
    alloc: Global,
    (database, cache): (&Database, &[u8]),
    asked: &Asked<'_>,
    steps: &[Step<'_>],
    before: usize,
) {
    let (file, host, order) = (asked.file, asked.host, asked.order);
    let mut script = Some(Script::new(steps));
    let found = look_up_lists(alloc, database, file, &mut script, host, order);
    is_failure_or_answer(rt, asked, found, before);
    let mut script = Some(Script::new(steps));
    let found = look_up_cache(alloc, cache, file, &mut script, host, order);
    is_failure_or_answer(rt, asked, found, before);
}

/// The outcome is a failed read after that many bytes, or the ordinary one where no more than these bytes are needed.
fn is_failure_or_answer(rt: &impl Abort, asked: &Asked<'_>, found: Outcome<'_>, before: usize) {
    let before = before as u64;
    if found.is_ok() && is_enough(asked.outcome, before) {
        is_outcome(rt, asked.name, "before a failure", found, asked.outcome);
    } else {
        let failed = Err((Cause::Read, before));
        is_outcome(rt, asked.name, "at a failure", found, failed);
    }
}

/// Whether no more than that many bytes are needed.
fn is_enough(outcome: Outcome<'_>, before: u64) -> bool {
    match outcome {
        Ok((_, read)) => read <= before,
        Err(_) => false,
    }
}
