//! Names of the greatest length, and the most interruptions of a content's reads.

use super::{Asked, Outcome, are_answered_alike, of_globs};
use mime_base::{Database, Host};
use mime_lookup::{Cause, Order, Script, Step};
use std::alloc::Global;
use std::process::Abort;

/// A name whose content's type is asked.
fn asked(
    name: &'static str,
    file: &'static [u8],
    order: Order,
    outcome: Outcome<'static>,
) -> Asked<'static> {
    Asked {
        name,
        file,
        host: Host::Little,
        order,
        outcome,
    }
}

/// A content whose reads follow these steps gives this outcome.
fn is_read(
    rt: &impl Abort,
    alloc: Global,
    name: &'static str,
    steps: &[Step<'_>],
    outcome: Outcome<'static>,
) {
    let database = of_globs(rt, alloc, b"");
    let script = Some(Script::new(steps));
    let line = asked(name, b"a", Order::GlobsFirst, outcome);
    are_answered_alike(rt, alloc, &database, &line, (script, script));
}

#[test]
fn interrupted_reads(rt: HostRuntime) {
    let mut steps = [Step::Interruption; 1002];
    steps[1001] = Step::Piece(b"hi");
    let text = Ok((&b"text/plain"[..], 2));
    is_read(&rt, rt.alloc(), "1,000 interruptions", &steps[1..], text);
    let fault = Err((Cause::Read, 0));
    is_read(&rt, rt.alloc(), "1,001 interruptions", &steps, fault);
}

/// The longest name is looked up, and one of a byte more is too long.
fn is_limit(rt: &impl Abort, alloc: Global, database: &Database, order: Order) {
    let fault = Some(Script::new(&[Step::Fault]));
    let refused = Err((Cause::NameTooLong, 0));
    let too_long = asked("4,097 bytes", &[b'a'; 4097], order, refused);
    are_answered_alike(rt, alloc, database, &too_long, (fault, fault));
    let line = Some(&b"hi\n"[..]);
    let longest = asked("4,096 bytes", &[b'a'; 4096], order, Ok((b"text/plain", 3)));
    are_answered_alike(rt, alloc, database, &longest, (line, line));
}

#[test]
fn name_too_long(rt: HostRuntime) {
    let alloc = rt.alloc();
    let database = of_globs(&rt, alloc, b"50:t/m:mk\n");
    for order in [Order::GlobsFirst, Order::MagicFirst] {
        is_limit(&rt, alloc, &database, order);
    }
}
