//! The nodes that a name counts of an index, counted by hand: a clause bounds them from above alone.

use super::{database_of, unprepared_index_of};
use crate::tests::checked::alike;
use mime_base::{Database, Host};
use mime_lookup::{Cause, Order, look_up_indexed};
use mime_samples::texts::{EMPTY, Texts};
use std::alloc::Global;
use std::process::Abort;

/// An ending, whose text is two nodes; a text that ends at its second node, and a general pattern.
static FEW: [Texts<'static>; 1] = [Texts {
    globs2: b"50:t/c:*.c\n50:t/make:makefile\n50:t/mine:m[ak]*\n",
    ..EMPTY
}];

/// Of most rules the general pattern is asked, and no node is counted.
static GENERAL: [Texts<'static>; 1] = [Texts {
    globs2: b"50:t/c:*.c\n50:t/make:m?\n50:t/mine:m[ak]*\n",
    ..EMPTY
}];

/// A step and its node for each byte, the node of each ending, and a step for each rule; where no text matches, those of the
/// first byte and of any.
static COUNTED: [(&str, &[u8], Order, u64); 8] = [
    ("no byte", b"", Order::GlobsFirst, 3),
    ("an ending that no text has", b"b", Order::GlobsFirst, 4),
    ("an ending", b"a.c", Order::GlobsFirst, 7),
    ("a text that ends early", b"makefile", Order::GlobsFirst, 7),
    (
        "and one that only ends so",
        b"profile",
        Order::GlobsFirst,
        9,
    ),
    ("a general pattern", b"ma", Order::GlobsFirst, 5),
    (
        "all rules, of which the kept ones are the first",
        b"makefile",
        Order::AllGlobs,
        10,
    ),
    ("the content alone", b"makefile", Order::ContentOnly, 0),
];

/// The nodes that a name counts by an index of a database, or why there is no answer.
fn nodes_of(
    rt: &impl Abort,
    alloc: Global,
    database: &Database,
    name: &[u8],
    order: Order,
) -> Result<u64, Cause> {
    let index = unprepared_index_of(rt, alloc, database);
    let mut none: Option<&[u8]> = None;
    match look_up_indexed(alloc, &index, name, &mut none, Host::Little, order) {
        Ok(answer) => Ok(answer.meter.nodes),
        Err(stopped) => Err(stopped.cause),
    }
}

#[test]
fn steps_of_a_name(rt: HostRuntime) {
    let database = database_of(&rt, rt.alloc(), &FEW);
    for &(what, name, order, nodes) in &COUNTED {
        let found = nodes_of(&rt, rt.alloc(), &database, name, order);
        alike(&rt, what, found, Ok(nodes));
    }
}

#[test]
fn general_patterns_are_no_steps(rt: HostRuntime) {
    let database = database_of(&rt, rt.alloc(), &GENERAL);
    let nodes = nodes_of(&rt, rt.alloc(), &database, b"makefile", Order::GlobsFirst);
    alike(&rt, "by the lists", nodes, Ok(0));
}
