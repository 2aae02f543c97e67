//! The texts of help, of what is wrong with a command line, and of public errors.

mod help;
mod mistakes;

use crate::tests::ran::{alike, says_over};
use mime_fakes::Said;
use mime_tool::{FileFault, SinkFault};
use std::alloc::Global;
use std::fmt::Display;
use std::process::Abort;
use std::test::Fail;

/// Words, and the whole texts that answer them.
#[derive(Clone, Copy)]
struct Row<'a> {
    name: &'a str,
    words: &'a [&'a str],
    status: u8,
    out: &'a str,
    err: &'a str,
}

/// What was asked for is printed.
const PRINTED: Row<'static> = Row {
    name: "",
    words: &[],
    status: 0,
    out: "",
    err: "",
};

/// What is wrong with the words is said.
const SAID: Row<'static> = Row {
    status: 2,
    ..PRINTED
};

/// Each row is answered by its texts, without a file.
fn are_answered(rt: &impl Abort, alloc: Global, rows: &[Row<'_>]) -> Result<(), Fail> {
    for row in rows {
        let wanted = Said {
            status: row.status,
            out: row.out,
            err: row.err,
        };
        says_over(rt, alloc, row.name, row.words, &[], wanted)?;
    }
    Ok(())
}

/// An error is told so.
fn is_told(
    rt: &impl Abort,
    alloc: Global,
    error: impl Display + Drop,
    text: &str,
) -> Result<(), Fail> {
    let told = format!(in alloc; "{error}")?;
    alike(rt, text, told.as_str(), text);
    Ok(())
}

#[test]
fn names_public_errors(rt: HostRuntime) -> Result<(), Fail> {
    is_told(&rt, rt.alloc(), FileFault::Failed, "cannot read")?;
    is_told(&rt, rt.alloc(), FileFault::OutOfMemory, "out of memory")?;
    is_told(&rt, rt.alloc(), SinkFault::Failed, "cannot write")?;
    is_told(&rt, rt.alloc(), SinkFault::OutOfMemory, "out of memory")
}
