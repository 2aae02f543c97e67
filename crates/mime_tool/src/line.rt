//! The line of a FILE, or why it has none. This project's own.

ghost use Rattle.std.specs.Prelude.{◌≡◌, IfOk, [], string_bytes};
ghost use Rattle.clap.specs.Walk.{texts};
ghost use Rattle.mime_tool.specs.Desk.{Does, EndsOverFiles, Works};
ghost use Rattle.mime_tool.specs.Line.{IsAskedKind, IsTypeLine, base_name, inode_name};
ghost use Rattle.mime_tool.specs.Files.{Stored};
ghost use Rattle.mime_tool.specs.LineSteps.{ComesTo, IsContent, IsOfSource, LooksUpFile, LooksUpHere, plain_lookup, run_of, tail_of_cost};
ghost use Rattle.mime_tool.specs.Output.{answer_end, answer_of, separator, written};
ghost use Rattle.mime_tool.specs.Run.{IsEach, printed, refusal, unanswered};
ghost use Rattle.mime_tool.specs.Types.{cost_text};
ghost use Rattle.mime_tool.specs.Words.{names_of};

mod again;
mod escape;
mod lookup;
mod watched;

use crate::desk::{Desk, Opened, report};
use crate::files::Inode;
use crate::preparing::{Payments, Prepared};
use crate::status::{ANSWERED, NOT_ANSWERED};
use crate::stop::Stop;
use crate::words::{RawWord, name_of};
pub(crate) use escape::escaped;
use lookup::free;
pub(crate) use lookup::{Cost, Data, Lookup, asked_order, find, name_for};
use memchr::memrchr;
use mime_base::OutOfMemory;
use mime_lookup::Content;
use mime_request::Output;
use std::alloc::{AllocError, Global};
use watched::Watched;

/// What a FILE comes to.
#[derive(Clone, Copy)]
pub(crate) enum Outcome<'a> {
    /// It has this type, at this cost.
    Typed(&'a [u8], Cost),
    CannotOpen,
    NameTooLong,
    CannotRead,
}

/// Prints the lines of the files in order, each by the name of its text.
pub(crate) fn print_lines<D: Desk>(
    desk: &mut D,
    lookup: Lookup<'_, '_>,
    files: &[&str],
    raws: &[RawWord<'_>],
) -> Result<u8, Stop>
    // Each file has its line in order, or a message that says why it has none.
    ensures { Works (EndsOverFiles (IsEach (IsTypeLine (plain_lookup lookup.entry) (D.state desk.old).stored))
        (names_of raws.now (texts files.now))) (D.state desk.old) (D.state desk.new) result }
{
    let mut prepared = Prepared::new(lookup);
    let mut paid = Payments::new(lookup);
    print_each(desk, &mut prepared, &mut paid, files, raws)
}

// Prints the lines of the files that are left.
fn print_each<D: Desk>(
    desk: &mut D,
    prepared: &mut Prepared<'_, '_>,
    paid: &mut Payments,
    files: &[&str],
    raws: &[RawWord<'_>],
) -> Result<u8, Stop>
    requires { IsOfSource prepared.old }
    ensures { Works (EndsOverFiles (IsEach (IsTypeLine (plain_lookup prepared.old.lookup) (D.state desk.old).stored))
        (names_of raws.now (texts files.now))) (D.state desk.old) (D.state desk.new) result }
{
    let mut status = ANSWERED;
    for file in files {
        status = status.max(print_line(desk, prepared, paid, name_of(raws, file))?);
    }
    Ok(status)
}

/// Prints the line of one file, or says why there is none, and counts what that visited. What is paid for is prepared before.
pub(crate) fn print_line<D: Desk>(
    desk: &mut D,
    prepared: &mut Prepared<'_, '_>,
    paid: &mut Payments,
    file: &[u8],
) -> Result<u8, Stop>
    // What was prepared is of the cache or the database that is looked up in.
    requires { IsOfSource prepared.old }
    // It is looked up as without what was prepared.
    ensures line { Works (EndsOverFiles (λ _. IsTypeLine (plain_lookup prepared.old.lookup) (D.state desk.old).stored file.now) [])
        (D.state desk.old) (D.state desk.new) result }
    // So is the next one.
    ensures lookup { prepared.new.lookup ≡ prepared.old.lookup }
    // What is prepared then is of it too.
    ensures prepared { IsOfSource prepared.new }
{
    prepared.prepare_due(desk.alloc(), paid);
    let lookup = prepared.lookup();
    let mut asked = false;
    let outcome = outcome_of(desk, lookup, file, &mut asked)?;
    paid.count(&outcome, asked);
    print_outcome(desk, lookup.output, file, outcome)
}

// What a file comes to: by its kind, where that is asked for and it is no regular file, or looked up. It says whether a content was
// asked for bytes.
// Always inlined: the outcome is not moved.
#[inline(always)]
fn outcome_of<'i, D: Desk>(
    desk: &mut D,
    lookup: Lookup<'i, '_>,
    file: &[u8],
    asked: &mut bool,
) -> Result<Outcome<'i>, Stop>
    ensures { Works (ComesTo (plain_lookup lookup.entry) ((D.state desk.old).stored file.now) file.now)
        (D.state desk.old) (D.state desk.new) result }
{
    match kind_of(desk, lookup.inode, file)? {
        Some(kind) => Ok(Outcome::Typed(inode_name(kind), free(lookup))),
        None => file_outcome(desk, lookup, file, asked),
    }
}

// The kind of what is no regular file, where it is asked for.
fn kind_of<D: Desk>(desk: &mut D, is_asked: bool, file: &[u8]) -> Result<Option<Inode>, OutOfMemory>
    ensures stays { D.state desk.new ≡ D.state desk.old }
    ensures kind { IfOk result (IsAskedKind is_asked ((D.state desk.old).stored file.now)) }
{
    if is_asked { desk.inode(file) } else { Ok(None) }
}

fn inode_name<'a>(kind: Inode) -> &'a [u8]
    ensures { result.now ≡ inode_name kind }
{
    match kind {
        Inode::Directory => b"inode/directory",
        Inode::CharDevice => b"inode/chardevice",
        Inode::BlockDevice => b"inode/blockdevice",
        Inode::Fifo => b"inode/fifo",
        Inode::Socket => b"inode/socket",
        Inode::Symlink => b"inode/symlink",
    }
}

// What a file that is looked up comes to. It is opened first, unless its name alone is asked for.
// Always inlined, as its caller is.
#[inline(always)]
fn file_outcome<'i, D: Desk>(
    desk: &mut D,
    lookup: Lookup<'i, '_>,
    file: &[u8],
    asked: &mut bool,
) -> Result<Outcome<'i>, Stop>
    ensures { Works (LooksUpHere (plain_lookup lookup.entry) ((D.state desk.old).stored file.now) file.now)
        (D.state desk.old) (D.state desk.new) result }
{
    let mut content: Option<D::Reader> = None;
    if !lookup.name_only {
        match desk.open(file)? {
            Opened::File(reader) => content = Some(reader),
            Opened::Folder => return Ok(Outcome::CannotRead),
            Opened::Shut => return Ok(Outcome::CannotOpen),
        }
    }
    find_watched(desk.alloc(), lookup, file, content, asked)
}

// What a file comes to, and whether its content was asked for bytes.
// Always inlined, as its caller is.
#[inline(always)]
fn find_watched<'i, R: Content + Drop>(
    alloc: Global,
    lookup: Lookup<'i, '_>,
    file: &[u8],
    content: Option<R>,
    asked: &mut bool,
) -> Result<Outcome<'i>, Stop>
    ensures { (stored : Stored) → IsContent R.remaining R.health lookup.entry.name_only stored content
        → LooksUpFile (plain_lookup lookup.entry) stored file.now result }
{
    let mut watched = Watched::of(content);
    let outcome = find(alloc, lookup, file, &mut watched);
    *asked = Watched::was_asked(&watched);
    outcome
}

/// Prints what a file came to, with its name as it is to be written.
// Always inlined, as are those that it calls: the outcome is not moved.
#[inline(always)]
pub(crate) fn print_outcome<D: Desk>(
    desk: &mut D,
    output: Output,
    file: &[u8],
    outcome: Outcome<'_>,
) -> Result<u8, Stop>
    // It prints the line of an answer, and the message of a fault.
    ensures { Works (EndsOverFiles (λ _ run. run ≡ run_of output (written output file.now) outcome.entry) [])
        (D.state desk.old) (D.state desk.new) result }
{
    if output.escape {
        let name = escaped(desk.alloc(), file)?;
        print_named(desk, output, name.as_slice(), outcome)
    } else {
        print_named(desk, output, file, outcome)
    }
}

// The same, where the file's name is written so.
// Always inlined, as its caller is.
#[inline(always)]
fn print_named<D: Desk>(
    desk: &mut D,
    output: Output,
    name: &[u8],
    outcome: Outcome<'_>,
) -> Result<u8, Stop>
    ensures { Works (EndsOverFiles (λ _ run. run ≡ run_of output name.now outcome.entry) [])
        (D.state desk.old) (D.state desk.new) result }
{
    match outcome {
        Outcome::Typed(kind, cost) => print_type(desk, output, name, kind, cost),
        Outcome::CannotOpen => refuse(desk, name, "cannot open"),
        Outcome::NameTooLong => refuse(desk, name, "name too long"),
        Outcome::CannotRead => refuse(desk, name, "cannot read"),
    }
}

// Always inlined, as its caller is.
#[inline(always)]
fn print_type<D: Desk>(
    desk: &mut D,
    output: Output,
    name: &[u8],
    kind: &[u8],
    cost: Cost,
) -> Result<u8, Stop>
    ensures { Works (EndsOverFiles (λ _ run. run ≡ printed (answer_of output name.now (written output kind.now) (tail_of_cost cost))) [])
        (D.state desk.old) (D.state desk.new) result }
{
    print_kind(desk, output, name, kind, cost)?;
    Ok(ANSWERED)
}

// Always inlined, as its caller is.
#[inline(always)]
fn print_kind<D: Desk>(
    desk: &mut D,
    output: Output,
    name: &[u8],
    kind: &[u8],
    cost: Cost,
) -> Result<(), Stop>
    ensures { Works (Does (printed (answer_of output name.now (written output kind.now) (tail_of_cost cost))))
        (D.state desk.old) (D.state desk.new) result }
{
    if output.escape {
        let kind = escaped(desk.alloc(), kind)?;
        print_told(desk, output, name, kind.as_slice(), cost)
    } else {
        print_told(desk, output, name, kind, cost)
    }
}

// The type is written so.
// Always inlined, as its caller is.
#[inline(always)]
fn print_told<D: Desk>(
    desk: &mut D,
    output: Output,
    name: &[u8],
    kind: &[u8],
    cost: Cost,
) -> Result<(), Stop>
    ensures { Works (Does (printed (answer_of output name.now kind.now (tail_of_cost cost))))
        (D.state desk.old) (D.state desk.new) result }
{
    if cost.is_told {
        let tail = told(desk.alloc(), cost)?;
        print_pieces(desk, output, name, kind, tail.as_bytes())
    } else {
        print_pieces(desk, output, name, kind, b"")
    }
}

fn told(alloc: Global, cost: Cost) -> Result<String, AllocError>
    ensures { IfOk result (λ text. string_bytes text ≡ cost_text cost.meter cost.read) }
{
    let Cost {
        is_told: _,
        meter,
        read,
    } = cost;
    let (nodes, bytes) = (meter.nodes, meter.bytes);
    format!(in alloc; " nodes={nodes} bytes={bytes} read={read}")
}

// Always inlined, as its caller is.
#[inline(always)]
fn print_pieces<'a, D: Desk>(
    desk: &mut D,
    output: Output,
    name: &'a [u8],
    kind: &'a [u8],
    tail: &'a [u8],
) -> Result<(), Stop>
    ensures { Works (Does (printed (answer_of output name.now kind.now tail.now)))
        (D.state desk.old) (D.state desk.new) result }
{
    let end = answer_end(output);
    if output.brief {
        desk.print(&[kind, tail, end])
    } else {
        desk.print(&[name, separator(output), kind, tail, end])
    }
}

/// What stands between a FILE and its TYPE.
pub(crate) fn separator<'a>(output: Output) -> &'a [u8]
    // It follows from how the output is asked for.
    ensures { result.now ≡ separator output }
{
    if output.null { b"\0" } else { b": " }
}

/// What ends an answer.
pub(crate) fn answer_end<'a>(output: Output) -> &'a [u8]
    // It follows from how the output is asked for.
    ensures { result.now ≡ answer_end output }
{
    if output.null { b"\0" } else { b"\n" }
}

/// Says why a file has no line.
pub(crate) fn refuse<D: Desk>(desk: &mut D, file: &[u8], why: &str) -> Result<u8, Stop>
    // The message names the file and why, and the file counts as one that wasn't answered.
    ensures { Works (EndsOverFiles (λ _ run. run ≡ unanswered (refusal file.now why.now)) [])
        (D.state desk.old) (D.state desk.new) result }
{
    report(desk, file, why)?;
    Ok(NOT_ANSWERED)
}

// What stands after the last slash.
fn base_name(file: &[u8]) -> &[u8]
    ensures { result.now ≡ base_name file.entry.now }
{
    match memrchr(b'/', file) {
        Some(slash) => &file[slash + 1..],
        None => file,
    }
}
