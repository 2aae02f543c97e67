//! The command `explain`: the types of files, and why they have them.
//!
//! The command and the form of its lines are this project's own.

ghost use Rattle.std.specs.Prelude.{◌≡◌, [], IfOk, map};
ghost use Rattle.clap.specs.Walk.{texts};
ghost use Rattle.mime_load.specs.Lent.{plain_lists};
ghost use Rattle.mime_request.specs.Request.{plain_source};
ghost use Rattle.mime_tool.specs.Check.{IsReadBack, ReadsBack};
ghost use Rattle.mime_tool.specs.Desk.{Does, EndsOverFiles, Works};
ghost use Rattle.mime_tool.specs.Environment.{known_environment};
ghost use Rattle.mime_tool.specs.Explain.{IsExplain, IsExplainOver, IsExplainedBack, IsExplainedOrNot, explained_by};
ghost use Rattle.mime_tool.specs.ExplainSteps.{ComesToText, GivesText, IsReady, database_of, looks_of, run_of_text};
ghost use Rattle.mime_tool.specs.Files.{Stored};
ghost use Rattle.mime_tool.specs.Line.{IsTypeLine};
ghost use Rattle.mime_tool.specs.LineSteps.{IsContent};
ghost use Rattle.mime_tool.specs.Output.{written};
ghost use Rattle.mime_tool.specs.Run.{IsEach, printed};
ghost use Rattle.mime_tool.specs.Words.{names_of};

mod aliases;
mod content;
mod decision;
mod lines;
mod rules;

use crate::check::{lists_of, open, refuse};
use crate::desk::{Desk, Opened};
use crate::environment::Environment;
use crate::line::{Outcome, asked_order, name_for, print_outcome};
use crate::sources::{path_of, read_source};
use crate::status::ANSWERED;
use crate::stop::Stop;
use crate::words::{RawWord, name_of};
use content::front_of;
pub(crate) use decision::DecidedBy;
use lines::explanation;
use mime_base::LentRule;
use mime_load::{Lists, LoadFault};
use mime_lookup::{Cause, Content, LONGEST_NAME, Order};
use mime_request::{Options, Output, Source};
use rules::rules_of;
use std::alloc::Global;

/// A cache that was read back, and how it is asked.
#[derive(Clone, Copy)]
pub(crate) struct Explaining<'m, 'l, 'b> {
    pub(crate) bytes: &'b [u8],
    pub(crate) lists: &'l Lists<'b>,
    /// The rules of all lists.
    pub(crate) rules: &'m [LentRule<'l>],
    /// Whether the names alone decide: then no file is opened.
    pub(crate) name_only: bool,
    pub(crate) order: Order,
    pub(crate) output: Output,
}

/// What a FILE comes to.
#[derive(Drop)]
pub(crate) enum Explained {
    /// These are its lines.
    Lines(Vec<u8>),
    CannotOpen,
    NameTooLong,
    CannotRead,
}

/// Prints the type of each file, and below it what it comes from, and gives the status.
pub(crate) fn explain<D: Desk>(
    desk: &mut D,
    environment: Option<Environment<'_>>,
    source: &Source<'_>,
    options: Options,
    files: &[&str],
    raws: &[RawWord<'_>],
) -> Result<u8, Stop>
    // Each file has its lines in order, or a message that says why it has none.
    ensures { Works (EndsOverFiles (IsExplain (D.state desk.old).stored (known_environment environment.entry) (plain_source source.now) options)
        (names_of raws.now (texts files.now))) (D.state desk.old) (D.state desk.new) result }
{
    let cache = read_source(desk, environment, source)?;
    explain_by(
        desk,
        path_of(source),
        cache.as_slice(),
        options,
        files,
        raws,
    )
}

// By the bytes of a cache.
fn explain_by<D: Desk>(
    desk: &mut D,
    path: &str,
    bytes: &[u8],
    options: Options,
    files: &[&str],
    raws: &[RawWord<'_>],
) -> Result<u8, Stop>
    ensures { Works (EndsOverFiles (IsExplainOver (D.state desk.old).stored options path.now bytes.now)
        (names_of raws.now (texts files.now))) (D.state desk.old) (D.state desk.new) result }
{
    open(desk.alloc(), path, bytes)?;
    let read = lists_of(desk.alloc(), bytes);
    explain_read(desk, path, bytes, &read, options, files, raws)
}

// By what was read back of a cache, or says which part was not.
fn explain_read<'l, 'b: 'l, D: Desk>(
    desk: &mut D,
    path: &str,
    bytes: &'b [u8],
    read: &'l Result<Lists<'b>, LoadFault>,
    options: Options,
    files: &[&str],
    raws: &[RawWord<'_>],
) -> Result<u8, Stop>
    requires back { ReadsBack bytes.now read.now }
    ensures { Works (EndsOverFiles (IsExplainedOrNot (D.state desk.old).stored options path.now bytes.now)
        (names_of raws.now (texts files.now))) (D.state desk.old) (D.state desk.new) result }
{
    match read {
        Ok(lists) => explain_lists(desk, bytes, lists, options, files, raws),
        Err(LoadFault::NoDatabase(part)) => refuse(desk, path, *part),
        Err(LoadFault::OutOfMemory) => Err(Stop::OutOfMemory),
    }
}

// By the lists that were read back of a cache.
fn explain_lists<'l, 'b: 'l, D: Desk>(
    desk: &mut D,
    bytes: &'b [u8],
    lists: &'l Lists<'b>,
    options: Options,
    files: &[&str],
    raws: &[RawWord<'_>],
) -> Result<u8, Stop>
    requires back { IsReadBack bytes.now (plain_lists lists.now) }
    ensures { Works (EndsOverFiles (IsExplainedBack (D.state desk.old).stored options (plain_lists lists.now))
        (names_of raws.now (texts files.now))) (D.state desk.old) (D.state desk.new) result }
{
    let rules = rules_of(desk.alloc(), lists)?;
    let explaining = Explaining {
        bytes,
        lists,
        rules: rules.as_slice(),
        name_only: options.name_only,
        order: asked_order(options),
        output: options.output,
    };
    print_files(desk, explaining, files, raws)
}

// Prints the lines of the files in order, each by the name of its text.
fn print_files<D: Desk>(
    desk: &mut D,
    explaining: Explaining<'_, '_, '_>,
    files: &[&str],
    raws: &[RawWord<'_>],
) -> Result<u8, Stop>
    requires ready { IsReady explaining }
    ensures { Works (EndsOverFiles (IsEach (IsTypeLine (looks_of explaining.entry) (D.state desk.old).stored))
        (names_of raws.now (texts files.now))) (D.state desk.old) (D.state desk.new) result }
{
    let mut status = ANSWERED;
    for file in files {
        status = status.max(print_file(desk, explaining, name_of(raws, file))?);
    }
    Ok(status)
}

// Prints the lines of one file, or says why there are none.
fn print_file<D: Desk>(
    desk: &mut D,
    explaining: Explaining<'_, '_, '_>,
    file: &[u8],
) -> Result<u8, Stop>
    requires ready { IsReady explaining }
    ensures { Works (EndsOverFiles (λ _. IsTypeLine (looks_of explaining.entry) (D.state desk.old).stored file.now) [])
        (D.state desk.old) (D.state desk.new) result }
{
    let explained = explained_of(desk, explaining, file)?;
    print_explained(desk, explaining.output, file, &explained)
}

// What a file comes to. It is opened first, unless its name alone is asked for.
fn explained_of<D: Desk>(
    desk: &mut D,
    explaining: Explaining<'_, '_, '_>,
    file: &[u8],
) -> Result<Explained, Stop>
    requires ready { IsReady explaining }
    ensures { Works (ComesToText (looks_of explaining.entry) ((D.state desk.old).stored file.now) file.now)
        (D.state desk.old) (D.state desk.new) result }
{
    let mut content: Option<D::Reader> = None;
    if !explaining.name_only {
        match desk.open(file)? {
            Opened::File(reader) => content = Some(reader),
            Opened::Folder => return Ok(Explained::CannotRead),
            Opened::Shut => return Ok(Explained::CannotOpen),
        }
    }
    find(desk.alloc(), explaining, file, &mut content)
}

// What a file comes to by its name and its content, which is read as far as magic can look.
fn find<R: Content + Drop>(
    alloc: Global,
    explaining: Explaining<'_, '_, '_>,
    file: &[u8],
    content: &mut Option<R>,
) -> Result<Explained, Stop>
    requires ready { IsReady explaining }
    ensures { (stored : Stored) → IsContent R.remaining R.health explaining.entry.name_only stored content.old
        → GivesText (looks_of explaining.entry) stored file.now result }
{
    if name_for(explaining.order, file).len() > LONGEST_NAME {
        return Ok(Explained::NameTooLong);
    }
    match front_of(alloc, explaining.lists, content) {
        Ok(front) => {
            let lines = explanation(alloc, explaining, file, front.as_deref())?;
            Ok(Explained::Lines(lines))
        }
        Err(Cause::Read) => Ok(Explained::CannotRead),
        Err(_) => Err(Stop::OutOfMemory),
    }
}

// Prints what a file came to.
fn print_explained<D: Desk>(
    desk: &mut D,
    output: Output,
    file: &[u8],
    explained: &Explained,
) -> Result<u8, Stop>
    ensures { Works (EndsOverFiles (λ _ run. run ≡ run_of_text (written output file.now) explained.now) [])
        (D.state desk.old) (D.state desk.new) result }
{
    match explained {
        Explained::Lines(lines) => print_lines(desk, lines.as_slice()),
        Explained::CannotOpen => print_outcome(desk, output, file, Outcome::CannotOpen),
        Explained::NameTooLong => print_outcome(desk, output, file, Outcome::NameTooLong),
        Explained::CannotRead => print_outcome(desk, output, file, Outcome::CannotRead),
    }
}

fn print_lines<D: Desk>(desk: &mut D, lines: &[u8]) -> Result<u8, Stop>
    ensures { Works (EndsOverFiles (λ _ run. run ≡ printed lines.now) [])
        (D.state desk.old) (D.state desk.new) result }
{
    print_bytes(desk, lines)?;
    Ok(ANSWERED)
}

fn print_bytes<D: Desk>(desk: &mut D, bytes: &[u8]) -> Result<(), Stop>
    ensures { Works (Does (printed bytes.now)) (D.state desk.old) (D.state desk.new) result }
{
    desk.print(&[bytes])
}
