//! The command `check`: whether a cache spells a database, and how much there is of it.
//!
//! The command, the names of the counts and those of the parts are this project's own.

ghost use Rattle.std.specs.Prelude.{◌≡◌, IfOk, [], string_bytes, ⊤};
ghost use Rattle.mime_load.specs.Lent.{plain_lists};
ghost use Rattle.mime_request.specs.Request.{plain_source};
ghost use Rattle.mime_tool.specs.Cache.{GivesOrRefuses};
ghost use Rattle.mime_tool.specs.Check.{IsCheck, IsCheckOver, IsFew, IsTold, ReadsBack, RefusesToOpen, count_lines, first_lines, no_database};
ghost use Rattle.mime_tool.specs.Desk.{Does, EndsOverFiles, Works};
ghost use Rattle.mime_tool.specs.Environment.{known_environment};
ghost use Rattle.mime_tool.specs.Run.{printed, refusal, unanswered};

mod counts;

use crate::cache::faulty;
use crate::desk::{Desk, report};
use crate::environment::Environment;
use crate::sources::{path_of, read_source};
use crate::status::{ANSWERED, NOT_ANSWERED};
use crate::stop::Stop;
use counts::{Counts, counts_of};
use mime_base::{Counted, Meter};
use mime_load::{Lists, LoadFault, Part, read_back};
use mime_request::Source;
use mime_view::Cache;
use std::alloc::{AllocError, Global};

/// Prints how much a cache has of each list, a line each, and gives the status: that of a file that was
/// answered. Where the cache opens and a part of it is not read back that is reported, and the status is
/// that of a file that wasn't answered.
pub(crate) fn check<D: Desk>(
    desk: &mut D,
    environment: Option<Environment<'_>>,
    source: &Source<'_>,
) -> Result<u8, Stop>
    // It prints how much the stored cache has, or says what is wrong with it.
    ensures { Works (EndsOverFiles (IsCheck (D.state desk.old).stored (known_environment environment.entry) (plain_source source.now)) [])
        (D.state desk.old) (D.state desk.new) result }
{
    let cache = read_source(desk, environment, source)?;
    check_cache(desk, path_of(source), cache.as_slice())
}

fn check_cache<D: Desk>(desk: &mut D, path: &str, cache: &[u8]) -> Result<u8, Stop>
    ensures { Works (EndsOverFiles (IsCheckOver path.now cache.now) [])
        (D.state desk.old) (D.state desk.new) result }
{
    open(desk.alloc(), path, cache)?;
    let read = lists_of(desk.alloc(), cache);
    tell(desk, path, &read)
}

/// Whether the cache opens.
pub(crate) fn open(alloc: Global, path: &str, cache: &[u8]) -> Result<(), Stop>
    // It opens, or the fault of the cache is told with its path.
    ensures { GivesOrRefuses path.now (RefusesToOpen cache.now) (λ _. ⊤) result }
{
    let mut meter = Meter::new();
    match Cache::open(Counted::new(cache), &mut meter) {
        Ok(_) => Ok(()),
        Err(fault) => Err(faulty(alloc, path, fault)),
    }
}

/// The lists that the cache spells.
pub(crate) fn lists_of<'a>(alloc: Global, cache: &'a [u8]) -> Result<Lists<'a>, LoadFault>
    // They are the lists of a database that the cache spells; or it spells none, and the first part that isn't read back is named.
    ensures { ReadsBack cache.entry.now result }
{
    let mut meter = Meter::new();
    read_back(alloc, &Counted::new(cache), &mut meter)
}

// Prints what was read back, or says what was not.
fn tell<D: Desk>(desk: &mut D, path: &str, read: &Result<Lists<'_>, LoadFault>) -> Result<u8, Stop>
    requires few { IfOk read.now (λ lists. IsFew (plain_lists lists)) }
    ensures { Works (EndsOverFiles (λ _. IsTold path.now read.now) []) (D.state desk.old) (D.state desk.new) result }
{
    match read {
        Ok(lists) => print_counts(desk, counts_of(lists)),
        Err(LoadFault::NoDatabase(part)) => refuse(desk, path, *part),
        Err(LoadFault::OutOfMemory) => Err(Stop::OutOfMemory),
    }
}

fn print_counts<D: Desk>(desk: &mut D, counts: Counts) -> Result<u8, Stop>
    ensures { Works (EndsOverFiles (λ _ run. run ≡ printed (count_lines counts)) [])
        (D.state desk.old) (D.state desk.new) result }
{
    let text = text_of(desk.alloc(), counts)?;
    print_text(desk, text.as_str())?;
    Ok(ANSWERED)
}

// The lines that are printed.
fn text_of(alloc: Global, counts: Counts) -> Result<String, AllocError>
    ensures { IfOk result (λ text. string_bytes text ≡ count_lines counts) }
{
    let Counts {
        sections,
        lines,
        icons,
        generic_icons,
        ..
    } = counts;
    let first = first_lines(alloc, counts)?;
    format!(in alloc;
        "{first}sections {sections}\nlines {lines}\nicons {icons}\ngeneric-icons {generic_icons}\n"
    )
}

// Those of rules, aliases and subclasses.
fn first_lines(alloc: Global, counts: Counts) -> Result<String, AllocError>
    ensures { IfOk result (λ text. string_bytes text ≡ first_lines counts) }
{
    let Counts {
        rules,
        aliases,
        subclasses,
        ..
    } = counts;
    format!(in alloc; "rules {rules}\naliases {aliases}\nsubclasses {subclasses}\n")
}

fn print_text<D: Desk>(desk: &mut D, text: &str) -> Result<(), Stop>
    ensures { Works (Does (printed text.now)) (D.state desk.old) (D.state desk.new) result }
{
    desk.print(&[text.as_bytes()])
}

/// Says which part is not read back.
pub(crate) fn refuse<D: Desk>(desk: &mut D, path: &str, part: Part) -> Result<u8, Stop>
    // The message names the part, and the file counts as one that wasn't answered.
    ensures { Works (EndsOverFiles (λ _ run. run ≡ unanswered (refusal path.now (no_database part))) [])
        (D.state desk.old) (D.state desk.new) result }
{
    report(desk, path.as_bytes(), no_database(part))?;
    Ok(NOT_ANSWERED)
}

fn no_database(part: Part) -> &'static str
    ensures { result.now ≡ no_database part }
{
    match part {
        Part::Header => "no database: header",
        Part::Aliases => "no database: aliases",
        Part::Subclasses => "no database: subclasses",
        Part::Literals => "no database: literals",
        Part::Suffixes => "no database: suffixes",
        Part::Globs => "no database: globs",
        Part::Magic => "no database: magic",
        Part::Icons => "no database: icons",
        Part::GenericIcons => "no database: generic icons",
    }
}
