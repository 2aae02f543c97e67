//! Where the data come from: a cache, or data directories.

ghost use Rattle.std.specs.Prelude.{◌≡◌, IfErr, IfOk, Some, codes};
ghost use Rattle.clap.specs.Words.{first_of, found_of, rows_of};
ghost use Rattle.clap.specs.Walk.{texts};
ghost use Rattle.clap.specs.Kinds.{HasKind};
ghost use Rattle.mime_request.specs.Request.{conflicts, directories_in, parts, plain_directories, plain_source, source_in};

use super::found::{refusal, value_of};
use super::{Directories, Source};
use clap::error::ErrorKind;
use clap::{ArgMatches, Error};
use std::alloc::{AllocError, Global};

// The cache or the directories that are named, or the user's directories, or an error where both are.
pub(super) fn source_of<'a>(alloc: Global, matches: &ArgMatches<'a>) -> Result<Source<'a>, Error>
    // A source is the one that CACHE and DIRS name.
    ensures found { IfOk result (λ s. source_in (rows_of (found_of matches.now)) ≡ Some (plain_source s)) }

    // An error says that both are given, or that memory ran out.
    ensures conflict { IfErr result (HasKind (conflicts (source_in (rows_of (found_of matches.now))))) }
{
    let directories = directories_of(alloc, matches)?;
    match (value_of(matches, "cache"), directories) {
        (None, directories) => Ok(Source::Directories(directories)),
        (Some(cache), Directories::User) => Ok(Source::Cache(cache)),
        (Some(_), Directories::Named(_)) => {
            let message = "give -c CACHE or -d DIRS, not both";
            Err(refusal(alloc, ErrorKind::ArgumentConflict, message))
        }
    }
}

// The directories that are named, or the user's.
pub(super) fn directories_of<'a>(
    alloc: Global,
    matches: &ArgMatches<'a>,
) -> Result<Directories<'a>, AllocError>
    // They are the parts of DIRS, or the user's directories where it is missing.
    ensures { IfOk result (λ d. plain_directories d ≡ directories_in (rows_of (found_of matches.now))) }
{
    match value_of(matches, "dirs") {
        Some(dirs) => Ok(Directories::Named(parts(alloc, dirs)?)),
        None => Ok(Directories::User),
    }
}

// The parts of a list with colons, but for the empty ones.
fn parts<'a>(alloc: Global, dirs: &'a str) -> Result<Vec<&'a str>, AllocError>
    ensures { IfOk result (λ v. texts v.items ≡ parts dirs.entry.now) }
{
    dirs.split(':')
        .filter(|part| !part.is_empty())
        .collect(alloc)
}
