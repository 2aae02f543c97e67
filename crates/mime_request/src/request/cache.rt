//! The commands over a cache.

ghost use Rattle.clap.specs.Words.{found_of, rows_of};
ghost use Rattle.mime_request.specs.Request.{Means, check_meaning, explain_meaning, icon_meaning, is_a_meaning, list_meaning, type_meaning};

use super::Request;
use super::data::source_of;
use super::flags::options_of;
use super::found::{files_of, given, subjects_of};
use crate::command::FilesCommand;
use clap::{ArgMatches, Error};
use std::alloc::Global;

const GIVE_TYPE: &str = "give a TYPE";

pub(super) fn request_of_list<'a>(
    alloc: Global,
    matches: &ArgMatches<'a>,
) -> Result<Request<'a>, Error>
    // The result is what `list` means by what clap found after it.
    ensures { Means (list_meaning (rows_of (found_of matches.now))) result }
{
    let source = source_of(alloc, matches)?;
    Ok(Request::List { source })
}

pub(super) fn request_of_check<'a>(
    alloc: Global,
    matches: &ArgMatches<'a>,
) -> Result<Request<'a>, Error>
    // The result is what `check` means by what clap found after it.
    ensures { Means (check_meaning (rows_of (found_of matches.now))) result }
{
    let source = source_of(alloc, matches)?;
    Ok(Request::Check { source })
}

pub(super) fn request_of_explain<'a>(
    alloc: Global,
    matches: &ArgMatches<'a>,
) -> Result<Request<'a>, Error>
    // The result is what `explain` means by what clap found after it.
    ensures { Means (explain_meaning (rows_of (found_of matches.now))) result }
{
    let source = source_of(alloc, matches)?;
    let options = options_of(alloc, matches)?;
    let files = files_of(alloc, matches)?;
    Ok(Request::Explain {
        source,
        options,
        files,
    })
}

pub(super) fn request_of_is_a<'a>(
    alloc: Global,
    matches: &ArgMatches<'a>,
) -> Result<Request<'a>, Error>
    // The result is what `isa` means by what clap found after it.
    ensures { Means (is_a_meaning (rows_of (found_of matches.now))) result }
{
    let source = source_of(alloc, matches)?;
    let kind = given(alloc, matches, "type", GIVE_TYPE)?;
    let base = given(alloc, matches, "base", "give a BASE")?;
    Ok(Request::IsA { source, kind, base })
}

pub(super) fn request_of_icon<'a>(
    alloc: Global,
    matches: &ArgMatches<'a>,
) -> Result<Request<'a>, Error>
    // The result is what `icon` means by what clap found after it.
    ensures { Means (icon_meaning (rows_of (found_of matches.now))) result }
{
    let source = source_of(alloc, matches)?;
    let kind = given(alloc, matches, "type", GIVE_TYPE)?;
    Ok(Request::Icon { source, kind })
}

pub(super) fn request_of_type<'a>(
    alloc: Global,
    matches: &ArgMatches<'a>,
) -> Result<Request<'a>, Error>
    // The result is what `type` means by what clap found after it.
    ensures { Means (type_meaning (rows_of (found_of matches.now))) result }
{
    let source = source_of(alloc, matches)?;
    let options = options_of(alloc, matches)?;
    let subjects = subjects_of(alloc, FilesCommand::Type, matches)?;
    Ok(Request::Type {
        source,
        options,
        subjects,
    })
}
