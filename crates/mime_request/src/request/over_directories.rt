//! The commands over data directories.

ghost use Rattle.clap.specs.Words.{found_of, rows_of};
ghost use Rattle.mime_request.specs.Request.{Means, build_meaning, plain_meaning};

use super::Request;
use super::data::directories_of;
use super::flags::{is_given, options_of};
use super::found::{given, subjects_of};
use crate::command::FilesCommand;
use clap::{ArgMatches, Error};
use std::alloc::Global;

pub(super) fn request_of_build<'a>(
    alloc: Global,
    matches: &ArgMatches<'a>,
) -> Result<Request<'a>, Error>
    // The result is what `build` means by what clap found after it.
    ensures { Means (build_meaning (rows_of (found_of matches.now))) result }
{
    let file = given(alloc, matches, "output", "give -o FILE")?;
    let directories = directories_of(alloc, matches)?;
    Ok(Request::Build {
        directories,
        drop_twins: is_given(matches, "drop-twins"),
        file,
    })
}

pub(super) fn request_of_plain<'a>(
    alloc: Global,
    matches: &ArgMatches<'a>,
) -> Result<Request<'a>, Error>
    // The result is what `plain` means by what clap found after it.
    ensures { Means (plain_meaning (rows_of (found_of matches.now))) result }
{
    let options = options_of(alloc, matches)?;
    let subjects = subjects_of(alloc, FilesCommand::Plain, matches)?;
    let directories = directories_of(alloc, matches)?;
    Ok(Request::Plain {
        directories,
        options,
        subjects,
    })
}
