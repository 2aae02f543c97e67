//! The flags that are given, and which of `type` and `plain` can't be given together.

ghost use Rattle.std.specs.Prelude.{◌≡◌, IfErr, IfOk, Some, codes, is_some, not, option_map};
ghost use Rattle.clap.specs.Words.{first_of, found_of, rows_of};
ghost use Rattle.clap.specs.Kinds.{HasKind};
ghost use Rattle.mime_request.specs.Flags.{agree, given_options, given_output, is_given, is_on};
ghost use Rattle.mime_request.specs.Request.{conflicts, options_in};

use super::found::{refusal, value_of};
use super::{Options, Output};
use clap::error::ErrorKind;
use clap::{ArgMatches, Error};
use std::alloc::Global;

// The options that are given, or an error where two of them can't be given together.
pub(super) fn options_of(alloc: Global, matches: &ArgMatches<'_>) -> Result<Options, Error>
    // An option is on where its flag was found.
    ensures found { IfOk result (λ o. options_in (rows_of (found_of matches.now)) ≡ Some o) }

    // An error says that two of them can't be given together, or that memory ran out.
    ensures conflict { IfErr result (HasKind (conflicts (options_in (rows_of (found_of matches.now))))) }
{
    let options = given_options(matches);
    match disagreement(options) {
        Some(message) => Err(refusal(alloc, ErrorKind::ArgumentConflict, message)),
        None => Ok(options),
    }
}

fn given_options(matches: &ArgMatches<'_>) -> Options
    ensures { result ≡ given_options (rows_of (found_of matches.now)) }
{
    Options {
        name_only: is_given(matches, "name-only"),
        content_only: is_given(matches, "content-only"),
        magic_first: is_given(matches, "magic-first"),
        all_globs: is_given(matches, "all-globs"),
        inode: is_given(matches, "inode"),
        cost: is_given(matches, "cost"),
        output: given_output(matches),
    }
}

fn given_output(matches: &ArgMatches<'_>) -> Output
    ensures { result ≡ given_output (rows_of (found_of matches.now)) }
{
    Output {
        null: is_given(matches, "null"),
        brief: is_given(matches, "brief"),
        escape: is_given(matches, "escape"),
    }
}

// Whether the flag of this name was found.
pub(super) fn is_given(matches: &ArgMatches<'_>, id: &str) -> bool
    // It is on where clap found it.
    ensures { result ≡ is_given id.now (rows_of (found_of matches.now)) }
{
    is_on(value_of(matches, id))
}

fn is_on(flag: Option<&str>) -> bool
    ensures { result ≡ is_on (option_map (λ s. s.now) flag.entry) }
{
    match flag {
        Some(text) => text == "true",
        None => false,
    }
}

// Which options can't be given together, if some are.
fn disagreement(options: Options) -> Option<&'static str>
    ensures { is_some result ≡ not (agree options) }
{
    let Output {
        null,
        brief,
        escape,
    } = options.output;
    if escape && null {
        Some("give --escape or -0, not both")
    } else if options.cost && (null || brief) {
        Some("give --cost without -0 and -b")
    } else if options.magic_first && options.all_globs {
        Some("give --magic-first or --all-globs, not both")
    } else if options.content_only
        && (options.name_only || options.magic_first || options.all_globs)
    {
        Some("give --content-only without --name-only, --magic-first and --all-globs")
    } else {
        None
    }
}
