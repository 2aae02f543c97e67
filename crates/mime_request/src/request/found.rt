//! What clap found of an argument, and the errors where it found too little.

ghost use Rattle.std.specs.Prelude.{◌≡◌, IfErr, IfOk, Ok, Some, codes, option_map, [], ◌∷◌};
ghost use Rattle.clap.specs.Words.{all_of, first_of, found_of, rows_of, subcommand_rows_of};
ghost use Rattle.clap.specs.Walk.{texts};
ghost use Rattle.clap.specs.Kinds.{HasKind};
ghost use Rattle.clap.specs.Values.{kind_of};
ghost use Rattle.mime_request.specs.Request.{missing, plain_subjects, subjects_in, wrong};

use super::Subjects;
use crate::command::{FilesCommand, mimelook_command};
use clap::error::ErrorKind;
use clap::{ArgMatches, Command, Error};
use std::alloc::{AllocError, Global};

// The command that was met, and its matches.
pub(super) fn subcommand_of<'m, 'a>(
    matches: &'m ArgMatches<'a>,
) -> Option<(&'a str, &'m ArgMatches<'a>)>
    // It is the command that clap met, with what was found after it.
    ensures { option_map (λ p. (p.0.now, rows_of (found_of p.1.now))) result
        ≡ subcommand_rows_of matches.entry.now }
{
    matches.subcommand()
}

// The value of an argument that must be given, or an error with this message.
pub(super) fn given<'a>(
    alloc: Global,
    matches: &ArgMatches<'a>,
    id: &str,
    message: &str,
) -> Result<&'a str, Error>
    // A value is the first of this argument.
    ensures found { IfOk result (λ s. first_of id.now (rows_of (found_of matches.now))
        ≡ Some s.now) }

    // An error says that it is missing, or that memory ran out.
    ensures missing { IfErr result
        (HasKind (missing (first_of id.now (rows_of (found_of matches.now))))) }
{
    let Some(value) = value_of(matches, id) else {
        return Err(refusal(alloc, ErrorKind::MissingRequiredArgument, message));
    };
    Ok(value)
}

// The FILEs, standard input by its NAME, or the LIST of FILEs.
pub(super) fn subjects_of<'a>(
    alloc: Global,
    command: FilesCommand,
    matches: &ArgMatches<'a>,
) -> Result<Subjects<'a>, Error>
    // They are all FILEs that were found, in their order, or the NAME, or the LIST.
    ensures found { IfOk result (λ s. subjects_in (rows_of (found_of matches.now)) ≡ Ok (plain_subjects s)) }

    // An error says that two of these are given or none, or that memory ran out.
    ensures wrong { IfErr result (HasKind (wrong (subjects_in (rows_of (found_of matches.now))))) }
{
    let input = value_of(matches, "stdin");
    let list = value_of(matches, "files0-from");
    match (input, list, values_of(matches, "file")) {
        (None, None, Some(files)) => Ok(Subjects::Files(files.to_vec(alloc)?)),
        (Some(name), None, None) => Ok(Subjects::Input(name)),
        (None, Some(list), None) => Ok(Subjects::List(list)),
        (None, None, None) => {
            let message = "give a FILE, --files0-from LIST or --stdin NAME";
            let command = command.described(alloc);
            Err(refusal_by(command, ErrorKind::MissingRequiredArgument, message))
        }
        (Some(_), Some(_), _) | (Some(_), None, Some(_)) | (None, Some(_), Some(_)) => {
            let message = "give one of FILEs, --files0-from LIST and --stdin NAME";
            Err(refusal(alloc, ErrorKind::ArgumentConflict, message))
        }
    }
}

// The FILEs, where there has to be one.
pub(super) fn files_of<'a>(alloc: Global, matches: &ArgMatches<'a>) -> Result<Vec<&'a str>, Error>
    // They are all FILEs that were found, in their order.
    ensures found { IfOk result (λ files. all_of (codes "file") (rows_of (found_of matches.now)) ≡ Some (texts files.items)) }

    // An error says that there is none, or that memory ran out.
    ensures missing { IfErr result (HasKind (missing (all_of (codes "file") (rows_of (found_of matches.now))))) }
{
    let Some(files) = values_of(matches, "file") else {
        return Err(refusal(alloc, ErrorKind::MissingRequiredArgument, "give a FILE"));
    };
    let files = files.to_vec(alloc)?;
    Ok(files)
}

// The first value of an argument.
pub(super) fn value_of<'a>(matches: &ArgMatches<'a>, id: &str) -> Option<&'a str>
    // It is the first value that was found, if one was.
    ensures { option_map (λ s. s.now) result ≡ first_of id.now (rows_of (found_of matches.now)) }
{
    matches.get_str(id)
}

// All the values of an argument.
fn values_of<'m, 'a>(matches: &'m ArgMatches<'a>, id: &str) -> Option<&'m [&'a str]>
    ensures { option_map (λ s. texts s.now) result
        ≡ all_of id.now (rows_of (found_of matches.entry.now)) }
{
    matches.get_strs(id)
}

// An error of this crate's own, with the program's usage, or that memory ran out.
pub(super) fn refusal(alloc: Global, kind: ErrorKind, message: &str) -> Error
    // The error has this kind, or says that memory ran out.
    ensures { HasKind (kind ∷ []) result }
{
    refusal_by(mimelook_command(alloc), kind, message)
}

// The same, with the usage of this command, if there was memory for one.
fn refusal_by<'a>(command: Result<Command<'a>, AllocError>, kind: ErrorKind, message: &str) -> Error
    ensures { HasKind (kind ∷ []) result }
{
    match refusal_text(command, kind, message) {
        Ok(error) => error,
        Err(error) => Error::from(error),
    }
}

// The message with the usage below it.
fn refusal_text<'a>(
    command: Result<Command<'a>, AllocError>,
    kind: ErrorKind,
    message: &str,
) -> Result<Error, AllocError>
    ensures { IfOk result (λ e. kind_of e ≡ kind) }
{
    command?.error(kind, message)
}
