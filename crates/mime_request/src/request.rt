//! From words to a request, or to an error that is shown to the user. This project's own.

ghost use Rattle.std.specs.Prelude.{map};
ghost use Rattle.clap.specs.Kinds.{HasKind, Kinds};
ghost use Rattle.clap.specs.Words.{subcommand_rows_of};
ghost use Rattle.mime_request.specs.Request.{Finds, Means, meaning_of, subcommand_meaning};

mod cache;
mod data;
mod flags;
mod found;
mod over_directories;

use crate::command::mimelook_command;
use cache::{
    request_of_check, request_of_explain, request_of_icon, request_of_is_a, request_of_list,
    request_of_type,
};
use clap::error::ErrorKind;
use clap::{ArgMatches, Error};
use found::{refusal, subcommand_of};
use over_directories::{request_of_build, request_of_plain};
use std::alloc::Global;
use std::convert::AsStr;

/// Data directories, most preferred first: those that are named, or the user's.
///
/// There may be none, and none that is named is empty.
#[derive(Debug, Drop)]
pub enum Directories<'a> {
    /// These.
    Named(Vec<&'a str>),
    /// The user's, which the environment tells.
    User,
}

/// What is asked.
#[derive(Debug, Drop)]
pub enum Source<'a> {
    /// The cache in this file.
    Cache(&'a str),
    /// The cache that is made of the text files of data directories.
    Directories(Directories<'a>),
}

/// How an answer is printed, and how FILEs are named in messages.
#[derive(Clone, Copy, Debug)]
pub struct Output {
    /// A zero byte ends the FILE and the TYPE.
    pub null: bool,
    /// The TYPE stands alone.
    pub brief: bool,
    /// In FILE and TYPE, a control character or a backslash is written as a backslash and its
    /// number in octal digits.
    pub escape: bool,
}

/// How files are looked up, and what is told of them.
#[derive(Clone, Copy, Debug)]
pub struct Options {
    /// The names alone decide: no file is opened.
    pub name_only: bool,
    /// The contents alone decide: no name is looked at.
    pub content_only: bool,
    /// Content is asked before the globs, where its priority is high (80 or more).
    pub magic_first: bool,
    /// Content chooses among the types of all globs that match, not among those that are kept.
    pub all_globs: bool,
    /// What is no regular file has a type of its own, and isn't looked up.
    pub inode: bool,
    /// What each answer cost is told.
    pub cost: bool,
    /// How it is printed.
    pub output: Output,
}

/// What is looked up.
#[derive(Debug, Drop)]
pub enum Subjects<'a> {
    /// These files, as they were written. There is at least one.
    Files(Vec<&'a str>),
    /// Standard input, under this name.
    Input(&'a str),
    /// The files that this file lists, or standard input where it is `-`.
    List(&'a str),
}

/// What the words of a command line ask for.
#[derive(Debug, Drop)]
pub enum Request<'a> {
    /// A cache of the text files of data directories.
    Build {
        /// The directories.
        directories: Directories<'a>,
        /// The twins of case-sensitive rules are left out.
        drop_twins: bool,
        /// The file that the cache is written to.
        file: &'a str,
    },
    /// The types of files, from the text files of data directories.
    Plain {
        /// The directories.
        directories: Directories<'a>,
        /// The options. No cost is told.
        options: Options,
        /// What is looked up.
        subjects: Subjects<'a>,
    },
    /// The glob rules of a cache.
    List {
        /// The cache.
        source: Source<'a>,
    },
    /// Whether a cache spells a database, and how much there is of it.
    Check {
        /// The cache.
        source: Source<'a>,
    },
    /// Why files have their types, from a cache.
    Explain {
        /// The cache.
        source: Source<'a>,
        /// The options. Nothing but what decides and `--escape` is given.
        options: Options,
        /// The files, as they were written. There is at least one.
        files: Vec<&'a str>,
    },
    /// Whether one type is another, by a cache.
    IsA {
        /// The cache.
        source: Source<'a>,
        /// The type that is asked about, as it was written.
        kind: &'a str,
        /// The type that it may be, as it was written.
        base: &'a str,
    },
    /// The icons of a type, from a cache.
    Icon {
        /// The cache.
        source: Source<'a>,
        /// The type, as it was written.
        kind: &'a str,
    },
    /// The types of files, from a cache.
    Type {
        /// The cache.
        source: Source<'a>,
        /// The options.
        options: Options,
        /// What is looked up.
        subjects: Subjects<'a>,
    },
}

/// What is said where a FILE stands in place of a command.
const FILE_FOR_COMMAND: &str = "\
the first word is no command

  tip: 'mimelook type FILE...' prints the types of files";

/// What the words ask for; they are those after the program's name.
///
/// An error has the whole text for the user. With [`ErrorKind::DisplayHelp`] it is help and with
/// [`ErrorKind::DisplayVersion`] the version, either of which was asked for; with
/// [`ErrorKind::OutOfMemory`] it is out of memory; with any other kind the words are mistaken.
pub fn request_of<'a, S: AsStr>(alloc: Global, words: &'a [S]) -> Result<Request<'a>, Error>
    // The request is what the words mean, or the error is one of those that they have; or memory ran out.
    ensures { Means (meaning_of (map S.text words.entry.now)) result }
{
    let matches = matches_of(alloc, words)?;
    asked_by(alloc, &matches)
}

// What clap finds in the words, or its error, with a tip where one helps.
fn matches_of<'a, S: AsStr>(alloc: Global, words: &'a [S]) -> Result<ArgMatches<'a>, Error>
    ensures { Finds (map S.text words.entry.now) result }
{
    match parsed(alloc, words) {
        Ok(matches) => Ok(matches),
        Err(error) => Err(with_tip(alloc, words, error)),
    }
}

// What clap finds in the words, or its error.
fn parsed<'a, S: AsStr>(alloc: Global, words: &'a [S]) -> Result<ArgMatches<'a>, Error>
    ensures { Finds (map S.text words.entry.now) result }
{
    let command = mimelook_command(alloc)?;
    command.try_get_matches_from(words)
}

// The error, with a tip where a file stands in place of a command.
fn with_tip<S: AsStr>(alloc: Global, words: &[S], error: Error) -> Error
    // It has the same kind, or says that memory ran out.
    ensures { (kinds : Kinds) → HasKind kinds error → HasKind kinds result }
{
    match error.kind() {
        ErrorKind::InvalidSubcommand if names_a_file(words) => {
            refusal(alloc, ErrorKind::InvalidSubcommand, FILE_FOR_COMMAND)
        }
        _ => error,
    }
}

// Whether the first word is like a file's name, with a byte that no command has.
fn names_a_file<S: AsStr>(words: &[S]) -> bool {
    let Some(first) = words.first() else {
        return false;
    };
    let word = first.as_str().as_bytes();
    !word.starts_with(b"-") && !word.iter().all(|byte| byte.is_ascii_lowercase())
}

// What the command that was met asks for.
fn asked_by<'a>(alloc: Global, matches: &ArgMatches<'a>) -> Result<Request<'a>, Error>
    ensures { Means (subcommand_meaning (subcommand_rows_of matches.now)) result }
{
    let Some((name, inner)) = subcommand_of(matches) else {
        return Err(refusal(alloc, ErrorKind::MissingSubcommand, "give a command"));
    };
    match name {
        "build" => request_of_build(alloc, inner),
        "plain" => request_of_plain(alloc, inner),
        "list" => request_of_list(alloc, inner),
        "check" => request_of_check(alloc, inner),
        "explain" => request_of_explain(alloc, inner),
        "isa" => request_of_is_a(alloc, inner),
        "icon" => request_of_icon(alloc, inner),
        "type" => request_of_type(alloc, inner),
        _ => {
            let message = "give a command that --help names";
            Err(refusal(alloc, ErrorKind::InvalidSubcommand, message))
        }
    }
}
