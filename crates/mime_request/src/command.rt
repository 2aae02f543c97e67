//! The command line of mimelook, as clap is told it. This project's own.

ghost use Rattle.std.specs.Prelude.{◌≡◌, IfOk, false};
ghost use Rattle.clap.specs.Words.{app_of, rule_of};
ghost use Rattle.clap.specs.declared.builder.command.Command.TheViews.{out-Command};
ghost use Rattle.mime_request.specs.CommandLine.{app_of_source, base_rule, build_app, cache_rule, check_app, directories_rule, explain_app};
ghost use Rattle.mime_request.specs.CommandLine.{explained_rule, files_rule, flag_rule, icon_app, input_rule, is_a_app, kind_rule, list_app, list_rule, mimelook, mimelook_alone};
ghost use Rattle.mime_request.specs.CommandLine.{mimelook_of_caches, mimelook_of_directories, output_rule, plain_app, short_flag_rule, type_app};
ghost use Rattle.mime_request.specs.CommandLine.{with_looks, with_orders, with_output, with_subjects};

mod texts;

use clap::{Arg, ArgAction, Command};
use std::alloc::{AllocError, Global};
use texts::{
    ALL_GLOBS, BRIEF, BUILD, CACHE, CHECK, CONTENT_ONLY, COST, DIRS, DROP_TWINS, ESCAPE, EXPLAIN,
    EXPLAINED, FILES, FILES_LIST, HelpTexts, ICON, INODE, INPUT, IS_A, LIST, MAGIC_FIRST, MIMELOOK,
    NAME_ONLY, NULL, OUTPUT, PLAIN, TYPE,
};

/// A command that looks up FILEs.
#[derive(Clone, Copy)]
pub(crate) enum FilesCommand {
    Plain,
    Type,
}

impl FilesCommand {
    /// The command as clap is told it, with its own usage.
    pub(crate) fn described<'a>(self, alloc: Global) -> Result<Command<'a>, AllocError> {
        match self {
            FilesCommand::Plain => plain_command(alloc),
            FilesCommand::Type => type_command(alloc),
        }
    }
}

const PROGRAM: &str = "mimelook";

/// What `mimelook --version` prints after the program's name.
const VERSION: &str = "1.0.0";

// With its texts, and the program's name before the version.
fn with_help<'a>(command: Command<'a>, texts: HelpTexts<'a>) -> Result<Command<'a>, AllocError>
    ensures app { IfOk result (λ c. app_of c ≡ app_of command.entry) }
    ensures local { IfOk result (λ c. (out-Command c).has_globals ≡ (out-Command command.entry).has_globals) }
{
    let command = command
        .about(texts.about)
        .override_usage(texts.usage)
        .after_help(texts.after_help)
        .display_name(PROGRAM)?;
    Ok(command)
}

fn directories<'a>(alloc: Global) -> Arg<'a>
    ensures rule { rule_of result ≡ directories_rule }
    ensures local { result.global ≡ false }
{
    Arg::new(alloc, "dirs")
        .short('d')
        .long("data-dirs")
        .value_name("DIRS")
        .help(DIRS)
}

fn cache<'a>(alloc: Global) -> Arg<'a>
    ensures rule { rule_of result ≡ cache_rule }
    ensures local { result.global ≡ false }
{
    Arg::new(alloc, "cache")
        .short('c')
        .long("cache")
        .value_name("CACHE")
        .help(CACHE)
}

// A flag with a long name alone.
fn flag<'a>(alloc: Global, name: &'a str, help: &'a str) -> Arg<'a>
    ensures rule { rule_of result ≡ flag_rule name.entry.now }
    ensures local { result.global ≡ false }
{
    Arg::new(alloc, name)
        .long(name)
        .action(ArgAction::SetTrue)
        .help(help)
}

// A flag with a short name too.
fn short_flag<'a>(alloc: Global, name: &'a str, short: char, help: &'a str) -> Arg<'a>
    ensures rule { rule_of result ≡ short_flag_rule name.entry.now short }
    ensures local { result.global ≡ false }
{
    flag(alloc, name, help).short(short)
}

// With the flags that say what decides.
fn with_orders<'a>(alloc: Global, command: Command<'a>) -> Result<Command<'a>, AllocError>
    ensures app { IfOk result (λ c. app_of c ≡ with_orders (app_of command.entry)) }
    ensures local { IfOk result (λ c. (out-Command c).has_globals ≡ (out-Command command.entry).has_globals) }
{
    let command = command.arg(flag(alloc, "name-only", NAME_ONLY))?;
    let command = command.arg(flag(alloc, "content-only", CONTENT_ONLY))?;
    let command = command.arg(flag(alloc, "magic-first", MAGIC_FIRST))?;
    let command = command.arg(flag(alloc, "all-globs", ALL_GLOBS))?;
    Ok(command)
}

// With these and the flag that says what has a type of its own.
fn with_looks<'a>(alloc: Global, command: Command<'a>) -> Result<Command<'a>, AllocError>
    ensures app { IfOk result (λ c. app_of c ≡ with_looks (app_of command.entry)) }
    ensures local { IfOk result (λ c. (out-Command c).has_globals ≡ (out-Command command.entry).has_globals) }
{
    let command = with_orders(alloc, command)?;
    let command = command.arg(flag(alloc, "inode", INODE))?;
    Ok(command)
}

// With the flags that say how an answer is printed.
fn with_output<'a>(alloc: Global, command: Command<'a>) -> Result<Command<'a>, AllocError>
    ensures app { IfOk result (λ c. app_of c ≡ with_output (app_of command.entry)) }
    ensures local { IfOk result (λ c. (out-Command c).has_globals ≡ (out-Command command.entry).has_globals) }
{
    let command = command.arg(short_flag(alloc, "null", '0', NULL))?;
    let command = command.arg(short_flag(alloc, "brief", 'b', BRIEF))?;
    let command = command.arg(flag(alloc, "escape", ESCAPE))?;
    Ok(command)
}

// With what is looked up: the FILEs of a LIST, standard input by its name, or FILEs.
fn with_subjects<'a>(alloc: Global, command: Command<'a>) -> Result<Command<'a>, AllocError>
    ensures app { IfOk result (λ c. app_of c ≡ with_subjects (app_of command.entry)) }
    ensures local { IfOk result (λ c. (out-Command c).has_globals ≡ (out-Command command.entry).has_globals) }
{
    let command = command.arg(files_list(alloc))?;
    let command = command.arg(input(alloc))?;
    let command = command.arg(files(alloc))?;
    Ok(command)
}

fn files_list<'a>(alloc: Global) -> Arg<'a>
    ensures rule { rule_of result ≡ list_rule }
    ensures local { result.global ≡ false }
{
    Arg::new(alloc, "files0-from")
        .long("files0-from")
        .value_name("LIST")
        .help(FILES_LIST)
}

fn input<'a>(alloc: Global) -> Arg<'a>
    ensures rule { rule_of result ≡ input_rule }
    ensures local { result.global ≡ false }
{
    Arg::new(alloc, "stdin")
        .long("stdin")
        .value_name("NAME")
        .help(INPUT)
}

fn files<'a>(alloc: Global) -> Arg<'a>
    ensures rule { rule_of result ≡ files_rule }
    ensures local { result.global ≡ false }
{
    Arg::new(alloc, "file")
        .value_name("FILE")
        .num_args(1..)
        .help(FILES)
}

fn explained<'a>(alloc: Global) -> Arg<'a>
    ensures rule { rule_of result ≡ explained_rule }
    ensures local { result.global ≡ false }
{
    Arg::new(alloc, "file")
        .value_name("FILE")
        .num_args(1..)
        .required(true)
        .help(EXPLAINED)
}

fn output<'a>(alloc: Global) -> Arg<'a>
    ensures rule { rule_of result ≡ output_rule }
    ensures local { result.global ≡ false }
{
    Arg::new(alloc, "output")
        .short('o')
        .long("output")
        .value_name("FILE")
        .required(true)
        .help(OUTPUT)
}

fn kind<'a>(alloc: Global) -> Arg<'a>
    ensures rule { rule_of result ≡ kind_rule }
    ensures local { result.global ≡ false }
{
    Arg::new(alloc, "type")
        .value_name("TYPE")
        .required(true)
        .help("The type that is asked about, such as text/html")
}

fn base<'a>(alloc: Global) -> Arg<'a>
    ensures rule { rule_of result ≡ base_rule }
    ensures local { result.global ≡ false }
{
    Arg::new(alloc, "base")
        .value_name("BASE")
        .required(true)
        .help("The type that it may be, such as text/plain")
}

// The command `build`, as it stands below `mimelook`.
fn build_command<'a>(alloc: Global) -> Result<Command<'a>, AllocError>
    ensures app { IfOk result (λ c. app_of c ≡ build_app) }
    ensures local { IfOk result (λ c. (out-Command c).has_globals ≡ false) }
{
    let command = with_help(Command::new(alloc, "build"), BUILD)?;
    let command = command.arg(directories(alloc))?;
    let command = command.arg(flag(alloc, "drop-twins", DROP_TWINS))?;
    let command = command.arg(output(alloc))?;
    Ok(command)
}

// The command `plain`, likewise.
fn plain_command<'a>(alloc: Global) -> Result<Command<'a>, AllocError>
    ensures app { IfOk result (λ c. app_of c ≡ plain_app) }
    ensures local { IfOk result (λ c. (out-Command c).has_globals ≡ false) }
{
    let command = with_help(Command::new(alloc, "plain"), PLAIN)?;
    let command = command.arg(directories(alloc))?;
    let command = with_looks(alloc, command)?;
    let command = with_output(alloc, command)?;
    let command = with_subjects(alloc, command)?;
    Ok(command)
}

// A command with `-c CACHE` and `-d DIRS`.
fn command_of_source<'a>(
    alloc: Global,
    name: &'a str,
    texts: HelpTexts<'a>,
) -> Result<Command<'a>, AllocError>
    ensures app { IfOk result (λ c. app_of c ≡ app_of_source name.entry.now) }
    ensures local { IfOk result (λ c. (out-Command c).has_globals ≡ false) }
{
    let command = with_help(Command::new(alloc, name), texts)?;
    let command = command.arg(cache(alloc))?;
    let command = command.arg(directories(alloc))?;
    Ok(command)
}

// The command `list`, likewise.
fn list_command<'a>(alloc: Global) -> Result<Command<'a>, AllocError>
    ensures app { IfOk result (λ c. app_of c ≡ list_app) }
    ensures local { IfOk result (λ c. (out-Command c).has_globals ≡ false) }
{
    command_of_source(alloc, "list", LIST)
}

// The command `check`, likewise.
fn check_command<'a>(alloc: Global) -> Result<Command<'a>, AllocError>
    ensures app { IfOk result (λ c. app_of c ≡ check_app) }
    ensures local { IfOk result (λ c. (out-Command c).has_globals ≡ false) }
{
    command_of_source(alloc, "check", CHECK)
}

// The command `explain`, likewise.
fn explain_command<'a>(alloc: Global) -> Result<Command<'a>, AllocError>
    ensures app { IfOk result (λ c. app_of c ≡ explain_app) }
    ensures local { IfOk result (λ c. (out-Command c).has_globals ≡ false) }
{
    let command = command_of_source(alloc, "explain", EXPLAIN)?;
    let command = with_orders(alloc, command)?;
    let command = command.arg(flag(alloc, "escape", ESCAPE))?;
    let command = command.arg(explained(alloc))?;
    Ok(command)
}

// The command `isa`, likewise.
fn is_a_command<'a>(alloc: Global) -> Result<Command<'a>, AllocError>
    ensures app { IfOk result (λ c. app_of c ≡ is_a_app) }
    ensures local { IfOk result (λ c. (out-Command c).has_globals ≡ false) }
{
    let command = command_of_source(alloc, "isa", IS_A)?;
    let command = command.arg(kind(alloc))?;
    let command = command.arg(base(alloc))?;
    Ok(command)
}

// The command `icon`, likewise.
fn icon_command<'a>(alloc: Global) -> Result<Command<'a>, AllocError>
    ensures app { IfOk result (λ c. app_of c ≡ icon_app) }
    ensures local { IfOk result (λ c. (out-Command c).has_globals ≡ false) }
{
    let command = command_of_source(alloc, "icon", ICON)?;
    let command = command.arg(kind(alloc))?;
    Ok(command)
}

// The command `type`, likewise.
fn type_command<'a>(alloc: Global) -> Result<Command<'a>, AllocError>
    ensures app { IfOk result (λ c. app_of c ≡ type_app) }
    ensures local { IfOk result (λ c. (out-Command c).has_globals ≡ false) }
{
    let command = command_of_source(alloc, "type", TYPE)?;
    let command = with_looks(alloc, command)?;
    let command = command.arg(flag(alloc, "cost", COST))?;
    let command = with_output(alloc, command)?;
    let command = with_subjects(alloc, command)?;
    Ok(command)
}

// The program's name, its help and its version, with no command yet.
fn alone<'a>(alloc: Global) -> Result<Command<'a>, AllocError>
    ensures app { IfOk result (λ c. app_of c ≡ mimelook_alone) }
    ensures local { IfOk result (λ c. (out-Command c).has_globals ≡ false) }
{
    let command = with_help(Command::new(alloc, PROGRAM), MIMELOOK)?
        .version(VERSION)
        .propagate_version(true)
        .no_binary_name(true)
        .subcommand_required(true);
    let command = command.bin_name(PROGRAM)?;
    Ok(command)
}

// With the commands over data directories.
fn over_directories<'a>(alloc: Global) -> Result<Command<'a>, AllocError>
    ensures app { IfOk result (λ c. app_of c ≡ mimelook_of_directories) }
    ensures local { IfOk result (λ c. (out-Command c).has_globals ≡ false) }
{
    let command = alone(alloc)?;
    let command = command.subcommand(build_command(alloc)?)?;
    let command = command.subcommand(plain_command(alloc)?)?;
    Ok(command)
}

// With these and the commands over a whole cache.
fn over_caches<'a>(alloc: Global) -> Result<Command<'a>, AllocError>
    ensures app { IfOk result (λ c. app_of c ≡ mimelook_of_caches) }
    ensures local { IfOk result (λ c. (out-Command c).has_globals ≡ false) }
{
    let command = over_directories(alloc)?;
    let command = command.subcommand(list_command(alloc)?)?;
    let command = command.subcommand(check_command(alloc)?)?;
    let command = command.subcommand(explain_command(alloc)?)?;
    Ok(command)
}

/// The command line after the program's name.
pub(crate) fn mimelook_command<'a>(alloc: Global) -> Result<Command<'a>, AllocError>
    // It is the command line that the definitions describe, unless memory ran out.
    ensures { IfOk result (λ c. app_of c ≡ mimelook) }
{
    let command = over_caches(alloc)?;
    let command = command.subcommand(is_a_command(alloc)?)?;
    let command = command.subcommand(icon_command(alloc)?)?;
    let command = command.subcommand(type_command(alloc)?)?;
    Ok(command)
}
