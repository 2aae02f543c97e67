//! Data directories: the six text files of each, and the database of all of them ("Directory
//! layout").
//!
//! A missing file counts as empty; that all are missing is said first, and what was looked for. A malformed line of a file of lines is skipped with a message
//! once its file was read; a file that can't be read, and a fault of `magic`, stop the command. That,
//! the messages and the order of the files are this project's own.

ghost use Rattle.std.specs.Prelude.{◌≡◌, IfOk, option_map, string_bytes};
ghost use Rattle.clap.specs.Walk.{texts};
ghost use Rattle.mime_base.specs.Database.{plain_database};
ghost use Rattle.mime_text.specs.Merging.{plain_dir, plain_dirs};
ghost use Rattle.mime_tool.specs.Desk.{Does, Works};
ghost use Rattle.mime_request.specs.Request.{plain_directories};
ghost use Rattle.mime_tool.specs.Directories.{AreDirectories, FirstPasses, HasFile, HaveTextFile, IsDatabase, IsDatabaseOf, IsDirectory};
ghost use Rattle.mime_tool.specs.Directories.{IsKept, IsMerged, IsMissing, IsMissingFrom, IsMissingOver, IsNoticed, IsUserDatabase};
ghost use Rattle.mime_tool.specs.Directories.{beside, globs2_beside, no_directories, not_text, path_of, why_missing};
ghost use Rattle.mime_tool.specs.Environment.{known_environment, plain_environment, user_directories};
ghost use Rattle.mime_tool.specs.Files.{IsThere};
ghost use Rattle.mime_tool.specs.Loading.{Loads};
ghost use Rattle.mime_tool.specs.Run.{said};
ghost use Rattle.mime_tool.specs.Stop.{IsRefusal};

mod line_file;
mod magic_file;

use crate::desk::{Desk, report};
use crate::environment::{Environment, all_directories, data_dirs_of, own_directory};
use crate::stop::{Stop, unreplaced};
use line_file::read_lines;
use magic_file::read_magic_in;
use mime_base::{Database, OutOfMemory};
use mime_request::Directories;
use mime_text::{DirFiles, merge_visible};
use std::alloc::{AllocError, Global};

/// The text files of a data directory.
const TEXT_FILES: [&str; 6] = [
    "globs2",
    "magic",
    "aliases",
    "subclasses",
    "icons",
    "generic-icons",
];

/// The database of data directories, those that are named or the user's.
///
/// Where they have no text file and the file of `kept` is there, it stops: that file is not replaced.
pub(crate) fn load<D: Desk>(
    desk: &mut D,
    environment: Option<Environment<'_>>,
    directories: &Directories<'_>,
    kept: Option<&str>,
) -> Result<Database, Stop>
    // It is the database that the directories say, and the messages on them are said; or that of a stop is still to be said.
    ensures { Works (Loads plain_database (IsDatabaseOf (D.state desk.old).stored (option_map (λ s. s.now) kept.entry)
        (known_environment environment.entry) (plain_directories directories.now))) (D.state desk.old) (D.state desk.new) result }
{
    match directories {
        Directories::Named(directories) => load_these(desk, directories.as_slice(), kept),
        Directories::User => load_users(desk, environment, kept),
    }
}

fn load_users<D: Desk>(
    desk: &mut D,
    environment: Option<Environment<'_>>,
    kept: Option<&str>,
) -> Result<Database, Stop>
    ensures { Works (Loads plain_database (IsUserDatabase (D.state desk.old).stored (option_map (λ s. s.now) kept.entry)
        (known_environment environment.entry))) (D.state desk.old) (D.state desk.new) result }
{
    match environment {
        Some(environment) => load_by(desk, environment, kept),
        None => Err(not_text(desk.alloc())),
    }
}

fn not_text(alloc: Global) -> Stop
    ensures { IsRefusal not_text result }
{
    match format!(in alloc;
        "mimelook: XDG_DATA_HOME, HOME or XDG_DATA_DIRS is not text (UTF-8)\n"
    ) {
        Ok(message) => Stop::Refused(message),
        Err(_) => Stop::OutOfMemory,
    }
}

fn load_by<D: Desk>(
    desk: &mut D,
    environment: Environment<'_>,
    kept: Option<&str>,
) -> Result<Database, Stop>
    ensures { Works (Loads plain_database (IsDatabase (D.state desk.old).stored (option_map (λ s. s.now) kept.entry)
        (user_directories (plain_environment environment.entry)))) (D.state desk.old) (D.state desk.new) result }
{
    let own = own_directory(desk.alloc(), environment)?;
    let dirs = data_dirs_of(environment);
    let directories = all_directories(desk.alloc(), own.as_str(), dirs)?;
    load_these(desk, directories.as_slice(), kept)
}

/// The database of these data directories, the most preferred first.
fn load_these<D: Desk>(
    desk: &mut D,
    directories: &[&str],
    kept: Option<&str>,
) -> Result<Database, Stop>
    ensures { Works (Loads plain_database
        (IsDatabase (D.state desk.old).stored (option_map (λ s. s.now) kept.entry) (texts directories.now)))
        (D.state desk.old) (D.state desk.new) result }
{
    notice_missing(desk, directories, kept)?;
    merge_these(desk, directories)
}

// Says it where none of the directories has a text file. A file that is kept then stops it.
fn notice_missing<D: Desk>(
    desk: &mut D,
    directories: &[&str],
    kept: Option<&str>,
) -> Result<(), Stop>
    ensures { Works (Loads (λ done. done) (IsNoticed (D.state desk.old).stored (option_map (λ s. s.now) kept.entry) (texts directories.now)))
        (D.state desk.old) (D.state desk.new) result }
{
    if have_text_file(desk, directories)? {
        Ok(())
    } else {
        say_missing_over(desk, directories, kept)
    }
}

// Says that none of them has one, and stops where a file that is kept is there.
fn say_missing_over<D: Desk>(
    desk: &mut D,
    directories: &[&str],
    kept: Option<&str>,
) -> Result<(), Stop>
    ensures { Works (Loads (λ done. done) (IsMissingOver (D.state desk.old).stored (option_map (λ s. s.now) kept.entry) (texts directories.now)))
        (D.state desk.old) (D.state desk.new) result }
{
    say_missing(desk, directories)?;
    keep(desk, kept)
}

// Says that none of them has one, and what was looked for.
fn say_missing<D: Desk>(desk: &mut D, directories: &[&str]) -> Result<(), Stop>
    ensures { Works (Loads (λ done. done) (IsMissing (D.state desk.old).stored (texts directories.now)))
        (D.state desk.old) (D.state desk.new) result }
{
    match directories {
        [] => say_none(desk),
        [first, ..] => say_missing_from(desk, first, directories),
    }
}

fn say_none<D: Desk>(desk: &mut D) -> Result<(), Stop>
    ensures { Works (Does (said no_directories)) (D.state desk.old) (D.state desk.new) result }
{
    desk.complain(b"mimelook: no data directories\n")
}

// The same of some directories, of which this is the first.
fn say_missing_from<D: Desk>(desk: &mut D, first: &str, directories: &[&str]) -> Result<(), Stop>
    ensures { Works (Loads (λ done. done) (IsMissingFrom (D.state desk.old).stored first.now (texts directories.now)))
        (D.state desk.old) (D.state desk.new) result }
{
    let beside = first_beside(desk, directories)?;
    let why = why_missing(desk.alloc(), first, beside)?;
    let dirs = directories.join(desk.alloc(), ":")?;
    report(desk, dirs.as_bytes(), why.as_str())
}

// Why directories are wrong of which this is the first, and this one the folder mime of a data directory.
fn why_missing(alloc: Global, first: &str, beside: Option<&str>) -> Result<String, AllocError>
    ensures { IfOk result (λ why. string_bytes why ≡ why_missing first.now (option_map (λ s. s.now) beside.entry)) }
{
    let more = said_of_beside(alloc, beside)?;
    format!(in alloc; "no text files, such as {first}/mime/globs2{more}")
}

fn said_of_beside(alloc: Global, directory: Option<&str>) -> Result<String, AllocError>
    ensures { IfOk result (λ more. string_bytes more ≡ beside (option_map (λ s. s.now) directory.entry)) }
{
    match directory {
        Some(directory) => format!(in alloc;
            "; there is {directory}/globs2: DIRS end before /mime"
        ),
        None => Ok(String::new(alloc)),
    }
}

// The first of the directories that is itself the folder mime of one.
fn first_beside<'a, D: Desk>(
    desk: &mut D,
    directories: &[&'a str],
) -> Result<Option<&'a str>, OutOfMemory>
    ensures stays { D.state desk.new ≡ D.state desk.old }
    ensures first { IfOk result (λ first. FirstPasses (λ dir. IsThere ((D.state desk.old).stored (globs2_beside dir)))
        (texts directories.now) (option_map (λ s. s.now) first)) }
{
    for directory in directories {
        if is_beside(desk, *directory)? {
            return Ok(Some(*directory));
        }
    }
    Ok(None)
}

fn is_beside<D: Desk>(desk: &mut D, directory: &str) -> Result<bool, OutOfMemory>
    ensures stays { D.state desk.new ≡ D.state desk.old }
    ensures there { IfOk result (IsThere ((D.state desk.old).stored (globs2_beside directory.now))) }
{
    let path = format!(in desk.alloc(); "{directory}/globs2")?;
    desk.exists(path.as_str())
}

// Stops where the file that is kept is there.
fn keep<D: Desk>(desk: &mut D, kept: Option<&str>) -> Result<(), Stop>
    ensures { Works (Loads (λ done. done) (IsKept (D.state desk.old).stored (option_map (λ s. s.now) kept.entry)))
        (D.state desk.old) (D.state desk.new) result }
{
    let Some(file) = kept else {
        return Ok(());
    };
    if desk.exists(file)? {
        Err(unreplaced(desk.alloc(), file))
    } else {
        Ok(())
    }
}

// Whether one of the directories has a text file, of whatever kind.
fn have_text_file<D: Desk>(desk: &mut D, directories: &[&str]) -> Result<bool, OutOfMemory>
    ensures stays { D.state desk.new ≡ D.state desk.old }
    ensures has { IfOk result (HaveTextFile (D.state desk.old).stored (texts directories.now)) }
{
    for directory in directories {
        if has_file(desk, directory, &TEXT_FILES)? {
            return Ok(true);
        }
    }
    Ok(false)
}

// Whether a file of one of these names is in the directory.
fn has_file<D: Desk>(desk: &mut D, directory: &str, names: &[&str]) -> Result<bool, OutOfMemory>
    ensures stays { D.state desk.new ≡ D.state desk.old }
    ensures has { IfOk result (HasFile (D.state desk.old).stored (texts names.now) directory.now) }
{
    for name in names {
        let path = path_of(desk.alloc(), directory, name)?;
        if desk.exists(path.as_str())? {
            return Ok(true);
        }
    }
    Ok(false)
}

/// What these data directories say, merged, the most preferred first, less the rules that are never kept.
///
/// Of each directory `mime/globs2`, `mime/magic`, `mime/aliases`, `mime/subclasses`, `mime/icons` and
/// `mime/generic-icons` are read, in this order, up to the first that stops.
fn merge_these<D: Desk>(desk: &mut D, directories: &[&str]) -> Result<Database, Stop>
    ensures { Works (Loads plain_database
        (IsMerged (D.state desk.old).stored (texts directories.now)))
        (D.state desk.old) (D.state desk.new) result }
{
    let dirs = read_directories(desk, directories)?;
    let database = merge_visible(desk.alloc(), dirs)?;
    Ok(database)
}

fn read_directories<D: Desk>(desk: &mut D, directories: &[&str]) -> Result<Vec<DirFiles>, Stop>
    ensures { Works (Loads (λ dirs. plain_dirs dirs.items)
        (AreDirectories (D.state desk.old).stored (texts directories.now)))
        (D.state desk.old) (D.state desk.new) result }
{
    let mut dirs = Vec::new(desk.alloc());
    for directory in directories {
        let dir = read_directory(desk, directory)?;
        dirs.push(dir)?;
    }
    Ok(dirs)
}

fn read_directory<D: Desk>(desk: &mut D, directory: &str) -> Result<DirFiles, Stop>
    ensures { Works (Loads plain_dir (IsDirectory (D.state desk.old).stored directory.now))
        (D.state desk.old) (D.state desk.new) result }
{
    let globs = read_lines(desk, directory, "globs2")?;
    let magic = read_magic_in(desk, directory)?;
    let aliases = read_lines(desk, directory, "aliases")?;
    let subclasses = read_lines(desk, directory, "subclasses")?;
    let icons = read_lines(desk, directory, "icons")?;
    let generic_icons = read_lines(desk, directory, "generic-icons")?;
    Ok(DirFiles {
        globs,
        magic,
        aliases,
        subclasses,
        icons,
        generic_icons,
    })
}

/// Where a file of a directory lies.
fn path_of(alloc: Global, directory: &str, name: &str) -> Result<String, AllocError>
    ensures { IfOk result (λ path. string_bytes path ≡ path_of directory.now name.now) }
{
    format!(in alloc; "{directory}/mime/{name}")
}
