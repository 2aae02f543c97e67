//! The command `build`: a cache of the text files of data directories ("The mime.cache files").
//!
//! That the cache takes the place of a file whole, by way of a file beside it, is this project's own.

ghost use Rattle.std.specs.Prelude.{◌≡◌, Bool, IfOk, None, [], false};
ghost use Rattle.mime_base.specs.Database.{plain_database};
ghost use Rattle.mime_request.specs.Request.{plain_directories};
ghost use Rattle.mime_tool.specs.Build.{Builds, BuildsOver, BuildsWhere, Fits, GivesCache, IsPrintOver, IsPrinted, no_terminal};
ghost use Rattle.mime_tool.specs.Build.{too_large, written_of};
ghost use Rattle.mime_tool.specs.Desk.{Does, EndsOverFiles, Works};
ghost use Rattle.mime_tool.specs.Directories.{IsCommand};
ghost use Rattle.mime_tool.specs.Environment.{known_environment};
ghost use Rattle.mime_tool.specs.Run.{printed};
ghost use Rattle.mime_tool.specs.Stop.{IsRefusal};

use crate::desk::Desk;
use crate::directories::load;
use crate::environment::Environment;
use crate::status::ANSWERED;
use crate::stop::Stop;
use mime_base::{Database, LARGEST_CACHE, OutOfMemory};
use mime_request::Directories;
use mime_store::{StoreFault, fits_in_cache, write_cache};
use mime_text::without_twins;
use std::alloc::Global;

/// Stores the cache of the directories as this file, with twins of case-sensitive rules or without, or prints it
/// where the file is a hyphen, and gives the status.
///
/// It is written to a file of this path and `.new`, which is then renamed; where the path is a link, to
/// one of the path that it leads to, and `.new`. Where the database is too large for a cache, the cache
/// can't be written, or no directory has a text file and the file is there, it is as it was. To a terminal no cache is printed.
pub(crate) fn build<D: Desk>(
    desk: &mut D,
    environment: Option<Environment<'_>>,
    to_terminal: bool,
    directories: &Directories<'_>,
    drop_twins: bool,
    file: &str,
) -> Result<u8, Stop>
    // The file holds a cache of the directories, of all their visible rules or of those that are no twins, or it is printed; or a
    // message says why not and the file is as it was, as it is where memory ran out.
    ensures { Builds (known_environment environment.entry) to_terminal (plain_directories directories.now) drop_twins file.now
        (D.state desk.old) (D.state desk.new) result }
{
    if file == "-" {
        print(desk, environment, to_terminal, directories, drop_twins)
    } else {
        replace(desk, environment, directories, drop_twins, file)
    }
}

// Prints the cache.
fn print<D: Desk>(
    desk: &mut D,
    environment: Option<Environment<'_>>,
    to_terminal: bool,
    directories: &Directories<'_>,
    drop_twins: bool,
) -> Result<u8, Stop>
    ensures { Works (EndsOverFiles (IsPrinted to_terminal (D.state desk.old).stored (known_environment environment.entry)
        (plain_directories directories.now) drop_twins) []) (D.state desk.old) (D.state desk.new) result }
{
    if to_terminal {
        Err(no_terminal(desk.alloc()))
    } else {
        print_made(desk, environment, directories, drop_twins)
    }
}

fn no_terminal(alloc: Global) -> Stop
    ensures { IsRefusal no_terminal result }
{
    match format!(in alloc; "mimelook: no cache is written to a terminal\n") {
        Ok(message) => Stop::Refused(message),
        Err(_) => Stop::OutOfMemory,
    }
}

fn print_made<D: Desk>(
    desk: &mut D,
    environment: Option<Environment<'_>>,
    directories: &Directories<'_>,
    drop_twins: bool,
) -> Result<u8, Stop>
    ensures { Works (EndsOverFiles (IsCommand (D.state desk.old).stored None (known_environment environment.entry) (plain_directories directories.now)
        (λ database _. IsPrintOver (written_of drop_twins database))) []) (D.state desk.old) (D.state desk.new) result }
{
    let database = load(desk, environment, directories, None)?;
    let database = written(desk.alloc(), database, drop_twins)?;
    print_over(desk, &database)
}

fn print_over<D: Desk>(desk: &mut D, database: &Database) -> Result<u8, Stop>
    ensures { Works (EndsOverFiles (λ _. IsPrintOver (plain_database database.now)) []) (D.state desk.old) (D.state desk.new) result }
{
    let cache = cache_of(desk.alloc(), database)?;
    print_bytes(desk, cache.as_slice())?;
    Ok(ANSWERED)
}

fn print_bytes<D: Desk>(desk: &mut D, bytes: &[u8]) -> Result<(), Stop>
    ensures { Works (Does (printed bytes.now)) (D.state desk.old) (D.state desk.new) result }
{
    desk.print(&[bytes])
}

// Stores the cache as this file.
fn replace<D: Desk>(
    desk: &mut D,
    environment: Option<Environment<'_>>,
    directories: &Directories<'_>,
    drop_twins: bool,
    file: &str,
) -> Result<u8, Stop>
    ensures { (to_terminal : Bool) → BuildsWhere false (known_environment environment.entry) to_terminal (plain_directories directories.now) drop_twins file.now
        (D.state desk.old) (D.state desk.new) result }
{
    let database = load(desk, environment, directories, Some(file))?;
    let database = written(desk.alloc(), database, drop_twins)?;
    store(desk, &database, file)
}

/// What is written of a database.
fn written(alloc: Global, database: Database, drop_twins: bool) -> Result<Database, OutOfMemory>
    ensures { IfOk result (λ written. plain_database written ≡ written_of drop_twins (plain_database database)) }
{
    if drop_twins {
        without_twins(alloc, database)
    } else {
        Ok(database)
    }
}

fn store<D: Desk>(desk: &mut D, database: &Database, file: &str) -> Result<u8, Stop>
    ensures { BuildsOver (plain_database database.now) file.now
        (D.state desk.old) (D.state desk.new) result }
{
    let cache = cache_of(desk.alloc(), database)?;
    desk.replace(file, ".new", cache.as_slice())?;
    Ok(ANSWERED)
}

/// The cache of a database, in memory.
pub(crate) fn cache_of(alloc: Global, database: &Database) -> Result<Vec<u8>, Stop>
    // It is a cache of the database; or there can be none, or memory ran out.
    ensures { GivesCache (plain_database database.now) result }
{
    match write_cache(alloc, database, LARGEST_CACHE) {
        Ok(cache) => Ok(cache),
        Err(StoreFault::TooLarge) => Err(too_large(alloc)),
        Err(StoreFault::OutOfMemory) => Err(Stop::OutOfMemory),
    }
}

/// Stops where no cache can hold a database.
pub(crate) fn keep_fitting(alloc: Global, database: &Database) -> Result<(), Stop>
    // The database fits in a cache; or the stop has the message that there can be none, or memory ran out.
    ensures { Fits (plain_database database.now) result }
{
    if fits_in_cache(alloc, database, LARGEST_CACHE)? {
        Ok(())
    } else {
        Err(too_large(alloc))
    }
}

fn too_large(alloc: Global) -> Stop
    ensures { IsRefusal too_large result }
{
    match format!(in alloc; "mimelook: database too large\n") {
        Ok(message) => Stop::Refused(message),
        Err(_) => Stop::OutOfMemory,
    }
}
