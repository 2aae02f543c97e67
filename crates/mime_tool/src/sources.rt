//! What is asked: a cache that is stored, or data directories: their database, or a cache that is made of it in memory, such as
//! `build` writes. This project's own.

ghost use Rattle.std.specs.Prelude.{◌≡◌};
ghost use Rattle.mime_request.specs.Request.{plain_directories, plain_source};
ghost use Rattle.mime_tool.specs.Desk.{Works};
ghost use Rattle.mime_tool.specs.Environment.{known_environment};
ghost use Rattle.mime_tool.specs.Sources.{LoadsFitting, MakesCache, ReadsData, ReadsSource, path_of};

use crate::build::{cache_of, keep_fitting};
use crate::desk::Desk;
use crate::directories::load;
use crate::environment::Environment;
use crate::stop::Stop;
use mime_base::{Database, database_keeps_limits};
use mime_request::{Directories, Source};

/// What a question is answered from.
#[derive(Drop)]
pub(crate) enum SourceData<'a> {
    /// The cache at this path.
    Cache(&'a str, Vec<u8>),
    /// What data directories say.
    Database(Database),
}

/// The cache or the database that a question is answered from. No cache is made of a database, but it has to fit in one.
pub(crate) fn read_data<'a, D: Desk>(
    desk: &mut D,
    environment: Option<Environment<'_>>,
    source: &Source<'a>,
) -> Result<SourceData<'a>, Stop>
    // The bytes are those that are stored, or the database is the directories'; or the message of a stop says why there are none.
    ensures { Works (ReadsData (D.state desk.old).stored (known_environment environment.entry) (plain_source source.now))
        (D.state desk.old) (D.state desk.new) result }
{
    match source {
        Source::Cache(path) => {
            let bytes = desk.read_bytes(*path)?;
            Ok(SourceData::Cache(*path, bytes))
        }
        Source::Directories(directories) => {
            let database = load_fitting(desk, environment, directories)?;
            Ok(SourceData::Database(database))
        }
    }
}

/// The database of data directories, where a cache can hold it.
pub(crate) fn load_fitting<D: Desk>(
    desk: &mut D,
    environment: Option<Environment<'_>>,
    directories: &Directories<'_>,
) -> Result<Database, Stop>
    // It is the directories' and fits in a cache; or the message of a stop says why there is none.
    ensures { Works (LoadsFitting (D.state desk.old).stored (known_environment environment.entry) (plain_directories directories.now))
        (D.state desk.old) (D.state desk.new) result }
{
    let database = load(desk, environment, directories, None)?;
    keep_fitting(desk.alloc(), &database)?;
    Ok(database)
}

/// The path of the cache, an empty one where it is made.
pub(crate) fn path_of<'a>(source: &Source<'a>) -> &'a str
    // It is the path that names the cache, if one does.
    ensures { result.now ≡ path_of (plain_source source.now) }
{
    match source {
        Source::Cache(path) => *path,
        Source::Directories(_) => "",
    }
}

/// The bytes of the cache that is asked.
pub(crate) fn read_source<D: Desk>(
    desk: &mut D,
    environment: Option<Environment<'_>>,
    source: &Source<'_>,
) -> Result<Vec<u8>, Stop>
    // The bytes are those that are stored, or a cache such as `build` writes; or the message of a stop says why there are none.
    ensures { Works (ReadsSource (D.state desk.old).stored (known_environment environment.entry) (plain_source source.now))
        (D.state desk.old) (D.state desk.new) result }
{
    match source {
        Source::Cache(path) => desk.read_bytes(*path),
        Source::Directories(directories) => make_cache(desk, environment, directories),
    }
}

// A cache of the data directories, in memory.
fn make_cache<D: Desk>(
    desk: &mut D,
    environment: Option<Environment<'_>>,
    directories: &Directories<'_>,
) -> Result<Vec<u8>, Stop>
    ensures { Works (MakesCache (D.state desk.old).stored (known_environment environment.entry) (plain_directories directories.now))
        (D.state desk.old) (D.state desk.new) result }
{
    let database = load(desk, environment, directories, None)?;
    database_keeps_limits(&database);
    let cache = cache_of(desk.alloc(), &database)?;
    Ok(cache)
}
