//! The command `isa`: whether one type is another, by a cache, or by the text files of data directories.

ghost use Rattle.std.specs.Prelude.{◌≡◌, []};
ghost use Rattle.mime_base.specs.Database.{plain_database};
ghost use Rattle.mime_request.specs.Request.{plain_source};
ghost use Rattle.mime_tool.specs.Cache.{GivesOrRefuses};
ghost use Rattle.mime_tool.specs.Desk.{Does, EndsOverFiles, Works};
ghost use Rattle.mime_tool.specs.Environment.{known_environment};
ghost use Rattle.mime_tool.specs.IsA.{IsAnswerBy, IsAnswerOver, IsSaid, IsSaidBy, IsSubclassRun, RefusesPairs, answer_run};
ghost use Rattle.mime_tool.specs.Run.{printed};
ghost use Rattle.mime_tool.specs.Sources.{GivesByData, GivesOrRunsOut, IsByData, IsQuestion};

use crate::cache::stopped_for;
use crate::desk::Desk;
use crate::environment::Environment;
use crate::sources::{SourceData, read_data};
use crate::status::{ANSWERED, NOT_ANSWERED};
use crate::stop::Stop;
use crate::type_names::{refuse, type_name};
use mime_base::{Counted, Database, TypeName};
use mime_lookup::is_a_plain;
use mime_request::Source;
use std::alloc::Global;

/// Prints `yes` where the type is the base or a subclass of it, by a cache or by data directories, else `no`,
/// and gives the status: that of a file that was answered, or that of one that wasn't.
///
/// The first of the two words that is no type name is reported, before anything is read.
pub(crate) fn is_a<D: Desk>(
    desk: &mut D,
    environment: Option<Environment<'_>>,
    source: &Source<'_>,
    kind: &str,
    base: &str,
) -> Result<u8, Stop>
    // It prints whether the one is a subclass of the other, or says what is wrong with a word, the cache or the directories.
    ensures { Works (EndsOverFiles (IsSubclassRun (D.state desk.old).stored (known_environment environment.entry) (plain_source source.now)
        kind.now base.now) []) (D.state desk.old) (D.state desk.new) result }
{
    let Some(kind_name) = type_name(desk.alloc(), kind)? else {
        return refuse(desk, kind);
    };
    let Some(base_name) = type_name(desk.alloc(), base)? else {
        return refuse(desk, base);
    };
    is_a_by(desk, environment, source, &kind_name, &base_name)
}

fn is_a_by<D: Desk>(
    desk: &mut D,
    environment: Option<Environment<'_>>,
    source: &Source<'_>,
    kind: &TypeName,
    base: &TypeName,
) -> Result<u8, Stop>
    ensures { Works (EndsOverFiles (IsQuestion (D.state desk.old).stored (known_environment environment.entry) (plain_source source.now)
        (λ path. IsAnswerOver path kind.now base.now) (IsAnswerBy kind.now base.now)) []) (D.state desk.old) (D.state desk.new) result }
{
    let given = read_data(desk, environment, source)?;
    answer(desk, &given, kind, base)
}

fn answer<D: Desk>(
    desk: &mut D,
    given: &SourceData<'_>,
    kind: &TypeName,
    base: &TypeName,
) -> Result<u8, Stop>
    ensures { Works (EndsOverFiles (IsByData (λ path. IsAnswerOver path kind.now base.now) (IsAnswerBy kind.now base.now) given.now) [])
        (D.state desk.old) (D.state desk.new) result }
{
    let yes = ask(desk.alloc(), given, kind, base)?;
    print_answer(desk, yes)
}

fn ask(
    alloc: Global,
    given: &SourceData<'_>,
    kind: &TypeName,
    base: &TypeName,
) -> Result<bool, Stop>
    ensures { GivesByData RefusesPairs (λ cache. IsSaid cache kind.now base.now) (λ b. IsSaidBy b kind.now base.now) given.now result }
{
    match given {
        SourceData::Cache(path, bytes) => ask_cache(alloc, *path, bytes.as_slice(), kind, base),
        SourceData::Database(database) => ask_database(alloc, database, kind, base),
    }
}

fn ask_cache(
    alloc: Global,
    path: &str,
    cache: &[u8],
    kind: &TypeName,
    base: &TypeName,
) -> Result<bool, Stop>
    ensures { GivesOrRefuses path.now (RefusesPairs cache.now) (IsSaid cache.now kind.now base.now) result }
{
    match mime_lookup::is_a(alloc, Counted::new(cache), kind, base) {
        Ok((yes, _)) => Ok(yes),
        Err(stopped) => Err(stopped_for(alloc, path, stopped.cause)),
    }
}

fn ask_database(
    alloc: Global,
    database: &Database,
    kind: &TypeName,
    base: &TypeName,
) -> Result<bool, Stop>
    ensures { GivesOrRunsOut (IsSaidBy (plain_database database.now) kind.now base.now) result }
{
    let (yes, _) = is_a_plain(alloc, database, kind, base)?;
    Ok(yes)
}

fn print_answer<D: Desk>(desk: &mut D, yes: bool) -> Result<u8, Stop>
    ensures { Works (EndsOverFiles (λ _ run. run ≡ answer_run yes) []) (D.state desk.old) (D.state desk.new) result }
{
    if yes {
        print_line(desk, b"yes\n")?;
        Ok(ANSWERED)
    } else {
        print_line(desk, b"no\n")?;
        Ok(NOT_ANSWERED)
    }
}

fn print_line<D: Desk>(desk: &mut D, line: &[u8]) -> Result<(), Stop>
    ensures { Works (Does (printed line.now)) (D.state desk.old) (D.state desk.new) result }
{
    desk.print(&[line])
}
