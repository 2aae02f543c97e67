//! The command `icon`: the icons of a type, from a cache, or from the text files of data directories.

ghost use Rattle.std.specs.Prelude.{◌≡◌, []};
ghost use Rattle.mime_base.specs.Database.{plain_database};
ghost use Rattle.mime_lookup.specs.Icons.{icons_of, plain_icons_of};
ghost use Rattle.mime_request.specs.Request.{plain_source};
ghost use Rattle.mime_tool.specs.Cache.{GivesOrRefuses};
ghost use Rattle.mime_tool.specs.Desk.{Does, EndsOverFiles, Works};
ghost use Rattle.mime_tool.specs.Environment.{known_environment};
ghost use Rattle.mime_tool.specs.Icon.{AreIconsOf, IsIcon, IsIconBy, IsIconOver, RefusesIcons, printed_icons};
ghost use Rattle.mime_tool.specs.Run.{printed};
ghost use Rattle.mime_tool.specs.Sources.{GivesByData, GivesOrRunsOut, IsByData, IsQuestion};

use crate::cache::stopped_for;
use crate::desk::Desk;
use crate::environment::Environment;
use crate::sources::{SourceData, read_data};
use crate::status::ANSWERED;
use crate::stop::Stop;
use crate::type_names::{refuse, type_name};
use mime_base::{Counted, Database, TypeName};
use mime_lookup::{Icons, icon_of, icon_of_plain};
use mime_request::Source;
use std::alloc::Global;

/// Prints `icon: NAME` and `generic: NAME` for a type, by a cache or by data directories, and gives the status.
///
/// A word that is no type name is reported, before anything is read.
pub(crate) fn icon<D: Desk>(
    desk: &mut D,
    environment: Option<Environment<'_>>,
    source: &Source<'_>,
    kind: &str,
) -> Result<u8, Stop>
    // It prints the icon and the generic icon of the type, or says what is wrong with the word, the cache or the directories.
    ensures { Works (EndsOverFiles (IsIcon (D.state desk.old).stored (known_environment environment.entry) (plain_source source.now) kind.now) [])
        (D.state desk.old) (D.state desk.new) result }
{
    let Some(name) = type_name(desk.alloc(), kind)? else {
        return refuse(desk, kind);
    };
    icon_by(desk, environment, source, &name)
}

fn icon_by<D: Desk>(
    desk: &mut D,
    environment: Option<Environment<'_>>,
    source: &Source<'_>,
    kind: &TypeName,
) -> Result<u8, Stop>
    ensures { Works (EndsOverFiles (IsQuestion (D.state desk.old).stored (known_environment environment.entry) (plain_source source.now)
        (λ path. IsIconOver path kind.now) (IsIconBy kind.now)) []) (D.state desk.old) (D.state desk.new) result }
{
    let given = read_data(desk, environment, source)?;
    answer(desk, &given, kind)
}

fn answer<D: Desk>(desk: &mut D, given: &SourceData<'_>, kind: &TypeName) -> Result<u8, Stop>
    ensures { Works (EndsOverFiles (IsByData (λ path. IsIconOver path kind.now) (IsIconBy kind.now) given.now) [])
        (D.state desk.old) (D.state desk.new) result }
{
    let icons = ask(desk.alloc(), given, kind)?;
    show(desk, &icons)
}

fn ask(alloc: Global, given: &SourceData<'_>, kind: &TypeName) -> Result<Icons, Stop>
    ensures { GivesByData RefusesIcons (λ cache icons. AreIconsOf cache kind.now (plain_icons_of icons))
        (λ b icons. plain_icons_of icons ≡ icons_of b kind.now) given.now result }
{
    match given {
        SourceData::Cache(path, bytes) => ask_cache(alloc, *path, bytes.as_slice(), kind),
        SourceData::Database(database) => ask_database(alloc, database, kind),
    }
}

fn ask_cache(alloc: Global, path: &str, cache: &[u8], kind: &TypeName) -> Result<Icons, Stop>
    ensures { GivesOrRefuses path.now (RefusesIcons cache.now)
        (λ icons. AreIconsOf cache.now kind.now (plain_icons_of icons)) result }
{
    match icon_of(alloc, Counted::new(cache), kind) {
        Ok(icons) => Ok(icons),
        Err(stopped) => Err(stopped_for(alloc, path, stopped.cause)),
    }
}

fn ask_database(alloc: Global, database: &Database, kind: &TypeName) -> Result<Icons, Stop>
    ensures { GivesOrRunsOut (λ icons. plain_icons_of icons ≡ icons_of (plain_database database.now) kind.now) result }
{
    let icons = icon_of_plain(alloc, database, kind)?;
    Ok(icons)
}

fn show<D: Desk>(desk: &mut D, icons: &Icons) -> Result<u8, Stop>
    ensures { Works (EndsOverFiles (λ _ run. run ≡ printed (printed_icons (plain_icons_of icons.now))) [])
        (D.state desk.old) (D.state desk.new) result }
{
    print_icons(desk, icons.icon.as_slice(), icons.generic.as_slice())?;
    Ok(ANSWERED)
}

fn print_icons<D: Desk>(desk: &mut D, icon: &[u8], generic: &[u8]) -> Result<(), Stop>
    ensures { Works (Does (printed (printed_icons (record { icon = icon.now; generic = generic.now }))))
        (D.state desk.old) (D.state desk.new) result }
{
    desk.print(&[b"icon: ", icon, b"\ngeneric: ", generic, b"\n"])
}
