//! The command `type`: the types of files, by a cache, or from the text files of data directories.
//!
//! Of data directories a cache is made only where costs are told, since a cost is that of a walk over one. Without them the lines are
//! the same, and only whether the data fit in a cache is asked first.

ghost use Rattle.mime_request.specs.Request.{plain_directories, plain_source, plain_subjects};
ghost use Rattle.mime_tool.specs.Desk.{EndsOverFiles, Works};
ghost use Rattle.mime_tool.specs.Process.{given_by, known_process};
ghost use Rattle.mime_tool.specs.Types.{IsType, IsTypeByCache, IsTypeOver};
ghost use Rattle.mime_tool.specs.Subjects.{names_in};
ghost use Rattle.mime_tool.specs.Words.{named_subjects};
ghost use Rattle.std.specs.Prelude.{false};

use crate::desk::Desk;
use crate::line::{Data, Lookup, asked_order};
use crate::plain::print_over;
use crate::process::Process;
use crate::sources::{load_fitting, path_of, read_source};
use crate::stop::Stop;
use crate::subjects::print_subjects;
use crate::words::RawWord;
use mime_lookup::Content;
use mime_request::{Directories, Options, Source, Subjects};

/// Prints a line `FILE: TYPE` for each name that is looked up, and gives the status.
///
/// A file that has no line is reported. A cache that gives no answer stops the command at the first
/// file that is looked up, and data that no cache can hold before it.
pub(crate) fn print_types<D: Desk, I: Content + Drop>(
    desk: &mut D,
    process: Process<'_, I>,
    source: &Source<'_>,
    options: Options,
    subjects: &Subjects<'_>,
    raws: &[RawWord<'_>],
) -> Result<u8, Stop>
    // Each name has its line in order, or a message that says why it has none; names are those that were given, or are read of a list.
    ensures { Works (EndsOverFiles (IsType (D.state desk.old).stored (known_process I.remaining I.health process.entry) (plain_source source.now)
        options (named_subjects raws.now (plain_subjects subjects.now))) (names_in (named_subjects raws.now (plain_subjects subjects.now))
        (D.state desk.old).stored (given_by (I.remaining process.entry.input) (I.health process.entry.input))))
        (D.state desk.old) (D.state desk.new) result }
{
    match source {
        Source::Directories(directories) if !options.cost => {
            print_by_texts(desk, process, directories, options, subjects, raws)
        }
        _ => print_by_cache(desk, process, source, options, subjects, raws),
    }
}

// Prints the lines by the text files of the directories, where a cache can hold what they say.
fn print_by_texts<D: Desk, I: Content + Drop>(
    desk: &mut D,
    process: Process<'_, I>,
    directories: &Directories<'_>,
    options: Options,
    subjects: &Subjects<'_>,
    raws: &[RawWord<'_>],
) -> Result<u8, Stop>
    ensures { Works (EndsOverFiles (IsTypeOver false (D.state desk.old).stored (known_process I.remaining I.health process.entry)
        (plain_directories directories.now) options (named_subjects raws.now (plain_subjects subjects.now)))
        (names_in (named_subjects raws.now (plain_subjects subjects.now)) (D.state desk.old).stored
        (given_by (I.remaining process.entry.input) (I.health process.entry.input)))) (D.state desk.old) (D.state desk.new) result }
{
    let Process {
        environment,
        input,
        to_terminal: _,
    } = process;
    let database = load_fitting(desk, environment, directories)?;
    print_over(desk, &database, options, subjects, raws, input)
}

// Prints the lines by a cache, which is stored or made.
fn print_by_cache<D: Desk, I: Content + Drop>(
    desk: &mut D,
    process: Process<'_, I>,
    source: &Source<'_>,
    options: Options,
    subjects: &Subjects<'_>,
    raws: &[RawWord<'_>],
) -> Result<u8, Stop>
    ensures { Works (EndsOverFiles (IsTypeByCache (D.state desk.old).stored (known_process I.remaining I.health process.entry)
        (plain_source source.now) options (named_subjects raws.now (plain_subjects subjects.now)))
        (names_in (named_subjects raws.now (plain_subjects subjects.now)) (D.state desk.old).stored
        (given_by (I.remaining process.entry.input) (I.health process.entry.input)))) (D.state desk.old) (D.state desk.new) result }
{
    let Process {
        environment,
        input,
        to_terminal: _,
    } = process;
    let cache = read_source(desk, environment, source)?;
    let path = path_of(source);
    let bytes = cache.as_slice();
    let lookup = Lookup {
        by: Data::Cache {
            path,
            bytes,
            cost: options.cost,
        },
        name_only: options.name_only,
        inode: options.inode,
        order: asked_order(options),
        output: options.output,
    };
    print_subjects(desk, lookup, subjects, raws, input)
}
