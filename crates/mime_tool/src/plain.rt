//! The command `plain`: the types of files, from the text files of data directories.

ghost use Rattle.mime_base.specs.Database.{plain_database};
ghost use Rattle.mime_request.specs.Request.{plain_directories, plain_subjects};
ghost use Rattle.mime_tool.specs.Desk.{EndsOverFiles, Works};
ghost use Rattle.mime_tool.specs.Plain.{AreTypeLines, IsPlain};
ghost use Rattle.mime_tool.specs.Process.{given_by, known_process};
ghost use Rattle.mime_tool.specs.Subjects.{names_in};
ghost use Rattle.mime_tool.specs.Words.{named_subjects};

use crate::desk::Desk;
use crate::directories::load;
use crate::line::{Data, Lookup, asked_order};
use crate::process::Process;
use crate::stop::Stop;
use crate::subjects::print_subjects;
use crate::words::RawWord;
use mime_base::Database;
use mime_lookup::Content;
use mime_request::{Directories, Options, Subjects};

/// Prints a line `FILE: TYPE` for each name that is looked up, by the data of the directories, and gives the status.
///
/// A file that has no line is reported.
pub(crate) fn print_types<D: Desk, I: Content + Drop>(
    desk: &mut D,
    process: Process<'_, I>,
    directories: &Directories<'_>,
    options: Options,
    subjects: &Subjects<'_>,
    raws: &[RawWord<'_>],
) -> Result<u8, Stop>
    // Each name has its line in order, or a message that says why it has none; names are those that were given, or are read of a list.
    ensures { Works (EndsOverFiles (IsPlain (D.state desk.old).stored (known_process I.remaining I.health process.entry)
        (plain_directories directories.now) options (named_subjects raws.now (plain_subjects subjects.now)))
        (names_in (named_subjects raws.now (plain_subjects subjects.now)) (D.state desk.old).stored
        (given_by (I.remaining process.entry.input) (I.health process.entry.input)))) (D.state desk.old) (D.state desk.new) result }
{
    let Process {
        environment,
        input,
        to_terminal: _,
    } = process;
    let database = load(desk, environment, directories, None)?;
    print_over(desk, &database, options, subjects, raws, input)
}

/// Prints the lines over a database, and gives the status.
pub(crate) fn print_over<D: Desk, I: Content + Drop>(
    desk: &mut D,
    database: &Database,
    options: Options,
    subjects: &Subjects<'_>,
    raws: &[RawWord<'_>],
    input: I,
) -> Result<u8, Stop>
    // Each line has a type that the checking order gives over the database.
    ensures { Works (EndsOverFiles (AreTypeLines (named_subjects raws.now (plain_subjects subjects.now)) (D.state desk.old).stored
        (given_by (I.remaining input) (I.health input)) options (plain_database database.now))
        (names_in (named_subjects raws.now (plain_subjects subjects.now)) (D.state desk.old).stored
        (given_by (I.remaining input) (I.health input)))) (D.state desk.old) (D.state desk.new) result }
{
    let lookup = Lookup {
        by: Data::Database(database),
        name_only: options.name_only,
        inode: options.inode,
        order: asked_order(options),
        output: options.output,
    };
    print_subjects(desk, lookup, subjects, raws, input)
}
