//! What is looked up: FILEs, standard input by a name, or the FILEs of a list. This project's own.

ghost use Rattle.std.specs.Prelude.{◌≡◌, [], ◌∷◌};
ghost use Rattle.mime_request.specs.Request.{plain_subjects};
ghost use Rattle.mime_tool.specs.Desk.{EndsOverFiles, Works};
ghost use Rattle.mime_tool.specs.Line.{IsTypeLine};
ghost use Rattle.mime_tool.specs.LineSteps.{IsOfSource, LooksUpFile, plain_lookup};
ghost use Rattle.mime_tool.specs.Names.{left_in};
ghost use Rattle.mime_tool.specs.Listed.{AreListed, IsNumbered, empty_name, names_given};
ghost use Rattle.mime_tool.specs.Process.{given_by};
ghost use Rattle.mime_tool.specs.Run.{IsEach, unanswered};
ghost use Rattle.mime_tool.specs.Subjects.{AreSubjectRuns, list_at, names_in};
ghost use Rattle.mime_tool.specs.Words.{named_subjects};

use crate::desk::Desk;
use crate::line::{Lookup, Outcome, find, print_line, print_lines, print_outcome, refuse};
use crate::names::{Names, next_name};
use crate::preparing::{Payments, Prepared};
use crate::status::ANSWERED;
use crate::stop::Stop;
use crate::words::RawWord;
use mime_lookup::Content;
use mime_request::Subjects;
use std::alloc::Global;

/// Prints the lines of what is looked up: of FILEs in order, each by the name of its text, of standard
/// input, or of the FILEs of a list. Gives the status.
pub(crate) fn print_subjects<D: Desk, I: Content + Drop>(
    desk: &mut D,
    lookup: Lookup<'_, '_>,
    subjects: &Subjects<'_>,
    raws: &[RawWord<'_>],
    input: I,
) -> Result<u8, Stop>
    // Each line is that of its name and its content: what is stored, or standard input.
    ensures { Works (EndsOverFiles (AreSubjectRuns (named_subjects raws.now (plain_subjects subjects.now)) (D.state desk.old).stored
        (given_by (I.remaining input) (I.health input)) (IsTypeLine (plain_lookup lookup.entry)))
        (names_in (named_subjects raws.now (plain_subjects subjects.now)) (D.state desk.old).stored
        (given_by (I.remaining input) (I.health input)))) (D.state desk.old) (D.state desk.new) result }
{
    match subjects {
        Subjects::Files(files) => print_lines(desk, lookup, files.as_slice(), raws),
        Subjects::Input(name) => print_input(desk, lookup, name.as_bytes(), input),
        Subjects::List(path) => print_list(desk, lookup, path, input),
    }
}

// Prints the line of standard input under this name.
fn print_input<D: Desk, I: Content + Drop>(
    desk: &mut D,
    lookup: Lookup<'_, '_>,
    name: &[u8],
    input: I,
) -> Result<u8, Stop>
    ensures { Works (EndsOverFiles (IsEach (IsTypeLine (plain_lookup lookup.entry)
        (λ _. given_by (I.remaining input) (I.health input)))) (name.now ∷ [])) (D.state desk.old) (D.state desk.new) result }
{
    let outcome = input_outcome(desk.alloc(), lookup, name, input)?;
    print_outcome(desk, lookup.output, name, outcome)
}

// What standard input comes to. It isn't read where its name alone is asked for.
fn input_outcome<'i, I: Content + Drop>(
    alloc: Global,
    lookup: Lookup<'i, '_>,
    name: &[u8],
    input: I,
) -> Result<Outcome<'i>, Stop>
    ensures { LooksUpFile (plain_lookup lookup.entry) (given_by (I.remaining input) (I.health input)) name.now result }
{
    let mut content = if lookup.name_only { None } else { Some(input) };
    find(alloc, lookup, name, &mut content)
}

// Prints the lines of the FILEs of a list, which is the file of this path, or standard input where that is a hyphen.
fn print_list<D: Desk, I: Content + Drop>(
    desk: &mut D,
    lookup: Lookup<'_, '_>,
    path: &str,
    input: I,
) -> Result<u8, Stop>
    ensures { Works (EndsOverFiles (AreListed (IsTypeLine (plain_lookup lookup.entry) (D.state desk.old).stored) path.now
        (list_at path.now (D.state desk.old).stored (given_by (I.remaining input) (I.health input))) 1)
        (names_given (list_at path.now (D.state desk.old).stored (given_by (I.remaining input) (I.health input)))))
        (D.state desk.old) (D.state desk.new) result }
{
    if path == "-" {
        print_names(desk, lookup, path, input)
    } else {
        let reader = desk.open_list(path)?;
        print_names(desk, lookup, path, reader)
    }
}

// Prints the line of each name that the reader of a list gives, as it comes.
fn print_names<D: Desk, R: Content + Drop>(
    desk: &mut D,
    lookup: Lookup<'_, '_>,
    list: &str,
    reader: R,
) -> Result<u8, Stop>
    ensures { Works (EndsOverFiles (AreListed (IsTypeLine (plain_lookup lookup.entry) (D.state desk.old).stored) list.now
        (given_by (R.remaining reader) (R.health reader)) 1) (names_given (given_by (R.remaining reader) (R.health reader))))
        (D.state desk.old) (D.state desk.new) result }
{
    let mut names = Names::new(desk.alloc(), reader);
    let mut prepared = Prepared::new(lookup);
    let mut paid = Payments::new(lookup);
    print_each(desk, &mut names, &mut prepared, &mut paid, list)
}

// Prints the line of each name that is left.
fn print_each<D: Desk, R: Content + Drop>(
    desk: &mut D,
    names: &mut Names<R>,
    prepared: &mut Prepared<'_, '_>,
    paid: &mut Payments,
    list: &str,
) -> Result<u8, Stop>
    requires { IsOfSource prepared.old }
    ensures { Works (EndsOverFiles (AreListed (IsTypeLine (plain_lookup prepared.old.lookup) (D.state desk.old).stored) list.now
        (left_in R.remaining R.health names.old) 1) (names_given (left_in R.remaining R.health names.old)))
        (D.state desk.old) (D.state desk.new) result }
{
    let mut status = ANSWERED;
    for number in 1..u64::MAX {
        let Some(name) = next_name(desk, names, list)? else {
            return Ok(status);
        };
        status = status.max(print_name(desk, prepared, paid, list, number, name.as_slice())?);
        names.take_back(name);
    }
    // There is no number for one more name.
    Err(Stop::OutOfMemory)
}

// Prints the line of the name of this number, or says that it is empty.
// Always inlined: it is called at one place.
#[inline(always)]
fn print_name<D: Desk>(
    desk: &mut D,
    prepared: &mut Prepared<'_, '_>,
    paid: &mut Payments,
    list: &str,
    number: u64,
    name: &[u8],
) -> Result<u8, Stop>
    requires { IsOfSource prepared.old }
    ensures line { Works (EndsOverFiles (λ _. IsNumbered (IsTypeLine (plain_lookup prepared.old.lookup) (D.state desk.old).stored)
        list.now number name.now) []) (D.state desk.old) (D.state desk.new) result }
    ensures lookup { prepared.new.lookup ≡ prepared.old.lookup }
    ensures prepared { IsOfSource prepared.new }
{
    if name.is_empty() {
        refuse_empty(desk, list, number)
    } else {
        print_line(desk, prepared, paid, name)
    }
}

fn refuse_empty<D: Desk>(desk: &mut D, list: &str, number: u64) -> Result<u8, Stop>
    ensures { Works (EndsOverFiles (λ _ run. run ≡ unanswered (empty_name list.now number)) []) (D.state desk.old) (D.state desk.new) result }
{
    let why = format!(in desk.alloc(); "name {number} is empty")?;
    refuse(desk, list.as_bytes(), why.as_str())
}
