//! The whole program: from words, files and sinks to written bytes and an exit status. This
//! project's own.

ghost use Rattle.std.specs.Prelude.{◌≡◌, ◌≢◌, [], false, is_some, map, true};
ghost use Rattle.clap.specs.Values.{kind_of};
ghost use Rattle.clap.specs.Walk.{texts};
ghost use Rattle.mime_request.specs.Request.{PlainRequest, asks, plain_request, plain_subjects};
ghost use Rattle.mime_tool.specs.Desk.{Does, EndsOverFiles, Works};
ghost use Rattle.mime_tool.specs.Finish.{Finishes};
ghost use Rattle.mime_tool.specs.Heard.{IsRefusedRun, IsReply, LeavesHeard, Replies, heard_names};
ghost use Rattle.mime_tool.specs.Process.{known_process};
ghost use Rattle.mime_tool.specs.Program.{Answers, IsAskedRun, IsShown, asked_files, asked_names, is_help, shown};
ghost use Rattle.mime_tool.specs.Run.{mistaken, printed};
ghost use Rattle.mime_tool.specs.Sink.{IsHandedOn, Wrote};
ghost use Rattle.mime_tool.specs.Stop.{IsFlushed};
ghost use Rattle.mime_tool.specs.Subjects.{file_words};
ghost use Rattle.mime_tool.specs.Words.{heard, heard_in, means, not_text, with_names};

use crate::build::build;
use crate::check::check;
use crate::desk::{Desk, Streams};
use crate::explain::explain;
use crate::files::Files;
use crate::icon::icon;
use crate::is_a::is_a;
use crate::list::list;
use crate::process::Process;
use crate::sink::Sink;
use crate::status::{ANSWERED, MISTAKEN};
use crate::stop::{Stop, tell};
use crate::words::{RawWord, misplaced, refuse_word};
use crate::{plain, types};
use clap::Error;
use clap::error::ErrorKind;
use mime_lookup::Content;
use mime_request::{Request, Subjects, request_of};
use std::alloc::Global;
use std::convert::AsStr;

/// Runs the program on the words after its name, and gives the exit status.
///
/// Those that are no text are in `raws`, by their numbers, and in `words` a text stands in for each. Such a
/// word can only be a FILE, whose name is its bytes. Where one is anything else it is named, and where the
/// words are refused the first of them is; the status then is 2.
///
/// Data directories that are not named are the user's, by the environment of `process`; its standard input
/// is read for `--stdin`, no further than the lookup wants, and for `--files0-from -`.
///
/// The status is 0 where every file was answered, a cache was stored, what was asked of a cache was
/// printed, or help was shown; 1 where some file can't be opened or read or has a name that is too
/// long, or `isa` says no; 2 where the words are wrong; 3 where the data or the cache can't be read or
/// are refused, a cache can't be written or `out` fails; and 4 where memory ran out. Messages go to
/// `err`, a line each; its faults are ignored, unless memory ran out. Lines that were printed
/// before a stop stay, and are flushed.
pub fn run<F: Files, I: Content + Drop, O: Sink, E: Sink, S: AsStr>(
    alloc: Global,
    words: &[S],
    raws: &[RawWord<'_>],
    process: Process<'_, I>,
    files: &mut F,
    out: &mut O,
    err: &mut E,
) -> u8
    // Whatever the words ask for, where it is known what standard output holds. What they ask for is what they mean, where all
    // are text.
    ensures answers { is_some (O.holds out.old) ≡ true
        → Finishes (IsReply (known_process I.remaining I.health process.entry) (F.writes files.old) (F.tells files.old) (F.tells files.new)
        (heard raws.now (map S.text words.now)))
        (heard_names (known_process I.remaining I.health process.entry) (F.tells files.old) (heard raws.now (map S.text words.now)))
        (E.capacity err.old) (record { out = O.holds out.old; err = E.holds err.old })
        (record { out = O.holds out.new; err = E.holds err.new }) result }

    // The same of words that ask for something; what usual words ask for is told by the laws of `mime_request`.
    ensures asked { is_some (O.holds out.old) ≡ true
        → (q : PlainRequest) → heard raws.now (map S.text words.now) ≡ means (asks q)
        → Finishes (IsAskedRun (known_process I.remaining I.health process.entry) (F.writes files.old) (F.tells files.old) (F.tells files.new) q)
        (asked_names (known_process I.remaining I.health process.entry) (F.tells files.old) q)
        (E.capacity err.old) (record { out = O.holds out.old; err = E.holds err.old })
        (record { out = O.holds out.new; err = E.holds err.new }) result }

    // What is left stored, however the run ends: all that was, but for what `build` replaces.
    ensures leaves { LeavesHeard (known_process I.remaining I.health process.entry) (heard raws.now (map S.text words.now)) (F.tells files.old) (F.tells files.new) }

    // The last that standard output was asked is to hand on what it held back.
    ensures flushed { is_some (O.holds out.old) ≡ true → IsHandedOn result (O.flushed out.new) }
{
    finish(alloc, words, raws, process, files, out, err)
}

// Does what the words ask for, hands on what was printed, and says why it stopped.
fn finish<F: Files, I: Content + Drop, O: Sink, E: Sink, S: AsStr>(
    alloc: Global,
    words: &[S],
    raws: &[RawWord<'_>],
    process: Process<'_, I>,
    files: &mut F,
    out: &mut O,
    err: &mut E,
) -> u8
    ensures answers { is_some (O.holds out.old) ≡ true
        → Finishes (IsReply (known_process I.remaining I.health process.entry) (F.writes files.old) (F.tells files.old) (F.tells files.new)
        (heard raws.now (map S.text words.now)))
        (heard_names (known_process I.remaining I.health process.entry) (F.tells files.old) (heard raws.now (map S.text words.now)))
        (E.capacity err.old) (record { out = O.holds out.old; err = E.holds err.old })
        (record { out = O.holds out.new; err = E.holds err.new }) result }
    ensures leaves { LeavesHeard (known_process I.remaining I.health process.entry) (heard raws.now (map S.text words.now)) (F.tells files.old) (F.tells files.new) }
    ensures flushed { is_some (O.holds out.old) ≡ true → IsHandedOn result (O.flushed out.new) }
{
    let ended = perform(alloc, words, raws, process, files, out, err);
    match flush_after(ended, out) {
        Ok(status) => status,
        Err(stop) => tell(&stop, err),
    }
}

// Does what the words ask for over these files and sinks.
fn perform<F: Files, I: Content + Drop, O: Sink, E: Sink, S: AsStr>(
    alloc: Global,
    words: &[S],
    raws: &[RawWord<'_>],
    process: Process<'_, I>,
    files: &mut F,
    out: &mut O,
    err: &mut E,
) -> Result<u8, Stop>
    ensures ended { EndsOverFiles
        (IsReply (known_process I.remaining I.health process.entry) (F.writes files.old) (F.tells files.old) (F.tells files.new)
        (heard raws.now (map S.text words.now)))
        (heard_names (known_process I.remaining I.health process.entry) (F.tells files.old) (heard raws.now (map S.text words.now)))
        (record { out = O.holds out.old; err = E.holds err.old })
        (record { out = O.holds out.new; err = E.holds err.new }) result }
    ensures capacity { E.capacity err.new ≡ E.capacity err.old }
    ensures leaves { LeavesHeard (known_process I.remaining I.health process.entry) (heard raws.now (map S.text words.now)) (F.tells files.old) (F.tells files.new) }
{
    let mut desk = Streams {
        alloc,
        files,
        out,
        err,
    };
    answer_words(&mut desk, words, raws, process)
}

// Hands on what was printed, also before a stop.
fn flush_after<O: Sink>(ended: Result<u8, Stop>, out: &mut O) -> Result<u8, Stop>
    ensures kept { Wrote (O.holds out.old) (O.holds out.new) [] }
    ensures flushed { is_some (O.holds out.old) ≡ true
        → IsFlushed (O.flushed out.new) ended result }
{
    let flushed = out.flush();
    let status = ended?;
    flushed?;
    Ok(status)
}

// Does what the words ask for, or shows help or what is wrong with them.
fn answer_words<D: Desk, I: Content + Drop, S: AsStr>(
    desk: &mut D,
    words: &[S],
    raws: &[RawWord<'_>],
    process: Process<'_, I>,
) -> Result<u8, Stop>
    ensures { Replies (known_process I.remaining I.health process.entry) (heard raws.now (map S.text words.now))
        (D.state desk.old) (D.state desk.new) result }
{
    match request_of(desk.alloc(), words) {
        Ok(request) => answer_placed(desk, process, &request, raws),
        Err(error) => refuse(desk, error, raws),
    }
}

// Does what is asked, where each word that is no text is a FILE.
fn answer_placed<D: Desk, I: Content + Drop>(
    desk: &mut D,
    process: Process<'_, I>,
    request: &Request<'_>,
    raws: &[RawWord<'_>],
) -> Result<u8, Stop>
    ensures { Replies (known_process I.remaining I.health process.entry) (heard_in raws.now (asks (plain_request request.now)))
        (D.state desk.old) (D.state desk.new) result }
{
    match misplaced(raws, files_of(request)) {
        Some(number) => refuse_word(desk, number),
        None => answer(desk, process, request, raws),
    }
}

fn files_of<'m, 'a>(request: &'m Request<'a>) -> &'m [&'a str]
    ensures { texts result.now ≡ asked_files (plain_request request.entry.now) }
{
    match request {
        Request::Plain { subjects, .. } | Request::Type { subjects, .. } => file_words(subjects),
        Request::Explain { files, .. } => files.as_slice(),
        _ => &[],
    }
}

fn file_words<'m, 'a>(subjects: &'m Subjects<'a>) -> &'m [&'a str]
    ensures { texts result.now ≡ file_words (plain_subjects subjects.entry.now) }
{
    match subjects {
        Subjects::Files(files) => files.as_slice(),
        Subjects::Input(_) | Subjects::List(_) => &[],
    }
}

fn answer<D: Desk, I: Content + Drop>(
    desk: &mut D,
    process: Process<'_, I>,
    request: &Request<'_>,
    raws: &[RawWord<'_>],
) -> Result<u8, Stop>
    ensures { Answers (known_process I.remaining I.health process.entry) (asks (with_names raws.now (plain_request request.now)))
        (D.state desk.old) (D.state desk.new) result }
{
    let environment = process.environment;
    match request {
        Request::Build {
            directories,
            drop_twins,
            file,
        } => build(
            desk,
            environment,
            process.to_terminal,
            directories,
            *drop_twins,
            *file,
        ),
        Request::Plain {
            directories,
            options,
            subjects,
        } => plain::print_types(desk, process, directories, *options, subjects, raws),
        Request::List { source } => list(desk, environment, source),
        Request::Check { source } => check(desk, environment, source),
        Request::Explain {
            source,
            options,
            files,
        } => explain(desk, environment, source, *options, files.as_slice(), raws),
        Request::IsA { source, kind, base } => is_a(desk, environment, source, *kind, *base),
        Request::Icon { source, kind } => icon(desk, environment, source, *kind),
        Request::Type {
            source,
            options,
            subjects,
        } => types::print_types(desk, process, source, *options, subjects, raws),
    }
}

// Says which word is no text, or shows help or what is wrong with the words.
fn refuse<D: Desk>(desk: &mut D, error: Error, raws: &[RawWord<'_>]) -> Result<u8, Stop>
    ensures { Works (EndsOverFiles (λ _. IsRefusedRun raws.now (kind_of error)) [])
        (D.state desk.old) (D.state desk.new) result }
{
    match raws {
        [] => show(desk, error),
        [raw, ..] => show_word(desk, &error, raw.number),
    }
}

fn show_word<D: Desk>(desk: &mut D, error: &Error, number: u64) -> Result<u8, Stop>
    ensures { Works (EndsOverFiles (λ _ run. (kind_of error.now ≢ ErrorKind.OutOfMemory) × (run ≡ mistaken (not_text number))) [])
        (D.state desk.old) (D.state desk.new) result }
{
    if is_memory(error) {
        return Err(Stop::OutOfMemory);
    }
    refuse_word(desk, number)
}

// Shows help, or says what is wrong with the words.
fn show<D: Desk>(desk: &mut D, error: Error) -> Result<u8, Stop>
    ensures { Works (EndsOverFiles (λ _. IsShown (kind_of error)) [])
        (D.state desk.old) (D.state desk.new) result }
{
    if is_memory(&error) {
        return Err(Stop::OutOfMemory);
    }
    let text = error.to_string(desk.alloc())?;
    show_text(desk, is_help(&error), text.as_str())
}

fn is_memory(error: &Error) -> bool
    ensures { result ≡ false → kind_of error.now ≢ ErrorKind.OutOfMemory }
{
    error.kind() == ErrorKind::OutOfMemory
}

fn is_help(error: &Error) -> bool
    ensures { result ≡ is_help (kind_of error.now) }
{
    !error.use_stderr()
}

fn show_text<D: Desk>(desk: &mut D, is_help: bool, text: &str) -> Result<u8, Stop>
    ensures { Works (EndsOverFiles (λ _ run. run ≡ shown is_help text.now) [])
        (D.state desk.old) (D.state desk.new) result }
{
    if is_help {
        print_text(desk, text)?;
        Ok(ANSWERED)
    } else {
        desk.complain(text.as_bytes())?;
        Ok(MISTAKEN)
    }
}

fn print_text<D: Desk>(desk: &mut D, text: &str) -> Result<(), Stop>
    ensures { Works (Does (printed text.now)) (D.state desk.old) (D.state desk.new) result }
{
    desk.print(&[text.as_bytes()])
}
