//! Runs of the program, and what they end with.
//!
//! Nothing is promised of them, so a test that asks one is not proved of all that a run promises.

use mime_lookup::Content;
use mime_tool::{Environment, Files, Process, RawWord, Sink, run};
use std::alloc::Global;

/// Variables of the environment, of which none is set.
pub const UNSET: Environment<'static> = Environment {
    data_home: None,
    home: None,
    data_dirs: None,
};

/// A process with this environment, and nothing on standard input.
pub fn in_environment<'a>(environment: Option<Environment<'a>>) -> Process<'a, &'a [u8]> {
    Process {
        environment,
        input: b"",
        to_terminal: false,
    }
}

/// A run's status, and what it prints and says.
#[derive(Clone, Copy)]
pub struct Said<'a> {
    pub status: u8,
    pub out: &'a str,
    pub err: &'a str,
}

/// A run's status, and the bytes that it printed and said.
#[derive(Drop)]
pub struct Outcome {
    pub status: u8,
    pub out: Vec<u8>,
    pub err: Vec<u8>,
}

// The status of a run.
fn status_of<F: Files, I: Content + Drop, O: Sink, E: Sink>(
    alloc: Global,
    words: &[&str],
    raws: &[RawWord<'_>],
    process: Process<'_, I>,
    files: &mut F,
    out: &mut O,
    err: &mut E,
) -> u8 {
    run(alloc, words, raws, process, files, out, err)
}

/// The status of a run where no variable is set and nothing is on standard input.
pub fn ran<F: Files, O: Sink, E: Sink>(
    alloc: Global,
    words: &[&str],
    files: &mut F,
    out: &mut O,
    err: &mut E,
) -> u8 {
    let process = in_environment(Some(UNSET));
    status_of(alloc, words, &[], process, files, out, err)
}

/// What a run of this process ends with, of words of which those that are no text are beside them.
pub fn ended_by<F: Files, I: Content + Drop>(
    alloc: Global,
    words: &[&str],
    raws: &[RawWord<'_>],
    process: Process<'_, I>,
    files: &mut F,
) -> Outcome {
    let mut out = Vec::new(alloc);
    let mut err = Vec::new(alloc);
    let status = status_of(alloc, words, raws, process, files, &mut out, &mut err);
    Outcome { status, out, err }
}

/// What a run ends with where no variable is set and nothing is on standard input.
pub fn ended<F: Files>(alloc: Global, words: &[&str], files: &mut F) -> Outcome {
    ended_by(alloc, words, &[], in_environment(Some(UNSET)), files)
}
