//! The program mimelook: it tells the MIME types of files. The words of the command line, the
//! system's files and the standard streams go to [`run`], which gives the exit status.
#![tactic(auto)]

mod words;

use mime_tool::{Environment, Process, Stream, SystemFiles, Untold, run};
use std::alloc::AllocError;
use std::env::VarError;
use std::io::{BufWriter, IsTerminal};
use std::process::ExitCode;
use std::{env, io};
use words::Words;

/// How many bytes of output are held back.
const BUFFER: usize = 65_536;

/// The exit status where memory ran out.
const OUT_OF_MEMORY: u8 = 4;

fn main(rt: HostRuntime) -> ExitCode {
    ExitCode::from(match run_system(&rt) {
        Ok(status) => status,
        Err(_) => {
            let _ = rt.eprintln("mimelook: out of memory");
            OUT_OF_MEMORY
        }
    })
}

// Runs the program on the words after its name. An error says that memory ran out before.
fn run_system(rt: &HostRuntime) -> io::Result<u8> {
    let alloc = rt.alloc();
    let words = Words::read(rt, alloc)?;
    let raws = words.raws(alloc)?;
    let variables = match Variables::read(rt) {
        Ok(variables) => Some(variables),
        Err(VarError::OutOfMemory) => return Err(io::Error::from(AllocError)),
        Err(_) => None,
    };
    let environment = variables.as_ref().map(|variables| variables.environment());
    let process = Process {
        environment,
        input: Untold(rt.stdin()),
        to_terminal: rt.stdout().is_terminal(),
    };
    let mut files = SystemFiles::new(rt);
    let mut out = Stream(BufWriter::with_capacity(alloc, BUFFER, rt.stdout())?);
    let mut err = Stream(rt.stderr());
    Ok(run(
        alloc,
        words.texts.as_slice(),
        raws.as_slice(),
        process,
        &mut files,
        &mut out,
        &mut err,
    ))
}

// The variables that name data directories, each if it is set.
#[derive(Drop)]
struct Variables {
    data_home: Option<String>,
    home: Option<String>,
    data_dirs: Option<String>,
}

impl Variables {
    // An error says that memory ran out, or that some variable is no text.
    fn read(rt: &HostRuntime) -> Result<Variables, VarError> {
        Ok(Variables {
            data_home: variable(rt, "XDG_DATA_HOME")?,
            home: variable(rt, "HOME")?,
            data_dirs: variable(rt, "XDG_DATA_DIRS")?,
        })
    }

    fn environment(&self) -> Environment<'_> {
        Environment {
            data_home: self.data_home.as_deref(),
            home: self.home.as_deref(),
            data_dirs: self.data_dirs.as_deref(),
        }
    }
}

fn variable(rt: &HostRuntime, name: &str) -> Result<Option<String>, VarError> {
    match env::var(rt, name) {
        Ok(text) => Ok(Some(text)),
        Err(VarError::NotPresent) => Ok(None),
        Err(error) => Err(error),
    }
}
