//! The jobs that users of mimelook wait for, to compare how long two builds take.
//!
//! The words are a job, how many inputs it has, and a number that its inputs are made by; the job `all` is each of them, with a
//! few inputs. One line is printed for each job: its name, and a digest of all its results. The text files, caches, names and
//! contents are made here, in the sizes and proportions of real ones. In place of a job, `inputs` prints what a program over the
//! library for C asks.
#![tactic(auto)]

mod contents;
mod database;
mod digest;
mod inputs;
mod jobs;
mod library;
mod names;
mod random;
mod shelf;
mod texts;

use digest::Digest;
use jobs::Job;
use random::Random;
use std::io::{BufWriter, Write};
use std::{env, io};

fn main(rt: HostRuntime) -> io::Result<()> {
    let mut words = env::args(&rt)?.skip(1);
    let Some(name) = words.next() else {
        return Ok(());
    };
    let count = words.next().map_or(0, |word| word.parse().unwrap_or(0));
    let seed = words.next().map_or(0, |word| word.parse().unwrap_or(0));
    if name.as_str() == "inputs" {
        return print_inputs(&rt, count, seed);
    }
    let all = [
        "names", "contents", "folder", "build", "plain", "awkward", "library",
    ];
    for job in &all {
        if name.as_str() == *job || name.as_str() == "all" {
            let digest = digest_of(&rt, job, count, seed)?;
            println!(rt; "{job} {digest:016x}")?;
        }
    }
    Ok(())
}

fn digest_of(rt: &HostRuntime, name: &str, count: u64, seed: u64) -> io::Result<u64> {
    let mut digest = Digest::new();
    let mut job = Job {
        alloc: rt.alloc(),
        random: Random::new(seed),
        count,
        digest: &mut digest,
    };
    match name {
        "names" => jobs::names(&mut job)?,
        "contents" => jobs::contents(&mut job)?,
        "folder" => jobs::folder(&mut job)?,
        "build" => jobs::build(&mut job)?,
        "plain" => jobs::plain(&mut job)?,
        "awkward" => jobs::awkward(&mut job)?,
        _ => library::library(&mut job)?,
    }
    Ok(digest.value())
}

fn print_inputs(rt: &HostRuntime, count: u64, seed: u64) -> io::Result<()> {
    let mut digest = Digest::new();
    let mut job = Job {
        alloc: rt.alloc(),
        random: Random::new(seed),
        count,
        digest: &mut digest,
    };
    let mut out = BufWriter::with_capacity(rt.alloc(), 65_536, rt.stdout())?;
    inputs::write(&mut job, &mut out)?;
    out.flush()
}
