//! The answers of a cache's reader and of lookups over caches to questions, as lines that another reader can be held to.
//!
//! The words are the path of a file of caches, each after its length in four bytes, the highest first, and the path
//! of a file of questions, one a line: `open`, `extent`, `rules`, and with a word after a space `unalias`, `icon`,
//! `generic` and `parents` of a type (asked twice with the same marks), `sniff` and `sniff-big` of a content in
//! hexadecimal digits, and `hits` and `candidates` of a name. For each cache and question there is one line: the answer or the fault,
//! what the meter counted from zero, and what the budget of the cache has left. A text stands in quotes, with a byte
//! outside 33 to 126, a quote and a backslash as `\x` and two digits.
//!
//! Whole lookups are `type`, `type-magic-first`, `type-all-globs` and `type-content-only` of a content in hexadecimal
//! digits, or `-`, and of a name after a space, `isa` of a type and another, and `icons` of a type. Their lines end with how much of the content was read.
#![tactic(auto)]

mod answers;
mod lookups;
mod shown;

use answers::answer;
use bstr::ByteSlice;
use byteorder::{BigEndian, ByteOrder};
use std::alloc::Global;
use std::io::{BufWriter, Write};
use std::{env, fs, io};

/// How many bytes of output are held back.
const BUFFER: usize = 65_536;

/// Writes the answers of one cache, a line each.
fn write_answers<W: Write>(
    alloc: Global,
    cache: &[u8],
    questions: &[u8],
    out: &mut W,
) -> io::Result<()> {
    for question in questions.lines() {
        let line = answer(alloc, cache, question)?;
        out.write_all(line.as_bytes())?;
        out.write_all(b"\n")?;
    }
    Ok(())
}

/// Writes the answers of each cache of a file.
fn write_all_answers<W: Write>(
    alloc: Global,
    caches: &[u8],
    questions: &[u8],
    out: &mut W,
) -> io::Result<()> {
    let mut rest = caches;
    for _ in 0..caches.len() {
        if rest.len() < 4 {
            break;
        }
        let (length, after) = rest.split_at(4);
        let size = (BigEndian::read_u32(length) as usize).min(after.len());
        let (cache, others) = after.split_at(size);
        write_answers(alloc, cache, questions, out)?;
        rest = others;
    }
    Ok(())
}

fn main(rt: HostRuntime) -> io::Result<()> {
    let alloc = rt.alloc();
    let mut words = env::args(&rt)?.skip(1);
    let (Some(caches), Some(questions)) = (words.next(), words.next()) else {
        return Ok(());
    };
    let caches = fs::read(&rt, caches.as_str())?;
    let questions = fs::read(&rt, questions.as_str())?;
    let mut out = BufWriter::with_capacity(alloc, BUFFER, rt.stdout())?;
    write_all_answers(alloc, &caches, &questions, &mut out)?;
    out.flush()
}
