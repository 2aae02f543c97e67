//! What a program over the library for C asks: bench/items.c.

use crate::contents::Pools;
use crate::database::{DESKTOP, make};
use crate::jobs::Job;
use crate::names::{USUAL, make_name};
use crate::shelf::Shelf;
use byteorder::{BigEndian, ByteOrder};
use std::io;
use std::io::Write;

/// Writes a desktop's cache and then names, each with its length before it, in four bytes, the greatest first, and a zero after it.
pub fn write<W: Write>(job: &mut Job<'_>, out: &mut W) -> io::Result<()> {
    let made = make(job.alloc, &mut job.random, DESKTOP)?;
    let pools = Pools::new(job.alloc, &mut job.random)?;
    let mut shelf = Shelf {
        directories: &[&made],
        pools: &pools,
        random: job.fork(),
        awkward: 0,
        cache: Vec::new(job.alloc),
    };
    job.build("0", &mut shelf)?;
    write_text(&shelf.cache, out)?;
    let mut name = Vec::new(job.alloc);
    for _ in 0..job.count {
        make_name(&mut job.random, &made, USUAL, &mut name)?;
        write_text(&name, out)?;
    }
    Ok(())
}

fn write_text<W: Write>(text: &[u8], out: &mut W) -> io::Result<()> {
    let mut length = [0; 4];
    BigEndian::write_u32(&mut length, text.len().min(u32::MAX as usize) as u32);
    out.write_all(&length)?;
    out.write_all(text)?;
    out.write_all(&[0])
}
