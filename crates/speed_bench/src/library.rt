//! An application asks the library for one file at a time.

use crate::contents::Pools;
use crate::database::{DESKTOP, make};
use crate::jobs::Job;
use crate::names::{USUAL, make_name};
use crate::shelf::{CACHE, Shelf};
use mime_base::{Counted, Host};
use mime_lookup::{Order, look_up, look_up_name, sniff_alone};
use std::io;

/// Of 100 files, how many contents are asked for too.
const WITH_CONTENT: usize = 12;

/// Each name by itself, and some contents, alone and with their names: a call for each.
pub fn library(job: &mut Job<'_>) -> io::Result<()> {
    let made = make(job.alloc, &mut job.random, DESKTOP)?;
    let pools = Pools::new(job.alloc, &mut job.random)?;
    let mut shelf = Shelf {
        directories: &[&made],
        pools: &pools,
        random: job.fork(),
        awkward: 0,
        cache: Vec::new(job.alloc),
    };
    job.build("0", &mut shelf)?;
    let mut name = Vec::new(job.alloc);
    for _ in 0..job.count {
        make_name(&mut job.random, &made, USUAL, &mut name)?;
        ask_name(job, &shelf.cache, &name)?;
        if job.random.chance(WITH_CONTENT) {
            let content = pools.make_single(job.alloc, &mut job.random, &made)?;
            ask_content(job, &shelf.cache, &name, &content)?;
        }
    }
    Ok(())
}

// Adds the type of a name, and how much of a content is wanted; and its type where no content is available.
fn ask_name(job: &mut Job<'_>, cache: &[u8], name: &[u8]) -> io::Result<()> {
    let order = Order::GlobsFirst;
    match look_up_name(job.alloc, Counted::new(cache), name, order) {
        Ok(found) => {
            job.digest.add(found.kind);
            job.digest.add_number(found.wanted);
            job.add_meter(found.meter);
        }
        Err(stopped) => job.add_stop(&stopped)?,
    }
    let mut none: Option<&[u8]> = None;
    let found = look_up(
        job.alloc,
        Counted::new(cache),
        name,
        &mut none,
        Host::Little,
        order,
    );
    job.add_answer(&found)
}

// Adds what a content is by itself, and with its name.
fn ask_content(job: &mut Job<'_>, cache: &[u8], name: &[u8], content: &[u8]) -> io::Result<()> {
    match sniff_alone(Counted::new(cache), content, Host::Little) {
        Ok(found) => {
            job.digest.add(found.kind);
            job.digest
                .add_number(u64::from(found.priority.unwrap_or(0)));
            job.digest.add_number(found.read);
            job.add_meter(found.meter);
        }
        Err(stopped) => job.add_stop(&stopped)?,
    }
    let mut content = Some(content);
    let order = Order::MagicFirst;
    let found = look_up(
        job.alloc,
        Counted::new(cache),
        name,
        &mut content,
        Host::Little,
        order,
    );
    job.add_answer(&found)
}
