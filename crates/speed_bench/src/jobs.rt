//! The jobs that users wait for, each over inputs of its own.

use crate::contents::Pools;
use crate::database::{ADDED, DESKTOP, Made, TENFOLD, make};
use crate::digest::Digest;
use crate::names::{AWKWARD, Kinds, NameList, UNKNOWN, USUAL, make_name};
use crate::random::Random;
use crate::shelf::{CACHE, Shelf};
use mime_base::{Counted, Host, Meter, TypeName};
use mime_lookup::{Answer, Content, Order, Stopped, Untold, icon_of, is_a, look_up};
use mime_tool::{Process, Stream, run};
use std::alloc::Global;
use std::io;
use std::io::{BufWriter, Cursor};

/// What a job is done with.
#[derive(Drop)]
pub struct Job<'d> {
    pub alloc: Global,
    pub random: Random,
    /// How many inputs it has.
    pub count: u64,
    /// What its results are added to.
    pub digest: &'d mut Digest,
}

/// The bases that types are asked for.
const BASES: [&[u8]; 4] = [
    b"text/plain",
    b"application/xml",
    b"application/zip",
    b"application/octet-stream",
];

/// As many bytes of output are held back as in the program.
const BUFFER: usize = 65_536;

impl Job<'_> {
    /// Another source of numbers, that follows from this one.
    pub fn fork(&mut self) -> Random {
        Random::new(self.random.next())
    }

    // Runs the program, and adds both outputs and the status.
    fn run<I: Content + Drop>(
        &mut self,
        words: &[&str],
        input: I,
        shelf: &mut Shelf<'_>,
    ) -> io::Result<()> {
        let mut printed = Digest::new();
        let mut err = Vec::new(self.alloc);
        let process = Process {
            environment: None,
            input,
            to_terminal: false,
        };
        let mut out = Stream(BufWriter::with_capacity(self.alloc, BUFFER, &mut printed)?);
        let status = run(self.alloc, words, &[], process, shelf, &mut out, &mut err);
        drop(out);
        self.digest.add_number(printed.value());
        self.digest.add(&err);
        self.digest.add_number(u64::from(status));
        Ok(())
    }

    /// Builds the cache of the directories.
    pub fn build(&mut self, directories: &str, shelf: &mut Shelf<'_>) -> io::Result<()> {
        let words = ["build", "-d", directories, "-o", CACHE];
        self.run(&words, Untold(Cursor::new(Vec::new(self.alloc))), shelf)?;
        self.digest.add(&shelf.cache);
        Ok(())
    }

    // Looks up that many names, and the contents that their files are opened with.
    fn look_up(
        &mut self,
        words: &[&str],
        made: &Made,
        kinds: Kinds,
        count: u64,
        shelf: &mut Shelf<'_>,
    ) -> io::Result<()> {
        let random = self.fork();
        let list = NameList::new(made, random, kinds, count, Vec::new(self.alloc));
        self.run(words, Untold(list), shelf)
    }

    /// Adds what a lookup over a cache comes to.
    pub fn add_answer(&mut self, found: &Result<Answer<'_>, Stopped>) -> io::Result<()> {
        match found {
            Ok(answer) => {
                self.digest.add(answer.kind);
                self.digest.add_number(answer.read);
                self.add_meter(answer.meter);
                Ok(())
            }
            Err(stopped) => self.add_stop(stopped),
        }
    }

    /// Adds why a lookup stopped, and what it had read and counted.
    pub fn add_stop(&mut self, stopped: &Stopped) -> io::Result<()> {
        let why = format!(in self.alloc; "{stopped}")?;
        self.digest.add(why.as_bytes());
        self.digest.add_number(stopped.read);
        self.add_meter(stopped.meter);
        Ok(())
    }

    /// Adds what was counted.
    pub fn add_meter(&mut self, meter: Meter) {
        self.digest.add_number(meter.nodes);
        self.digest.add_number(meter.bytes);
    }
}

/// A file manager opens a folder: names by a desktop's cache.
pub fn names(job: &mut Job<'_>) -> io::Result<()> {
    let words = ["type", "-c", CACHE, "--name-only", "--files0-from", "-"];
    over_cache(job, &words, USUAL)
}

/// An indexer goes through attachments and downloads: contents by a desktop's cache, of names that mostly have no rule.
pub fn contents(job: &mut Job<'_>) -> io::Result<()> {
    let words = ["type", "-c", CACHE, "--files0-from", "-"];
    over_cache(job, &words, UNKNOWN)
}

fn over_cache(job: &mut Job<'_>, words: &[&str], kinds: Kinds) -> io::Result<()> {
    let made = make(job.alloc, &mut job.random, DESKTOP)?;
    let pools = Pools::new(job.alloc, &mut job.random)?;
    let mut shelf = Shelf {
        directories: &[&made],
        pools: &pools,
        random: job.fork(),
        awkward: 0,
        cache: Vec::new(job.alloc),
    };
    job.build("0", &mut shelf)?;
    job.look_up(words, &made, kinds, job.count, &mut shelf)
}

/// Names and contents straight from the text files, with no cache.
pub fn plain(job: &mut Job<'_>) -> io::Result<()> {
    let made = make(job.alloc, &mut job.random, DESKTOP)?;
    let added = make(job.alloc, &mut job.random, ADDED)?;
    let pools = Pools::new(job.alloc, &mut job.random)?;
    let mut shelf = Shelf {
        directories: &[&made, &added],
        pools: &pools,
        random: job.fork(),
        awkward: 0,
        cache: Vec::new(job.alloc),
    };
    let words = ["plain", "-d", "1:0", "--files0-from", "-"];
    job.look_up(&words, &made, USUAL, job.count, &mut shelf)
}

/// Packages are installed: caches are built of a large directory and small ones, in several orders of preference.
pub fn build(job: &mut Job<'_>) -> io::Result<()> {
    let pools = Pools::new(job.alloc, &mut job.random)?;
    for _ in 0..job.count {
        let made = make(job.alloc, &mut job.random, DESKTOP)?;
        let added = make(job.alloc, &mut job.random, ADDED)?;
        let own = make(job.alloc, &mut job.random, ADDED)?;
        let mut shelf = Shelf {
            directories: &[&made, &added, &own],
            pools: &pools,
            random: job.fork(),
            awkward: 0,
            cache: Vec::new(job.alloc),
        };
        for directories in &["2:1:0", "0:2:1", "1:0"] {
            job.build(directories, &mut shelf)?;
        }
    }
    Ok(())
}

/// An application shows the items of a folder: the type of each, its icons, and whether it is under a base.
pub fn folder(job: &mut Job<'_>) -> io::Result<()> {
    let made = make(job.alloc, &mut job.random, DESKTOP)?;
    let pools = Pools::new(job.alloc, &mut job.random)?;
    let mut shelf = Shelf {
        directories: &[&made],
        pools: &pools,
        random: job.fork(),
        awkward: 0,
        cache: Vec::new(job.alloc),
    };
    job.build("0", &mut shelf)?;
    let mut name = Vec::new(job.alloc);
    for _ in 0..job.count {
        make_name(&mut job.random, &made, USUAL, &mut name)?;
        ask_item(job, &made, &shelf.cache, &name)?;
    }
    Ok(())
}

fn ask_item(job: &mut Job<'_>, made: &Made, cache: &[u8], name: &[u8]) -> io::Result<()> {
    let mut none: Option<&[u8]> = None;
    let (host, order) = (Host::Little, Order::GlobsFirst);
    let found = look_up(job.alloc, Counted::new(cache), name, &mut none, host, order);
    job.add_answer(&found)?;
    let Ok(answer) = found else {
        return Ok(());
    };
    let base = match BASES.get(job.random.below(8)) {
        Some(base) => *base,
        None => made.kinds.common(&mut job.random),
    };
    let Ok(kind) = TypeName::new(job.alloc, answer.kind) else {
        return Ok(());
    };
    let Ok(base) = TypeName::new(job.alloc, base) else {
        return Ok(());
    };
    ask_type(job, cache, &kind, &base);
    Ok(())
}

// Adds a type's icons, and whether it is under the base.
fn ask_type(job: &mut Job<'_>, cache: &[u8], kind: &TypeName, base: &TypeName) {
    if let Ok(icons) = icon_of(job.alloc, Counted::new(cache), kind) {
        job.digest.add(&icons.icon);
        job.digest.add(&icons.generic);
        job.digest.add_number(icons.meter.bytes);
    }
    if let Ok((is_under, meter)) = is_a(job.alloc, Counted::new(cache), kind, base) {
        job.digest.add_number(u64::from(is_under));
        job.digest.add_number(meter.bytes);
    }
}

/// A database ten times as large, names with capitals and of thousands of bytes, contents that repeat what values begin with, and
/// damaged caches.
pub fn awkward(job: &mut Job<'_>) -> io::Result<()> {
    let made = make(job.alloc, &mut job.random, TENFOLD)?;
    let pools = Pools::new(job.alloc, &mut job.random)?;
    let mut shelf = Shelf {
        directories: &[&made],
        pools: &pools,
        random: job.fork(),
        awkward: 30,
        cache: Vec::new(job.alloc),
    };
    job.build("0", &mut shelf)?;
    let by_both = ["type", "-c", CACHE, "--files0-from", "-"];
    job.look_up(&by_both, &made, AWKWARD, job.count, &mut shelf)?;
    let by_name = [
        "type",
        "-c",
        CACHE,
        "--name-only",
        "--all-globs",
        "--files0-from",
        "-",
    ];
    let more = job.count.saturating_mul(30);
    job.look_up(&by_name, &made, AWKWARD, more, &mut shelf)?;
    over_damaged(job, &pools)
}

// Names and contents by caches of which some bytes are others.
fn over_damaged(job: &mut Job<'_>, pools: &Pools) -> io::Result<()> {
    let made = make(job.alloc, &mut job.random, DESKTOP)?;
    let mut shelf = Shelf {
        directories: &[&made],
        pools,
        random: job.fork(),
        awkward: 30,
        cache: Vec::new(job.alloc),
    };
    job.build("0", &mut shelf)?;
    let mut cache = shelf.cache;
    let mut name = Vec::new(job.alloc);
    for _ in 0..job.count.saturating_mul(4) {
        make_name(&mut job.random, &made, AWKWARD, &mut name)?;
        let content = pools.make(job.alloc, &mut job.random, &made)?;
        let places = [0; 8].map(|_| job.random.below(cache.len()));
        let bytes = damage(&mut job.random, &mut cache, &places);
        ask_damaged(job, &cache, &name, &content)?;
        repair(&mut cache, &places, &bytes);
    }
    Ok(())
}

// Changes the bytes at these places, and gives those that were there.
fn damage(random: &mut Random, cache: &mut [u8], places: &[usize; 8]) -> [u8; 8] {
    let mut bytes = [0; 8];
    for (place, byte) in places.iter().zip(bytes.iter_mut()) {
        if let Some(here) = cache.get_mut(*place) {
            *byte = *here;
            *here = (random.next() % 256) as u8;
        }
    }
    bytes
}

// Puts the bytes back, the last first.
fn repair(cache: &mut [u8], places: &[usize; 8], bytes: &[u8; 8]) {
    for (place, byte) in places.iter().zip(bytes.iter()).rev() {
        if let Some(here) = cache.get_mut(*place) {
            *here = *byte;
        }
    }
}

fn ask_damaged(job: &mut Job<'_>, cache: &[u8], name: &[u8], content: &[u8]) -> io::Result<()> {
    let order = match job.random.below(4) {
        0 => Order::GlobsFirst,
        1 => Order::MagicFirst,
        2 => Order::AllGlobs,
        _ => Order::ContentOnly,
    };
    let mut content = Some(content);
    let found = look_up(
        job.alloc,
        Counted::new(cache),
        name,
        &mut content,
        Host::Little,
        order,
    );
    job.add_answer(&found)
}
