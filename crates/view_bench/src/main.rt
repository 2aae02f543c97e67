//! A call of a cache's reader for each line of a file, for a tool that counts instructions.
//!
//! The words are a call, how many turns, the path of a cache and the path of a file. Its lines are names for
//! `hits`, `candidates`, `name` and `name-of-all`, and types for `unalias`, `parents` and `icon`. For `sniff` and `content` it holds contents, each
//! after its length in four bytes, the highest first. `name` and `content` are whole lookups, the latter of a name that
//! no rule matches. Any other call asks nothing.
#![tactic(auto)]

use bstr::ByteSlice;
use byteorder::{BigEndian, ByteOrder};
use mime_base::{Counted, Host, Meter};
use mime_lookup::{Order, look_up};
use mime_view::{Budget, Cache, CacheFault, Marks, Which};
use std::alloc::Global;
use std::{env, fs, io};

/// What is asked.
#[derive(Clone, Copy)]
enum Call {
    Nothing,
    Hits,
    Candidates,
    Unalias,
    Parents,
    Icon,
    Sniff,
    Name,
    NameOfAll,
    Content,
}

fn call_of(word: &str) -> Call {
    match word {
        "hits" => Call::Hits,
        "candidates" => Call::Candidates,
        "unalias" => Call::Unalias,
        "parents" => Call::Parents,
        "icon" => Call::Icon,
        "sniff" => Call::Sniff,
        "name" => Call::Name,
        "name-of-all" => Call::NameOfAll,
        "content" => Call::Content,
        _ => Call::Nothing,
    }
}

/// A call for one line or content, and a number that takes in its answer.
fn ask(
    alloc: Global,
    call: Call,
    cache: &Cache<'_>,
    bytes: &[u8],
    asked: &[u8],
    meter: &mut Meter,
) -> Result<u64, CacheFault> {
    let mut budget = Budget::of(cache);
    match call {
        Call::Nothing => Ok(asked.len() as u64),
        Call::Hits => hits(alloc, cache, asked, Which::Kept, meter, &mut budget),
        Call::Candidates => hits(alloc, cache, asked, Which::Candidates, meter, &mut budget),
        Call::Unalias => unalias(cache, asked, meter, &mut budget),
        Call::Parents => parents(alloc, cache, asked, meter, &mut budget),
        Call::Icon => icon(cache, asked, meter, &mut budget),
        Call::Sniff => sniffed(cache, asked, meter, &mut budget),
        Call::Name => Ok(kind_length(alloc, bytes, asked, None, Order::GlobsFirst)),
        Call::NameOfAll => Ok(kind_length(alloc, bytes, asked, None, Order::AllGlobs)),
        Call::Content => Ok(kind_length(alloc, bytes, b"\x01", Some(asked), Order::GlobsFirst)),
    }
}

/// How long the type is that a lookup answers, or 0.
fn kind_length(
    alloc: Global,
    bytes: &[u8],
    name: &[u8],
    content: Option<&[u8]>,
    order: Order,
) -> u64 {
    let (cache, mut content) = (Counted::new(bytes), content);
    match look_up(alloc, cache, name, &mut content, Host::Little, order) {
        Ok(answer) => answer.kind.len() as u64,
        Err(_) => 0,
    }
}

fn hits(
    alloc: Global,
    cache: &Cache<'_>,
    name: &[u8],
    which: Which,
    meter: &mut Meter,
    budget: &mut Budget,
) -> Result<u64, CacheFault> {
    if 4096 < name.len() {
        return Ok(0);
    }
    let hits = cache.glob_hits(alloc, name, which, meter, budget)?;
    Ok(hits.kinds.as_slice().len() as u64)
}

fn unalias(
    cache: &Cache<'_>,
    kind: &[u8],
    meter: &mut Meter,
    budget: &mut Budget,
) -> Result<u64, CacheFault> {
    let name = cache.unalias(kind, meter, budget)?;
    Ok(name.len() as u64)
}

fn parents(
    alloc: Global,
    cache: &Cache<'_>,
    kind: &[u8],
    meter: &mut Meter,
    budget: &mut Budget,
) -> Result<u64, CacheFault> {
    let mut marks = Marks::new(alloc);
    let found = cache.parents_of(alloc, kind, &mut marks, meter, budget)?;
    Ok(u64::from(found.is_some()))
}

fn icon(
    cache: &Cache<'_>,
    kind: &[u8],
    meter: &mut Meter,
    budget: &mut Budget,
) -> Result<u64, CacheFault> {
    let name = cache.icon(kind, meter, budget)?;
    Ok(name.map_or(0, |name| name.len() as u64))
}

fn sniffed(
    cache: &Cache<'_>,
    content: &[u8],
    meter: &mut Meter,
    budget: &mut Budget,
) -> Result<u64, CacheFault> {
    let found = cache.sniff(content, Host::Little, meter, budget)?;
    Ok(found.map_or(0, |(kind, _)| kind.len() as u64))
}

/// The answers over all that the file holds.
fn turn(
    alloc: Global,
    call: Call,
    cache: &Cache<'_>,
    bytes: &[u8],
    file: &[u8],
    meter: &mut Meter,
) -> Result<u64, CacheFault> {
    match call {
        Call::Sniff | Call::Content => over_contents(alloc, call, cache, bytes, file, meter),
        _ => over_lines(alloc, call, cache, bytes, file, meter),
    }
}

fn over_lines(
    alloc: Global,
    call: Call,
    cache: &Cache<'_>,
    bytes: &[u8],
    file: &[u8],
    meter: &mut Meter,
) -> Result<u64, CacheFault> {
    let mut all = 0u64;
    for line in file.lines() {
        all = all.wrapping_add(ask(alloc, call, cache, bytes, line, meter)?);
    }
    Ok(all)
}

fn over_contents(
    alloc: Global,
    call: Call,
    cache: &Cache<'_>,
    bytes: &[u8],
    file: &[u8],
    meter: &mut Meter,
) -> Result<u64, CacheFault> {
    let mut all = 0u64;
    let mut rest = file;
    while 4 <= rest.len() {
        let (length, after) = rest.split_at(4);
        let size = (BigEndian::read_u32(length) as usize).min(after.len());
        let (content, others) = after.split_at(size);
        all = all.wrapping_add(ask(alloc, call, cache, bytes, content, meter)?);
        rest = others;
    }
    Ok(all)
}

fn ask_all(
    alloc: Global,
    call: Call,
    turns: u64,
    bytes: &[u8],
    file: &[u8],
    meter: &mut Meter,
) -> Result<u64, CacheFault> {
    let cache = Cache::open(Counted::new(bytes), meter)?;
    let mut all = 0u64;
    for _ in 0..turns {
        all = all.wrapping_add(turn(alloc, call, &cache, bytes, file, meter)?);
    }
    Ok(all)
}

fn main(rt: HostRuntime) -> io::Result<()> {
    let mut words = env::args(&rt)?.skip(1);
    let call = words.next().map_or(Call::Nothing, |word| call_of(&word));
    let turns = words.next().map_or(0, |word| word.parse().unwrap_or(0));
    let (Some(cache), Some(file)) = (words.next(), words.next()) else {
        return Ok(());
    };
    let bytes = fs::read(&rt, cache.as_str())?;
    let file = fs::read(&rt, file.as_str())?;
    let mut meter = Meter::new();
    match ask_all(rt.alloc(), call, turns, &bytes, &file, &mut meter) {
        Ok(all) => println!(rt; "{all} nodes={} bytes={}", meter.nodes, meter.bytes),
        Err(fault) => println!(rt; "{fault}"),
    }
}
