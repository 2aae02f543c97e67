//! One question to one cache, and its answer as a line.

use crate::lookups::{content_of, halves, icons, kind, subclass};
use crate::shown::Shown;
use mime_base::{Counted, Host, Meter};
use mime_lookup::Order;
use mime_view::{Budget, Cache, CacheFault, Marks, Which};
use std::alloc::Global;
use std::io;

/// How many bytes of a name are asked for.
const LONGEST_NAME: usize = 4096;

/// The answer of a cache, given as bytes, to a question, or its fault, with what was counted and what is left or was read.
pub fn answer(alloc: Global, bytes: &[u8], question: &[u8]) -> io::Result<String> {
    let (call, word) = halves(question);
    match call {
        b"type" => kind(alloc, bytes, word, Order::GlobsFirst),
        b"type-magic-first" => kind(alloc, bytes, word, Order::MagicFirst),
        b"type-all-globs" => kind(alloc, bytes, word, Order::AllGlobs),
        b"type-content-only" => kind(alloc, bytes, word, Order::ContentOnly),
        b"isa" => subclass(alloc, bytes, word),
        b"icons" => icons(alloc, bytes, word),
        _ => of_view(alloc, bytes, call, word),
    }
}

/// The answer of a call of the reader.
fn of_view(alloc: Global, bytes: &[u8], call: &[u8], word: &[u8]) -> io::Result<String> {
    let mut meter = Meter::new();
    match Cache::open(Counted::new(bytes), &mut meter) {
        Ok(cache) => of_open_cache(alloc, &cache, meter, call, word),
        Err(fault) => Ok(format!(in alloc;
            "{fault} nodes={} bytes={} records=0 values=0",
            meter.nodes, meter.bytes
        )?),
    }
}

/// The same of a cache that is open, with what was counted by then.
fn of_open_cache(
    alloc: Global,
    cache: &Cache<'_>,
    opened: Meter,
    call: &[u8],
    word: &[u8],
) -> io::Result<String> {
    let mut meter = if call == b"open".as_slice() {
        opened
    } else {
        Meter::new()
    };
    let mut budget = Budget::of(cache);
    let said = ask(alloc, cache, call, word, &mut meter, &mut budget)?;
    let (nodes, bytes) = (meter.nodes, meter.bytes);
    let (records, values) = (budget.records, budget.value_bytes);
    Ok(format!(in alloc; "{said} nodes={nodes} bytes={bytes} records={records} values={values}")?)
}

/// What a call answers to a word.
fn ask(
    alloc: Global,
    cache: &Cache<'_>,
    call: &[u8],
    word: &[u8],
    meter: &mut Meter,
    budget: &mut Budget,
) -> io::Result<String> {
    match call {
        b"open" => Ok(format!(in alloc; "opens")?),
        b"extent" => number(alloc, cache.extent(meter, budget)),
        b"unalias" => text(alloc, cache.unalias(word, meter, budget).map(Some)),
        b"icon" => text(alloc, cache.icon(word, meter, budget)),
        b"generic" => text(alloc, cache.generic_icon(word, meter, budget)),
        b"parents" => twice_parents(alloc, cache, word, meter, budget),
        b"sniff" => sniffed(alloc, cache, word, Host::Little, meter, budget),
        b"sniff-big" => sniffed(alloc, cache, word, Host::Big, meter, budget),
        b"hits" => hits(alloc, cache, word, meter, budget),
        b"candidates" => candidates(alloc, cache, word, meter, budget),
        b"rules" => rules(alloc, cache, meter, budget),
        _ => Ok(format!(in alloc; "no question")?),
    }
}

fn number(alloc: Global, found: Result<u32, CacheFault>) -> io::Result<String> {
    Ok(match found {
        Ok(number) => format!(in alloc; "{number}")?,
        Err(fault) => format!(in alloc; "{fault}")?,
    })
}

fn text(alloc: Global, found: Result<Option<&[u8]>, CacheFault>) -> io::Result<String> {
    Ok(match found {
        Ok(Some(text)) => format!(in alloc; "{}", Shown(text))?,
        Ok(None) => format!(in alloc; "none")?,
        Err(fault) => format!(in alloc; "{fault}")?,
    })
}

/// The parents of a type, asked twice with the same marks.
fn twice_parents(
    alloc: Global,
    cache: &Cache<'_>,
    kind: &[u8],
    meter: &mut Meter,
    budget: &mut Budget,
) -> io::Result<String> {
    let mut marks = Marks::new(alloc);
    let first = parents(alloc, cache, kind, &mut marks, meter, budget)?;
    let second = parents(alloc, cache, kind, &mut marks, meter, budget)?;
    Ok(format!(in alloc; "{first} and {second}")?)
}

fn parents(
    alloc: Global,
    cache: &Cache<'_>,
    kind: &[u8],
    marks: &mut Marks,
    meter: &mut Meter,
    budget: &mut Budget,
) -> io::Result<String> {
    Ok(match cache.parents_of(alloc, kind, marks, meter, budget) {
        Ok(Some(found)) => {
            let mut said = format!(in alloc; "entry {}:", found.entry)?;
            add_texts(alloc, &mut said, found.types.as_slice())?;
            said
        }
        Ok(None) => format!(in alloc; "none")?,
        Err(fault) => format!(in alloc; "{fault}")?,
    })
}

/// Adds texts, each after a space.
fn add_texts(alloc: Global, said: &mut String, texts: &[&[u8]]) -> io::Result<()> {
    for text in texts {
        let shown = format!(in alloc; " {}", Shown(text))?;
        said.push_str(&shown)?;
    }
    Ok(())
}

fn sniffed(
    alloc: Global,
    cache: &Cache<'_>,
    digits: &[u8],
    host: Host,
    meter: &mut Meter,
    budget: &mut Budget,
) -> io::Result<String> {
    let content = content_of(alloc, digits)?;
    Ok(match cache.sniff(&content, host, meter, budget) {
        Ok(Some((kind, priority))) => format!(in alloc; "{} {priority}", Shown(kind))?,
        Ok(None) => format!(in alloc; "none")?,
        Err(fault) => format!(in alloc; "{fault}")?,
    })
}

/// The types of the kept hits of a name, of which no more than 4,096 bytes are asked for.
fn hits(
    alloc: Global,
    cache: &Cache<'_>,
    name: &[u8],
    meter: &mut Meter,
    budget: &mut Budget,
) -> io::Result<String> {
    let asked = &name[..name.len().min(LONGEST_NAME)];
    Ok(
        match cache.glob_hits(alloc, asked, Which::Kept, meter, budget) {
            Ok(hits) => {
                let mut said = format!(in alloc; "hits:")?;
                add_texts(alloc, &mut said, hits.kinds.as_slice())?;
                said
            }
            Err(fault) => format!(in alloc; "{fault}")?,
        },
    )
}

/// How many of all rules that match a name are kept, and the types of all.
fn candidates(
    alloc: Global,
    cache: &Cache<'_>,
    name: &[u8],
    meter: &mut Meter,
    budget: &mut Budget,
) -> io::Result<String> {
    let asked = &name[..name.len().min(LONGEST_NAME)];
    Ok(
        match cache.glob_hits(alloc, asked, Which::Candidates, meter, budget) {
            Ok(hits) => {
                let mut said = format!(in alloc; "{} of:", hits.kept)?;
                add_texts(alloc, &mut said, hits.kinds.as_slice())?;
                said
            }
            Err(fault) => format!(in alloc; "{fault}")?,
        },
    )
}

fn rules(
    alloc: Global,
    cache: &Cache<'_>,
    meter: &mut Meter,
    budget: &mut Budget,
) -> io::Result<String> {
    Ok(match cache.rules(alloc, meter, budget) {
        Ok(listed) => {
            let mut said = format!(in alloc; "rules:")?;
            for rule in &listed {
                let (kind, pattern) = (Shown(rule.kind), Shown(&rule.pattern));
                let flag = if rule.cased { ":cs" } else { "" };
                said.push_str(&format!(in alloc; " {}:{kind}:{pattern}{flag}", rule.weight)?)?;
            }
            said
        }
        Err(fault) => format!(in alloc; "{fault}")?,
    })
}
