//! The rules that match a name: by an index of a database, and by its cache before and after its names are read back.

use super::{cache_of, database_of, opened, unprepared_index_of};
use crate::tests::checked::alike;
use mime_base::{Database, Meter};
use mime_lookup::{Cause, IndexedCache, IndexedDatabase, Stopped, hits_again, hits_indexed};
use mime_samples::texts::{EMPTY, Texts};
use mime_view::{CacheFault, RuleHits};
use std::alloc::Global;
use std::process::Abort;

/// Rules of several weights, of which one is case-sensitive, and types that are aliases.
static TEXTS: [Texts<'static>; 1] = [Texts {
    globs2: b"70:t/star:m*\n255:t/light:*z\n60:t/name:m.gz\n0:t/one:*.gz\n0:t/two:*.GZ:cs\n40:t/three:*.b\n40:t/four:*.b\n",
    aliases: b"t/one t/resolved\nt/star t/resolved\nt/four t/three\n",
    ..EMPTY
}];

/// A name, the type, the weight and the case of each rule that matches it, and how many of these are kept.
type Row = (&'static [u8], &'static [(&'static [u8], u8, bool)], usize);

/// Literal names come first, then endings, then other patterns; of each by weight, length and case; each has its own type. Two types
/// that are one after an alias step are two, both kept.
static ROWS: [Row; 5] = [
    (
        b"M.GZ",
        &[
            (b"t/name", 60, false),
            (b"t/light", 255, false),
            (b"t/two", 0, true),
            (b"t/one", 0, false),
            (b"t/star", 70, false),
        ],
        1,
    ),
    (b"m", &[(b"t/star", 70, false)], 1),
    (
        b"x.b",
        &[(b"t/three", 40, false), (b"t/four", 40, false)],
        2,
    ),
    (b"x", &[], 0),
    (b"", &[], 0),
];

/// Whether rules are those of a row.
fn are_of(rt: &impl Abort, by: &str, found: &RuleHits<'_>, row: &Row) {
    let counts = (found.rules.len(), found.kept);
    alike(rt, by, counts, (row.1.len(), row.2));
    for (rule, expected) in found.rules.iter().zip(row.1) {
        alike(rt, by, (rule.kind, rule.weight, rule.cased), *expected);
    }
}

/// The rules that match a name, by an opened cache, which has that many records to take.
fn again<'a>(
    alloc: Global,
    indexed: &IndexedCache<'a>,
    name: &[u8],
    records: u64,
    meter: &mut Meter,
) -> Result<RuleHits<'a>, CacheFault> {
    if name.len() > 4096 {
        return Err(CacheFault::TooLarge);
    }
    let mut budget = indexed.budget();
    budget.records = budget.records.min(records);
    hits_again(alloc, indexed, name, meter, &mut budget)
}

/// The cache of the texts.
fn cache_of_texts(rt: &impl Abort, alloc: Global) -> Vec<u8> {
    cache_of(rt, alloc, &database_of(rt, alloc, &TEXTS))
}

/// A cache that is opened, with what names need read back.
fn names_read_back<'a>(rt: &impl Abort, alloc: Global, cache: &'a [u8]) -> Box<IndexedCache<'a>> {
    let mut indexed = opened(rt, alloc, cache);
    indexed
        .read_names(alloc, &mut Meter::new())
        .expect(rt, "names");
    indexed
}

/// Each row is found by an index.
fn are_indexed(rt: &impl Abort, alloc: Global, database: &Database) {
    let index = unprepared_index_of(rt, alloc, database);
    for row in &ROWS {
        let (found, _) = hits_indexed(alloc, &index, row.0).expect(rt, "hits");
        are_of(rt, "index", &found, row);
    }
}

#[test]
fn by_an_index(rt: HostRuntime) {
    are_indexed(&rt, rt.alloc(), &database_of(&rt, rt.alloc(), &TEXTS));
}

/// Each row is found by a walk.
fn are_walked(rt: &impl Abort, alloc: Global, cache: &[u8]) {
    let opened = opened(rt, alloc, cache);
    for row in &ROWS {
        let found = again(alloc, &opened, row.0, u64::MAX, &mut Meter::new());
        are_of(rt, "walk", &found.expect(rt, "hits"), row);
    }
}

#[test]
fn by_a_walk(rt: HostRuntime) {
    are_walked(&rt, rt.alloc(), &cache_of_texts(&rt, rt.alloc()));
}

/// A row is found by what was read back, and no record is visited for it.
fn is_read_back(rt: &impl Abort, alloc: Global, indexed: &IndexedCache<'_>, row: &Row) {
    let mut meter = Meter::new();
    let found = again(alloc, indexed, row.0, u64::MAX, &mut meter);
    are_of(rt, "read back", &found.expect(rt, "hits"), row);
    alike(rt, "visited", (meter.nodes, meter.bytes), (0, 0));
}

/// Each row is.
fn are_read_back(rt: &impl Abort, alloc: Global, cache: &[u8]) {
    let indexed = names_read_back(rt, alloc, cache);
    for row in &ROWS {
        is_read_back(rt, alloc, &indexed, row);
    }
}

#[test]
fn by_what_was_read_back(rt: HostRuntime) {
    are_read_back(&rt, rt.alloc(), &cache_of_texts(&rt, rt.alloc()));
}

/// A name of 4,096 bytes is looked up, one of 4,097 is too long.
fn is_limit(rt: &impl Abort, alloc: Global, database: &Database) {
    let index = unprepared_index_of(rt, alloc, database);
    let name = [b'm'; 4097];
    let (found, _) = hits_indexed(alloc, &index, &name[..4096]).expect(rt, "hits");
    alike(rt, "4096", found.rules.len(), 1);
    let refused = hits_indexed(alloc, &index, &name);
    let stopped = Stopped {
        cause: Cause::NameTooLong,
        read: 0,
        meter: Meter::new(),
    };
    alike(rt, "4097", refused.err(), Some(stopped));
}

#[test]
fn long_names(rt: HostRuntime) {
    is_limit(&rt, rt.alloc(), &database_of(&rt, rt.alloc(), &TEXTS));
}

/// Where more rules match than records are left, the budget is spent, whatever was read back.
fn is_spent(rt: &impl Abort, alloc: Global, cache: &[u8]) {
    let indexed = names_read_back(rt, alloc, cache);
    let enough = again(alloc, &indexed, b"M.GZ", 5, &mut Meter::new());
    let found = enough.expect(rt, "hits").rules.len();
    alike(rt, "five", found, 5);
    let spent = again(alloc, &indexed, b"M.GZ", 4, &mut Meter::new());
    alike(rt, "four", spent.err(), Some(CacheFault::Spent));
}

#[test]
fn few_records(rt: HostRuntime) {
    is_spent(&rt, rt.alloc(), &cache_of_texts(&rt, rt.alloc()));
}
