//! The types that the glob rules of a cache give to a name.
//!
//! The sample's literal list stands at 72; its one entry names `mk` at 232. Its tree stands at 88, with the
//! nodes `z`, `g` and `.` at 96, 108 and 120 and the leaf of `*.gz` at 132. Its glob list is empty.

use crate::tests::caches::written;
use crate::tests::checked::alike;
use mime_base::{Counted, Meter};
use mime_samples::caches::SAMPLE;
use mime_samples::texts::{EMPTY, Texts};
use mime_view::{Budget, Cache, CacheFault, NameHits, RuleHits, Which};
use std::alloc::Global;
use std::test::Fail;

/// The types of the rules of a name that are asked for by these bytes, and how many records are left.
fn hits<'a>(
    alloc: Global,
    bytes: &'a [u8],
    name: &[u8],
    which: Which,
    records_left: &mut u64,
) -> Result<NameHits<'a>, CacheFault> {
    if name.len() > 4096 {
        return Err(CacheFault::TooLarge);
    }
    let mut meter = Meter::new();
    let cache = Cache::open(Counted::new(bytes), &mut meter)?;
    let mut budget = Budget::of(&cache);
    let hits = cache.glob_hits(alloc, name, which, &mut meter, &mut budget);
    *records_left = budget.records;
    hits
}

/// The node `z` is its own child, so each `z` of a name takes two records.
#[test]
fn a_tree_that_loops(rt: HostRuntime) -> Result<(), CacheFault> {
    let alloc = rt.alloc();
    let mut bytes = SAMPLE;
    bytes[107] = 0x60;
    let name = [b'z'; 31];
    let mut records_left = 60;
    let given = hits(alloc, &bytes, &name[..30], Which::Kept, &mut records_left)?;
    let count = given.kinds.as_slice().len();
    alike(&rt, "30 characters", (count, records_left), (0, 0));
    let refused = hits(alloc, &bytes, &name, Which::Kept, &mut records_left);
    let spent = (Some(CacheFault::Spent), 0);
    alike(&rt, "31 characters", (refused.err(), records_left), spent);
    Ok(())
}

/// The type of `*.gz` stands after the sample, as 255 bytes with a zero or as 256 bytes without one.
#[test]
fn a_type_of_many_bytes(rt: HostRuntime) -> Result<(), CacheFault> {
    let alloc = rt.alloc();
    let mut bytes = [b'a'; 496];
    bytes[..240].copy_from_slice(&SAMPLE);
    bytes[136..140].copy_from_slice(&[0, 0, 0, 240]);
    let mut records_left = 0;
    let long = hits(alloc, &bytes, b"A.GZ", Which::Kept, &mut records_left);
    alike(
        &rt,
        "256 bytes",
        long.err(),
        Some(CacheFault::LongText(240)),
    );
    bytes[495] = 0;
    let given = hits(alloc, &bytes, b"A.GZ", Which::Candidates, &mut records_left)?;
    alike(
        &rt,
        "255 bytes",
        given.kinds.as_slice(),
        &[[b'a'; 255].as_slice()],
    );
    Ok(())
}

/// Below 88 bytes the literal list lies outside, up to 232 its one text.
#[test]
fn a_sample_that_is_cut(rt: HostRuntime) {
    for size in 40..233 {
        let mut records_left = 0;
        let cut = hits(
            rt.alloc(),
            &SAMPLE[..size],
            b"b.gz",
            Which::Candidates,
            &mut records_left,
        );
        let at = if size < 88 { 72 } else { 232 };
        let fault = CacheFault::OutOfRange(at);
        alike(&rt, "cut", (size, cut.err()), (size, Some(fault)));
    }
}

/// Rules of three ranks; the list of literals, the tree and the glob list have one or two each.
const RANKS: Texts<'static> = Texts {
    globs2: b"50:t/star:m*\n40:t/light:*.gz\n50:t/name:m.gz\n50:t/one:*.gz\n50:t/two:*.GZ\n",
    ..EMPTY
};

/// All rules that match come by falling rank, those of one rank as they are merged, and the kept ones first.
#[test]
fn by_falling_rank(rt: HostRuntime) -> Result<(), Fail> {
    let alloc = rt.alloc();
    let cache = written(alloc, RANKS, usize::MAX)?;
    let rows: [(&[u8], &[&[u8]], usize); 3] = [
        (
            b"m.gz",
            &[b"t/name", b"t/one", b"t/two", b"t/light", b"t/star"],
            1,
        ),
        (b"x.gz", &[b"t/one", b"t/two", b"t/light"], 2),
        (b"x", &[], 0),
    ];
    for (name, kinds, kept) in rows {
        let mut records_left = 0;
        let all = hits(alloc, &cache, name, Which::Candidates, &mut records_left)?;
        alike(&rt, "all", (all.kinds.as_slice(), all.kept), (kinds, kept));
        let best = hits(alloc, &cache, name, Which::Kept, &mut records_left)?;
        alike(
            &rt,
            "kept",
            (best.kinds.as_slice(), best.kept),
            (&kinds[..kept], kept),
        );
    }
    Ok(())
}

/// The rules that match a name by these bytes.
fn rule_hits<'a>(alloc: Global, bytes: &'a [u8], name: &[u8]) -> Result<RuleHits<'a>, CacheFault> {
    if name.len() > 4096 {
        return Err(CacheFault::TooLarge);
    }
    let mut meter = Meter::new();
    let cache = Cache::open(Counted::new(bytes), &mut meter)?;
    let mut budget = Budget::of(&cache);
    cache.rule_hits(alloc, name, &mut meter, &mut budget)
}

/// Rules of several weights, of which one is case-sensitive.
const WEIGHTS: Texts<'static> = Texts {
    globs2: b"70:t/star:m*\n255:t/light:*z\n60:t/name:m.gz\n0:t/one:*.gz\n0:t/two:*.GZ:cs\n",
    ..EMPTY
};

/// Each rule that matches has its weight and its flag: a literal name, then endings by weight, length and case, then `m*`.
#[test]
fn weights_and_cases(rt: HostRuntime) -> Result<(), Fail> {
    let alloc = rt.alloc();
    let bytes = written(alloc, WEIGHTS, usize::MAX)?;
    let rows: [(&[u8], &[(&[u8], u8, bool)], usize); 3] = [
        (
            b"M.GZ",
            &[
                (b"t/name", 60, false),
                (b"t/light", 255, false),
                (b"t/two", 0, true),
                (b"t/one", 0, false),
                (b"t/star", 70, false),
            ],
            1,
        ),
        (b"m", &[(b"t/star", 70, false)], 1),
        (b"x", &[], 0),
    ];
    for (name, expected, kept) in rows {
        let found = rule_hits(alloc, &bytes, name)?;
        let counts = (found.rules.len(), found.kept);
        alike(&rt, "counts", counts, (expected.len(), kept));
        for (rule, row) in found.rules.iter().zip(expected) {
            alike(&rt, "rule", (rule.kind, rule.weight, rule.cased), *row);
        }
    }
    Ok(())
}
