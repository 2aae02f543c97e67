//! All rules of a cache, as they are listed.
//!
//! The sample's literal list stands at 72, its tree at 88, with the root `z` at 96, `g` at 108, `.` at
//! 120 and a leaf at 132, and its glob list at 144.

use crate::tests::checked::alike;
use crate::tests::lines::add_rule;
use mime_base::{Counted, Meter};
use mime_samples::caches::{SAMPLE, damaged, with};
use mime_view::{Budget, Cache, CacheFault, Listed};
use std::alloc::{AllocError, Global};

/// What the sample lists with other bytes at an offset, as lines of `globs2`, and the records that are left.
struct Lists {
    name: &'static str,
    at: usize,
    bytes: &'static [u8],
    left: u64,
    rules: &'static [u8],
}

static LISTS: [Lists; 8] = [
    Lists {
        name: "sample",
        at: 0,
        bytes: &[],
        left: 55,
        rules: b"50:t/m:mk\n50:t/g:*.gz\n",
    },
    // the glob list is that of the literal rules
    Lists {
        name: "the literal list again as the glob list",
        at: 23,
        bytes: &[72],
        left: 54,
        rules: b"50:t/m:mk\n50:t/g:*.gz\n50:t/m:mk\n",
    },
    // the weight is the lowest byte, the flag the lowest bit of the next; the others say nothing
    Lists {
        name: "flags of a literal entry",
        at: 84,
        bytes: &[0xff, 0xfe, 1, 7],
        left: 55,
        rules: b"7:t/m:mk:cs\n50:t/g:*.gz\n",
    },
    Lists {
        name: "flags of a leaf",
        at: 140,
        bytes: &[0, 1, 1, 255],
        left: 55,
        rules: b"50:t/m:mk\n255:t/g:*.gz:cs\n",
    },
    Lists {
        name: "a character above 255",
        at: 110,
        bytes: &[1],
        left: 57,
        rules: b"50:t/m:mk\n",
    },
    Lists {
        name: "a leaf among the roots",
        at: 99,
        bytes: &[0],
        left: 58,
        rules: b"50:t/m:mk\n",
    },
    // its first record stands at 120, but that isn't looked at
    Lists {
        name: "a node of no children",
        at: 115,
        bytes: &[0],
        left: 57,
        rules: b"50:t/m:mk\n",
    },
    Lists {
        name: "siblings in their order: `g` and then `.`",
        at: 103,
        bytes: &[2],
        left: 53,
        rules: b"50:t/m:mk\n50:t/g:*.gz\n50:t/g:*.z\n",
    },
];

fn table() -> &'static [Lists] {
    &LISTS
}

/// Rules as lines of `globs2`.
fn lines_of(alloc: Global, rules: &[Listed<'_>]) -> Result<Vec<u8>, AllocError> {
    let mut lines = Vec::new(alloc);
    for rule in rules {
        add_rule(
            &mut lines,
            rule.weight,
            rule.kind,
            &rule.pattern,
            rule.cased,
        )?;
    }
    Ok(lines)
}

/// The rules of a cache.
fn listed(alloc: Global, cache: &Cache<'_>, budget: &mut Budget) -> Result<Vec<u8>, CacheFault> {
    let rules = cache.rules(alloc, &mut Meter::new(), budget)?;
    Ok(lines_of(alloc, &rules)?)
}

/// The rules of a cache under its whole budget, or their fault, and the records that are left.
fn rules_of(alloc: Global, bytes: &[u8]) -> Result<(Result<Vec<u8>, CacheFault>, u64), CacheFault> {
    let cache = Cache::open(Counted::new(bytes), &mut Meter::new())?;
    let mut budget = Budget::of(&cache);
    let rules = listed(alloc, &cache, &mut budget);
    Ok((rules, budget.records))
}

#[test]
fn rules_of_the_sample(rt: HostRuntime) -> Result<(), CacheFault> {
    for list in table() {
        let cache = with(list.at, list.bytes);
        let (rules, left) = rules_of(rt.alloc(), &cache)?;
        let rules = rules?;
        let found = (rules.as_slice(), left);
        alike(&rt, list.name, found, (list.rules, list.left));
    }
    Ok(())
}

/// Node `z` is its own child: the budget ends the walk, or the 254th character does.
#[test]
fn a_node_that_is_its_own_child(rt: HostRuntime) -> Result<(), CacheFault> {
    let tree_loop = with(107, &[0x60]);
    let (rules, left) = rules_of(rt.alloc(), &tree_loop)?;
    let spent = (Some(CacheFault::Spent), 0);
    alike(&rt, "spent", (rules.err(), left), spent);
    let mut longer = [0; 1_200];
    longer[..240].copy_from_slice(&tree_loop);
    let (rules, left) = rules_of(rt.alloc(), &longer)?;
    // the literal entry, 254 nodes, and the one below them
    let deep = (Some(CacheFault::TooDeep), 44);
    alike(&rt, "deep", (rules.err(), left), deep);
    Ok(())
}

/// The sample cut to 40 to 87 bytes has no whole literal list.
#[test]
fn cut_caches(rt: HostRuntime) -> Result<(), CacheFault> {
    for length in 40..88 {
        let (rules, _) = rules_of(rt.alloc(), &SAMPLE[..length])?;
        let fault = CacheFault::OutOfRange(72);
        alike(&rt, "cut", (length, rules.err()), (length, Some(fault)));
    }
    Ok(())
}

/// Where four bytes of the sample are all ones, and the fault then.
static DAMAGES: [(&str, usize, CacheFault); 12] = [
    ("the offset of the literal list", 12, FAR),
    ("the offset of the tree", 16, FAR),
    ("the offset of the glob list", 20, FAR),
    (
        "the count of literal entries",
        72,
        CacheFault::OutOfRange(72),
    ),
    ("the offset of a literal text", 76, FAR),
    ("the offset of a literal entry's type", 80, FAR),
    ("the count of roots", 88, CacheFault::OutOfRange(96)),
    ("the offset of the roots", 92, FAR),
    (
        "the count of nodes below `z`",
        100,
        CacheFault::OutOfRange(108),
    ),
    ("the offset of the nodes below `z`", 104, FAR),
    ("the offset of a leaf's type", 136, FAR),
    (
        "the count of glob entries",
        144,
        CacheFault::OutOfRange(144),
    ),
];

const FAR: CacheFault = CacheFault::OutOfRange(4_294_967_295);

#[test]
fn damaged_rules(rt: HostRuntime) -> Result<(), CacheFault> {
    for &(name, at, fault) in &DAMAGES {
        let bytes = damaged(at);
        let (rules, _) = rules_of(rt.alloc(), &bytes)?;
        alike(&rt, name, rules.err(), Some(fault));
    }
    Ok(())
}
