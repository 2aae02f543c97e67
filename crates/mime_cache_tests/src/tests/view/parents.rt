//! The parents of types by the parent list of a cache, with marks.
//!
//! The sample's list stands at 52: its one entry names `t/g` at 56, and at 60 the list of its parents,
//! which stands at 64 and names `t/m` at 68.

use super::FAR;
use crate::tests::checked::alike;
use mime_base::{Counted, Meter};
use mime_samples::caches::{SAMPLE, with};
use mime_view::{Budget, Cache, CacheFault, Marks};
use std::alloc::Global;

#[test]
fn marked_once_expanded(rt: HostRuntime) -> Result<(), CacheFault> {
    let alloc = rt.alloc();
    let mut meter = Meter::new();
    let cache = Cache::open(Counted::new(&SAMPLE), &mut meter)?;
    let mut budget = Budget::of(&cache);
    let mut marks = Marks::new(alloc);
    let types: [&[&[u8]]; 2] = [&[b"t/m"], &[]];
    for given in types {
        let parents = cache.parents_of(alloc, b"t/g", &mut marks, &mut meter, &mut budget)?;
        let Some(parents) = parents else {
            return Err(CacheFault::Spent);
        };
        alike(&rt, "entry", parents.entry, 0);
        alike(&rt, "types", parents.types.as_slice(), given);
        alike(&rt, "records", budget.records, 59);
        alike(&rt, "marked", marks.contains(0), true);
    }
    Ok(())
}

#[test]
fn a_type_without_an_entry(rt: HostRuntime) -> Result<(), CacheFault> {
    let alloc = rt.alloc();
    let mut meter = Meter::new();
    let cache = Cache::open(Counted::new(&SAMPLE), &mut meter)?;
    let mut budget = Budget::of(&cache);
    let mut marks = Marks::new(alloc);
    let kinds: [&[u8]; 4] = [b"t/z", b"t/a", b"t/", b""];
    for kind in kinds {
        let parents = cache.parents_of(alloc, kind, &mut marks, &mut meter, &mut budget)?;
        alike(&rt, "parents", (kind, parents.is_none()), (kind, true));
    }
    alike(&rt, "records", budget.records, 60);
    alike(&rt, "marked", marks.contains(0), false);
    Ok(())
}

/// With a count of 2 at 64 the number at 72 names a second parent: a 1 stands at 1, and then a zero.
#[test]
fn parents_in_the_order_of_the_cache(rt: HostRuntime) -> Result<(), CacheFault> {
    let alloc = rt.alloc();
    let mut meter = Meter::new();
    let bytes = with(64, &[0, 0, 0, 2]);
    let cache = Cache::open(Counted::new(&bytes), &mut meter)?;
    let mut budget = Budget::of(&cache);
    let mut marks = Marks::new(alloc);
    let parents = cache.parents_of(alloc, b"t/g", &mut marks, &mut meter, &mut budget)?;
    let Some(parents) = parents else {
        return Err(CacheFault::Spent);
    };
    let types = parents.types;
    alike(&rt, "types", types.as_slice(), &[b"t/m".as_slice(), &[1]]);
    alike(&rt, "records", budget.records, 58);
    Ok(())
}

/// Other bytes of the sample, the records that may be taken, and what is answered then.
#[derive(Clone, Copy)]
struct Damage {
    name: &'static str,
    at: usize,
    bytes: [u8; 4],
    records: u64,
    fault: CacheFault,
    records_left: u64,
}

static ONES: [u8; 4] = [0xff; 4];

static DAMAGES: [Damage; 8] = [
    Damage {
        name: "the offset of the list",
        at: 8,
        bytes: ONES,
        records: 60,
        fault: FAR,
        records_left: 60,
    },
    Damage {
        name: "the count of the list",
        at: 52,
        bytes: ONES,
        records: 60,
        fault: CacheFault::OutOfRange(52),
        records_left: 60,
    },
    Damage {
        name: "the offset of the type",
        at: 56,
        bytes: ONES,
        records: 60,
        fault: FAR,
        records_left: 60,
    },
    Damage {
        name: "the offset of the parents",
        at: 60,
        bytes: ONES,
        records: 60,
        fault: FAR,
        records_left: 60,
    },
    Damage {
        name: "the count of the parents",
        at: 64,
        bytes: ONES,
        records: 60,
        fault: CacheFault::OutOfRange(64),
        records_left: 60,
    },
    Damage {
        name: "the offset of the parent",
        at: 68,
        bytes: ONES,
        records: 60,
        fault: FAR,
        records_left: 59,
    },
    Damage {
        name: "the same without a record",
        at: 68,
        bytes: ONES,
        records: 0,
        fault: CacheFault::Spent,
        records_left: 0,
    },
    Damage {
        name: "a second parent without a record",
        at: 64,
        bytes: [0, 0, 0, 2],
        records: 1,
        fault: CacheFault::Spent,
        records_left: 0,
    },
];

/// The fault of a damaged sample, the records that are left, and whether the type is marked.
fn parents_in(
    alloc: Global,
    damage: &Damage,
) -> Result<(Option<CacheFault>, u64, bool), CacheFault> {
    let mut meter = Meter::new();
    let bytes = with(damage.at, &damage.bytes);
    let cache = Cache::open(Counted::new(&bytes), &mut meter)?;
    let mut budget = Budget::of(&cache);
    budget.records = damage.records;
    let mut marks = Marks::new(alloc);
    let parents = cache.parents_of(alloc, b"t/g", &mut marks, &mut meter, &mut budget);
    Ok((parents.err(), budget.records, marks.contains(0)))
}

#[test]
fn damaged_parents(rt: HostRuntime) -> Result<(), CacheFault> {
    for damage in &DAMAGES {
        let found = parents_in(rt.alloc(), damage)?;
        let wanted = (Some(damage.fault), damage.records_left, false);
        alike(&rt, damage.name, found, wanted);
    }
    Ok(())
}
