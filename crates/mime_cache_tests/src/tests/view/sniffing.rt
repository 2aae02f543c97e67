//! Contents that are sniffed by the magic list of a cache.

use super::FAR;
use crate::tests::checked::alike;
use mime_base::{Counted, Host, Meter};
use mime_samples::caches::{SAMPLE, SELF_CHILD, changed, damaged};
use mime_view::{Budget, Cache, CacheFault};

/// A content, and the type and the priority that the sample gives it.
type Row = (&'static [u8], Option<(&'static [u8], u32)>);

static ROWS: [Row; 5] = [
    (&[0x1f, 0x8b], Some((b"t/g", 40))),
    (&[0x1f, 0x8b, 8], Some((b"t/g", 40))),
    (&[0, 0x1f, 0x8b], None),
    (&[0x1f], None),
    (&[], None),
];

#[test]
fn contents_of_the_sample(rt: HostRuntime) -> Result<(), CacheFault> {
    let mut meter = Meter::new();
    let cache = Cache::open(Counted::new(&SAMPLE), &mut meter)?;
    for &(content, given) in &ROWS {
        let mut budget = Budget::of(&cache);
        let found = cache.sniff(content, Host::Little, &mut meter, &mut budget)?;
        alike(&rt, "found", (content, found), (content, given));
        // a section and a line, whose value has two bytes
        let left = (budget.records, budget.value_bytes);
        alike(&rt, "left", (content, left), (content, (58, 238)));
    }
    Ok(())
}

/// The budget ends the descent, or the 64th level does: a section and 64 lines were taken then.
#[test]
fn a_line_that_is_its_own_child(rt: HostRuntime) -> Result<(), CacheFault> {
    let mut meter = Meter::new();
    let cache = Cache::open(Counted::new(&SELF_CHILD), &mut meter)?;
    let mut budget = Budget::of(&cache);
    let found = cache.sniff(b"x", Host::Little, &mut meter, &mut budget);
    let spent = (Some(CacheFault::Spent), 0);
    alike(&rt, "spent", (found.err(), budget.records), spent);
    budget.records = 100;
    let found = cache.sniff(b"x", Host::Big, &mut meter, &mut budget);
    let left = (budget.records, budget.value_bytes);
    let deep = (Some(CacheFault::TooDeep), (35, 112));
    alike(&rt, "deep", (found.err(), left), deep);
    Ok(())
}

/// A cache of 64 lines of magic of which each is the child of the one before; the child of the last lies outside.
fn chain() -> [u8; 2124] {
    let mut cache = [0; 2124];
    cache[..76].copy_from_slice(&SELF_CHILD[..76]);
    for number in 0..64 {
        let at = 76 + 32 * number;
        cache = changed(cache, at + 4, 1);
        cache = changed(cache, at + 8, 1);
        cache = changed(cache, at + 24, 1);
        cache = changed(cache, at + 28, at as u32 + 32);
    }
    changed(cache, 2120, u32::MAX)
}

/// A line of the 64th level that has children is too deep, wherever they stand.
#[test]
fn children_below_the_last_level(rt: HostRuntime) -> Result<(), CacheFault> {
    let bytes = chain();
    let mut meter = Meter::new();
    let cache = Cache::open(Counted::new(&bytes), &mut meter)?;
    let mut budget = Budget::of(&cache);
    let found = cache.sniff(b"x", Host::Little, &mut meter, &mut budget);
    alike(&rt, "deep", found.err(), Some(CacheFault::TooDeep));
    Ok(())
}

/// One that differs is not, though it has children: no section holds.
#[test]
fn last_level_that_differs(rt: HostRuntime) -> Result<(), CacheFault> {
    let bytes = changed(chain(), 2104, 1);
    let mut meter = Meter::new();
    let cache = Cache::open(Counted::new(&bytes), &mut meter)?;
    let mut budget = Budget::of(&cache);
    let found = cache.sniff(b"x", Host::Little, &mut meter, &mut budget)?;
    alike(&rt, "differs", found.is_none(), true);
    Ok(())
}

/// Where four bytes of the sample are all ones, and the fault then.
static DAMAGES: [(&str, usize, CacheFault); 6] = [
    ("the offset of the list", 24, FAR),
    ("the count of sections", 148, CacheFault::OutOfRange(160)),
    ("the offset of the sections", 156, FAR),
    ("the offset of the type", 164, FAR),
    ("the offset of the lines", 172, FAR),
    ("the offset of the value", 192, FAR),
];

#[test]
fn damaged_magic(rt: HostRuntime) -> Result<(), CacheFault> {
    for &(name, at, fault) in &DAMAGES {
        let bytes = damaged(at);
        let mut meter = Meter::new();
        let cache = Cache::open(Counted::new(&bytes), &mut meter)?;
        let mut budget = Budget::of(&cache);
        let found = cache.sniff(&[0x1f, 0x8b], Host::Big, &mut meter, &mut budget);
        alike(&rt, name, found.err(), Some(fault));
    }
    Ok(())
}
