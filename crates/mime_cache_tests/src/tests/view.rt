//! Caches that are opened and asked for names, as they were made and damaged.

mod hits;
mod parents;
mod rules;
mod sniffing;

use crate::tests::checked::alike;
use mime_base::{Counted, Meter};
use mime_samples::caches::{SAMPLE, damaged};
use mime_view::{Budget, Cache, CacheFault};
use std::process::Abort;
use std::test::Fail;

/// A header of this version whose offsets are 0.
fn version(major: u8, minor: u8) -> [u8; 40] {
    let mut header = [0; 40];
    header[1] = major;
    header[3] = minor;
    header
}

#[test]
fn openings(rt: HostRuntime) {
    let (older, newer, bare) = (version(1, 1), version(2, 2), version(1, 2));
    let rows: [(&str, &[u8], Option<CacheFault>, u64); 6] = [
        ("no bytes", &[], Some(CacheFault::Truncated), 0),
        ("39 bytes", &bare[..39], Some(CacheFault::Truncated), 0),
        ("version 1.1", &older, Some(CacheFault::Version(1, 1)), 1),
        ("version 2.2", &newer, Some(CacheFault::Version(2, 2)), 1),
        ("a header alone", &bare, None, 1),
        ("sample", &SAMPLE, None, 1),
    ];
    for (name, bytes, fault, nodes) in rows {
        let mut meter = Meter::new();
        let opened = Cache::open(Counted::new(bytes), &mut meter);
        let found = (opened.err(), meter.nodes, meter.bytes);
        alike(&rt, name, found, (fault, nodes, 0));
    }
}

#[test]
fn faults_are_told(rt: HostRuntime) -> Result<(), Fail> {
    let rows: [(CacheFault, &str); 8] = [
        (CacheFault::Truncated, "truncated"),
        (CacheFault::Version(2, 7), "version 2.7"),
        (CacheFault::TooLarge, "too large"),
        (CacheFault::OutOfRange(236), "out of range at 236"),
        (CacheFault::LongText(240), "long text at 240"),
        (CacheFault::Spent, "budget spent"),
        (CacheFault::TooDeep, "too deep"),
        (CacheFault::OutOfMemory, "out of memory"),
    ];
    for (fault, text) in rows {
        let told = format!(in rt.alloc(); "{fault}")?;
        alike(&rt, text, told.as_str(), text);
    }
    Ok(())
}

/// A type and the one that it stands for.
static ALIASES: [(&[u8], &[u8]); 5] = [
    (b"t/h", b"t/g"),
    (b"t/g", b"t/g"),
    (b"t/z", b"t/z"),
    (b"a", b"a"),
    (b"", b""),
];

/// The budget of the sample, of which calls that only search take nothing.
const WHOLE: Budget = Budget {
    records: 60,
    value_bytes: 240,
};

/// Types stand for others, and nothing is taken of the budget.
fn are_aliases(rt: &impl Abort, cache: &Cache<'_>) {
    let mut meter = Meter::new();
    let mut budget = Budget::of(cache);
    for &(kind, name) in &ALIASES {
        let given = cache.unalias(kind, &mut meter, &mut budget);
        alike(rt, "alias", (kind, given), (kind, Ok(name)));
    }
    alike(rt, "what the aliases leave", budget, WHOLE);
}

/// The icons of a type, and nothing is taken of the budget.
fn has_no_icons(rt: &impl Abort, cache: &Cache<'_>, kind: &[u8]) {
    let mut meter = Meter::new();
    let mut budget = Budget::of(cache);
    let icon = cache.icon(kind, &mut meter, &mut budget);
    alike(rt, "icon", icon, Ok(None));
    let icon = cache.generic_icon(kind, &mut meter, &mut budget);
    alike(rt, "generic icon", icon, Ok(None));
    alike(rt, "what the icons leave", budget, WHOLE);
}

/// How much is read of contents, and nothing is taken of the budget.
fn has_extent(rt: &impl Abort, cache: &Cache<'_>, extent: u32) {
    let mut meter = Meter::new();
    let mut budget = Budget::of(cache);
    let read = cache.extent(&mut meter, &mut budget);
    alike(rt, "extent", read, Ok(extent));
    alike(rt, "what the extent leaves", budget, WHOLE);
}

#[test]
fn names_of_the_sample(rt: HostRuntime) -> Result<(), CacheFault> {
    let mut meter = Meter::new();
    let cache = Cache::open(Counted::new(&SAMPLE), &mut meter)?;
    alike(&rt, "budget", Budget::of(&cache), WHOLE);
    are_aliases(&rt, &cache);
    has_no_icons(&rt, &cache, b"t/g");
    has_extent(&rt, &cache, 3);
    Ok(())
}

/// What is asked of a damaged cache.
enum Call {
    Alias,
    Icon,
    GenericIcon,
    Extent,
}

/// Where four bytes of the sample are all ones, and what a call then answers.
struct Damage {
    name: &'static str,
    at: usize,
    call: Call,
    fault: Option<CacheFault>,
}

/// The fault of four bytes that are all ones and are taken for an offset.
const FAR: CacheFault = CacheFault::OutOfRange(4_294_967_295);

static DAMAGES: [Damage; 7] = [
    Damage {
        name: "the offset of the icons",
        at: 32,
        call: Call::Icon,
        fault: Some(FAR),
    },
    Damage {
        name: "the offset of the icons, an alias",
        at: 32,
        call: Call::Alias,
        fault: None,
    },
    Damage {
        name: "the offset of the generic icons",
        at: 36,
        call: Call::GenericIcon,
        fault: Some(FAR),
    },
    Damage {
        name: "the offset of the aliases",
        at: 4,
        call: Call::Alias,
        fault: Some(FAR),
    },
    Damage {
        name: "the offset of the magic list",
        at: 24,
        call: Call::Extent,
        fault: Some(FAR),
    },
    Damage {
        name: "a count of more aliases than there are bytes",
        at: 40,
        call: Call::Alias,
        fault: Some(CacheFault::OutOfRange(40)),
    },
    Damage {
        name: "the offset of an alias's text",
        at: 44,
        call: Call::Alias,
        fault: Some(FAR),
    },
];

/// Whether a call gives what it gives of the sample, or why not.
fn asked(call: &Call, cache: &Cache<'_>) -> Result<bool, CacheFault> {
    let (mut meter, mut budget) = (Meter::new(), Budget::of(cache));
    let same = match call {
        Call::Alias => cache.unalias(b"t/h", &mut meter, &mut budget)? == b"t/g".as_slice(),
        Call::Icon => cache.icon(b"t/g", &mut meter, &mut budget)?.is_none(),
        Call::GenericIcon => cache
            .generic_icon(b"t/g", &mut meter, &mut budget)?
            .is_none(),
        Call::Extent => cache.extent(&mut meter, &mut budget)? == 3,
    };
    Ok(same)
}

#[test]
fn damaged_lists(rt: HostRuntime) -> Result<(), CacheFault> {
    for row in &DAMAGES {
        let bytes = damaged(row.at);
        let cache = Cache::open(Counted::new(&bytes), &mut Meter::new())?;
        let wanted = match row.fault {
            None => Ok(true),
            Some(fault) => Err(fault),
        };
        alike(&rt, row.name, asked(&row.call, &cache), wanted);
    }
    Ok(())
}
