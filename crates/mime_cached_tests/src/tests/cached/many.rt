//! A thousand literal rules, of which a search probes few.

use super::look_up_over;
use crate::tests::checked::alike;
use mime_base::Host;
use mime_lookup::Order;
use mime_samples::texts::of_rules;
use mime_store::write_cache;
use std::alloc::Global;
use std::process::Abort;

/// A thousand literal rules of one type.
fn a_thousand(rt: &impl Abort, alloc: Global) -> Vec<u8> {
    let mut globs2 = Vec::new(alloc);
    for number in 0..1000 {
        let line = format!(in alloc; "50:t/a:f{number}\n").expect(rt, "a line");
        globs2.extend_from_slice(line.as_bytes()).expect(rt, "room");
    }
    globs2
}

/// The cache of a thousand literal rules.
fn of_a_thousand(rt: &impl Abort, alloc: Global) -> Vec<u8> {
    let database = of_rules(alloc, &a_thousand(rt, alloc)).expect(rt, "a database");
    write_cache(alloc, &database, usize::MAX).expect(rt, "its cache")
}

/// Whether a name has a type after as many probes as a search among a thousand takes, nine or ten.
fn is_searched(rt: &impl Abort, alloc: Global, cache: &[u8], file: &[u8], kind: &[u8]) -> bool {
    let mut content: Option<&[u8]> = None;
    let (host, order) = (Host::Little, Order::GlobsFirst);
    let found = look_up_over(alloc, cache, file, &mut content, host, order);
    let answer = found.expect(rt, "an answer");
    answer.kind == kind && (9..=192).contains(&answer.meter.nodes)
}

static FILES: [(&str, &[u8], &[u8]); 4] = [
    ("q", b"q", b"application/octet-stream"),
    ("f0", b"f0", b"t/a"),
    ("F999", b"F999", b"t/a"),
    ("f1000", b"f1000", b"application/octet-stream"),
];

#[test]
fn literals_are_searched(rt: HostRuntime) {
    let cache = of_a_thousand(&rt, rt.alloc());
    for &(name, file, kind) in &FILES {
        let found = is_searched(&rt, rt.alloc(), &cache, file, kind);
        alike(&rt, name, found, true);
    }
}
