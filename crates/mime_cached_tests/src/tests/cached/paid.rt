//! The sample, opened once: it is read back once its answers have paid for that, and they stay what they are by a walk.

use crate::tests::checked::alike;
use mime_base::{Counted, Host, Meter};
use mime_lookup::{
    IndexedCache, Order, PaidCache, icon_again, is_a_again, look_up_name_again, sniff_again,
};
use mime_samples::caches::SAMPLE;
use std::alloc::Global;
use std::process::Abort;

/// What is paid for the names of 240 bytes: a record for each four, one for each eight, and five.
const NAMES_PRICE: u64 = 95;

/// What is paid for the magic list: a record for each eight, and two.
const MAGIC_PRICE: u64 = 32;

/// What is paid for the aliases and the parents: a record for each two, one for each eight, and three.
const PAIRS_PRICE: u64 = 153;

/// What is paid for the aliases and the icons: three records for each eight, and four.
const ICONS_PRICE: u64 = 94;

/// More answers than any price takes.
const ANSWERS: u64 = 40;

/// What is asked of the sample.
#[derive(Clone, Copy)]
enum Question {
    Name,
    Content,
    Type,
    Icons,
}

fn opened<'a>(rt: &impl Abort, alloc: Global, cache: &'a [u8]) -> Box<PaidCache<'a>> {
    let paid = PaidCache::open(Counted::new(cache), &mut Meter::new());
    Box::new(alloc, paid.expect(rt, "an opened cache")).expect(rt, "room")
}

/// How many records an answer visits.
fn visited_for(
    rt: &impl Abort,
    alloc: Global,
    indexed: &IndexedCache<'_>,
    question: Question,
) -> u64 {
    match question {
        Question::Name => visited_for_a_name(rt, alloc, indexed),
        Question::Content => visited_for_a_content(rt, indexed),
        Question::Type => visited_for_a_type(rt, alloc, indexed),
        Question::Icons => visited_for_icons(rt, alloc, indexed),
    }
}

fn visited_for_a_name(rt: &impl Abort, alloc: Global, indexed: &IndexedCache<'_>) -> u64 {
    let found = look_up_name_again(alloc, indexed, b"A.GZ", Order::GlobsFirst);
    let found = found.expect(rt, "an answer");
    alike(rt, "a name", (found.kind, found.wanted), (&b"t/g"[..], 0));
    found.meter.nodes
}

fn visited_for_a_content(rt: &impl Abort, indexed: &IndexedCache<'_>) -> u64 {
    let found = sniff_again(indexed, &[0x1f, 0x8b, 8], Host::Little);
    let found = found.expect(rt, "a type");
    let told = (found.kind, found.priority, found.read);
    alike(rt, "a content", told, (&b"t/g"[..], Some(40), 3));
    found.meter.nodes
}

fn visited_for_a_type(rt: &impl Abort, alloc: Global, indexed: &IndexedCache<'_>) -> u64 {
    let found = is_a_again(alloc, indexed, b"t/h", b"t/m");
    let (is, meter) = found.expect(rt, "an answer");
    alike(rt, "is a", is, true);
    meter.nodes
}

fn visited_for_icons(rt: &impl Abort, alloc: Global, indexed: &IndexedCache<'_>) -> u64 {
    let icons = icon_again(alloc, indexed, b"t/h").expect(rt, "icons");
    let told = (icons.icon.as_slice(), icons.generic.as_slice());
    alike(rt, "icons", told, (&b"t-g"[..], &b"t-x-generic"[..]));
    icons.meter.nodes
}

/// An answer pays by the records that it visited.
fn pay(paid: &mut PaidCache<'_>, question: Question, nodes: u64) {
    match question {
        Question::Name => paid.pay(nodes, false),
        Question::Content => paid.pay_sniffed(nodes),
        Question::Type => paid.pay_types(nodes),
        Question::Icons => paid.pay_icons(nodes),
    }
}

/// Whether what is asked was read back: the names are known to be, the others are where less is visited than by a walk.
fn is_read_back(indexed: &IndexedCache<'_>, question: Question, is_less: bool) -> bool {
    match question {
        Question::Name => indexed.has_names(),
        _ => is_less,
    }
}

/// What is asked of a cache again and again pays the price, and is read back once it has.
fn is_paid(rt: &impl Abort, alloc: Global, cache: &[u8], question: Question, price: u64) {
    let mut paid = opened(rt, alloc, cache);
    let walked = visited_for(rt, alloc, paid.indexed(), question);
    let mut visited: u64 = 0;
    for _ in 0..ANSWERS {
        paid.read_paid(alloc, &mut Meter::new());
        let nodes = visited_for(rt, alloc, paid.indexed(), question);
        let is_read = is_read_back(paid.indexed(), question, nodes < walked);
        is_read_once_paid(rt, is_read, visited, price);
        pay(&mut paid, question, nodes);
        visited = visited.saturating_add(nodes);
    }
    alike(rt, "paid", visited >= price, true);
}

#[test]
fn names_pay(rt: HostRuntime) {
    is_paid(&rt, rt.alloc(), &SAMPLE, Question::Name, NAMES_PRICE);
}

#[test]
fn contents_pay(rt: HostRuntime) {
    is_paid(&rt, rt.alloc(), &SAMPLE, Question::Content, MAGIC_PRICE);
}

#[test]
fn types_pay(rt: HostRuntime) {
    is_paid(&rt, rt.alloc(), &SAMPLE, Question::Type, PAIRS_PRICE);
}

#[test]
fn icons_pay(rt: HostRuntime) {
    is_paid(&rt, rt.alloc(), &SAMPLE, Question::Icons, ICONS_PRICE);
}

/// It is read back before an answer exactly where so much was visited before it.
fn is_read_once_paid(rt: &impl Abort, is_read: bool, visited: u64, price: u64) {
    let name = "read back, unless out of memory";
    alike(rt, name, (visited, is_read), (visited, visited >= price));
}
