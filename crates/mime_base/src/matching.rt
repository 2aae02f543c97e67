//! Matching of a name against a pattern ("The glob files" of the public specification), with no
//! allocation. Read [`glob_matches`] first, then [`attempt`], then [`elements`].
//!
//! A pattern's elements are tried from star to star. Between two stars they are tried at each place
//! of the name in turn; the first place where they go is as good as any other, since the next star
//! takes what is between. So of all stars the last alone counts, and no place is tried twice for the
//! same elements. After the last star each element takes one byte, so they are tried at one place
//! alone: as many bytes before the end of the name.
//!
//! Most patterns are a star and a text that stands for itself, as `*.tar.gz`: these are compared with
//! the end of the name at once. Most others begin with a byte that the name doesn't begin with.

pub mod attempt;
pub mod elements;
pub mod folding;

ghost use Rattle.std.specs.Prelude.{◌≡◌, true, false, ◌+◌, ◌-◌, ◌*◌, ◌<◌, ◌≤◌, ◌↔◌, ◌∷◌, length, drop, IsTrue, IfSome, IsNone};
ghost use Rattle.mime_base.specs.Matching.Attempt.{Goes, LeavesPart, SlidesTo, last_tests, takes_a_byte};
ghost use Rattle.mime_base.specs.Matching.Count.{has_star, rule_tests, tests_of};
ghost use Rattle.mime_base.specs.Matching.Elements.{any_bytes, elements, is_literal_text, HasNoEnd};
ghost use Rattle.mime_base.specs.Matching.Folding.{compared};
ghost use Rattle.mime_base.specs.Matching.Matches.{least_tests, matches, rule_matches, RuleMatches};
ghost use Rattle.mime_base.specs.Meter.{raised};

use crate::matching::attempt::{Halt, Reach, attempt, refused_second};
use crate::matching::elements::{
    after_element, begins_otherwise, count_endless, count_itself, first_itself, is_literal_text,
};
use crate::matching::folding::common_compared;
use crate::meter::Meter;
use memchr::memchr;

/// Whether a pattern matches a name: both as they are, or both folded.
///
/// ```
/// let mut meter = Meter::new();
/// assert!(rt; glob_matches(b"*.[ch]", true, b"main.c", &mut meter));
/// assert_eq!(rt; meter.bytes, 2);
/// ```
///
/// Each test of an element against a byte or against the end of the name adds one to the meter's
/// bytes: exactly as many as the definition `rule_tests` says, whether the name matches or not. A
/// test reads its element and no more of the pattern.
#[inline(always)]
pub fn glob_matches(pattern: &[u8], cased: bool, name: &[u8], meter: &mut Meter) -> bool
    // The answer is computed by the definition, so worked rows can be checked.
    ensures answer { result ≡ rule_matches pattern.now cased name.now }
    // It is true exactly where the pattern's elements match the name, as they are or folded.
    ensures meaning { IsTrue result ↔ RuleMatches pattern.now cased name.now }
    // No record is counted.
    ensures nodes { meter.new.nodes ≡ meter.old.nodes }
    // Each test of an element against a byte, or against the end of the name, counts one byte, and nothing else does.
    ensures tests { meter.new.bytes ≡ raised meter.old.bytes (rule_tests pattern.now cased name.now) }
    // A name that matches takes a test for each element that takes a byte, any other takes one if there is an element.
    ensures least { raised meter.old.bytes (least_tests result (elements (compared cased pattern.now)))
        ≤ meter.new.bytes }
    // The count of bytes never falls, since it stops at the greatest number.
    ensures rises { meter.old.bytes ≤ meter.new.bytes }
    // For a pattern of p and a name of n bytes there are at most (p + 1)·(n + 1) tests.
    ensures cost { meter.new.bytes ≤ meter.old.bytes + (length pattern.now + 1) * (length name.now + 1) }
{
    let searched = search(pattern, cased, name);
    meter.add_bytes(searched.tests);
    searched.found
}

/// Whether a name matches, and how many tests it took.
#[derive(Clone, Copy)]
struct Searched {
    found: bool,
    tests: u64,
}

/// Chooses the way of trying by the pattern's first bytes.
#[inline(always)]
fn search(pattern: &[u8], cased: bool, name: &[u8]) -> Searched
    ensures found { result.found ≡ rule_matches pattern.now cased name.now }
    ensures tests { result.tests ≡ raised 0 (rule_tests pattern.now cased name.now) }
    ensures least { least_tests result.found (elements (compared cased pattern.now)) ≤ result.tests }
    ensures most { result.tests ≤ length pattern.now * (length name.now + 1) }
{
    if let Some((first, ending)) = pattern.split_first() {
        if *first == b'*' && is_literal_text(ending) {
            return try_ending(ending, cased, name);
        }
    }
    if begins_otherwise(pattern, cased, name) {
        return Searched {
            found: false,
            tests: 1,
        };
    }
    search_by_stars(pattern, cased, name)
}

/// Tries a text that stands for itself, after a star, at the end of the name.
#[inline(always)]
fn try_ending(ending: &[u8], cased: bool, name: &[u8]) -> Searched
    requires { is_literal_text ending.now ≡ true }
    ensures found { result.found
        ≡ matches (any_bytes ∷ elements (compared cased ending.now)) (compared cased name.now) }
    ensures tests { result.tests
        ≡ tests_of (any_bytes ∷ elements (compared cased ending.now)) (compared cased name.now) }
    ensures least { least_tests result.found (elements (compared cased ending.now)) ≤ result.tests }
    ensures most { result.tests ≤ length ending.now }
{
    if name.len() < ending.len() {
        return Searched {
            found: false,
            tests: 1,
        };
    }
    let equal = common_compared(cased, ending, &name[name.len() - ending.len()..]);
    if equal == ending.len() {
        Searched {
            found: true,
            tests: equal as u64,
        }
    } else {
        Searched {
            found: false,
            tests: equal as u64 + 1,
        }
    }
}

/// Goes from star to star.
#[inline(always)]
fn search_by_stars(pattern: &[u8], cased: bool, name: &[u8]) -> Searched
    ensures found { result.found ≡ rule_matches pattern.now cased name.now }
    ensures tests { result.tests ≡ raised 0 (rule_tests pattern.now cased name.now) }
    ensures least { least_tests result.found (elements (compared cased pattern.now)) ≤ result.tests }
    ensures most { result.tests ≤ length pattern.now * (length name.now + 1) }
{
    let endless = count_endless(pattern);
    let front = try_front(pattern, endless, cased, name);
    if let Some(found) = front.halt.answer() {
        return Searched {
            found,
            tests: front.tests,
        };
    }
    let mut after = front.after;
    let mut left = &name[front.passed..];
    let mut tests = front.tests;
    loop {
        if let Some(size) = count_to_end(after, endless, cased) {
            let last = try_at_end(after, endless, cased, size, left);
            return Searched {
                found: last.found,
                tests: tests.saturating_add(last.tests),
            };
        }
        let next = slide(after, endless, cased, left);
        tests = tests.saturating_add(next.tests);
        if let Some(found) = next.halt.answer() {
            return Searched { found, tests };
        }
        after = next.after;
        left = &left[next.passed..];
    }
}

/// Lets the elements before the first star take a byte each from the front of the name: none, where a star is first.
#[inline(always)]
fn try_front<'a>(pattern: &'a [u8], endless: usize, cased: bool, name: &[u8]) -> Reach<'a>
    requires { HasNoEnd endless pattern.now }
    ensures goes { Goes result.halt result.passed (elements (compared cased pattern.now))
        (compared cased name.now) (elements (compared cased result.after.now)) }
    ensures part { LeavesPart endless pattern.now name.now result }
    ensures tests { result.tests ≡ result.passed + last_tests result.halt }
    ensures most { result.tests ≤ length pattern.now }
    ensures star { result.halt ≡ Halt.Star → result.tests + length result.after.now < length pattern.now }
{
    match pattern {
        [b'*', after @ ..] => Reach {
            halt: Halt::Star,
            passed: 0,
            after,
            tests: 0,
        },
        _ => attempt(pattern, endless, cased, name),
    }
}

/// Tries the elements up to the next star at each place of the name in turn until they go.
#[inline(always)]
fn slide<'a>(pattern: &'a [u8], endless: usize, cased: bool, name: &[u8]) -> Reach<'a>
    requires endless { HasNoEnd endless pattern.now }
    requires star { has_star (elements (compared cased pattern.now)) ≡ true }
    ensures slides { SlidesTo cased pattern.now name.now result }
    ensures part { LeavesPart endless pattern.now name.now result }
    ensures most { result.tests ≤ length pattern.now * (length name.now + 1) }
    ensures star { result.halt ≡ Halt.Star →
        result.tests + length result.after.now * (length name.now - result.passed + 1)
        ≤ length pattern.now * (length name.now + 1) }
{
    let mut start = 0;
    let mut tests: u64 = 0;
    loop {
        let refused = count_refused(pattern, cased, &name[start..]);
        start += refused;
        tests = tests.saturating_add(refused as u64);
        // No place is left where each has refused the first byte.
        if 0 < refused && start == name.len() {
            return Reach {
                halt: Halt::NameEnds,
                passed: start,
                after: pattern,
                tests: tests.saturating_add(1),
            };
        }
        // Most places are refused by the second byte.
        if refused_second(pattern, cased, &name[start..]) {
            start += 1;
            tests = tests.saturating_add(2);
            continue;
        }
        let tried = attempt(pattern, endless, cased, &name[start..]);
        tests = tests.saturating_add(tried.tests);
        match tried.halt {
            Halt::Refused => start += 1,
            _ => return Reach {
                passed: start + tried.passed,
                tests,
                ..tried
            },
        }
    }
}

/// How many places of a name refuse the byte that a pattern begins with, up to the first that doesn't. Where
/// that byte may be compared as another, none is skipped.
#[inline(always)]
fn count_refused(pattern: &[u8], cased: bool, name: &[u8]) -> usize
    ensures same { matches (any_bytes ∷ elements (compared cased pattern.now)) (compared cased name.now)
        ≡ matches (any_bytes ∷ elements (compared cased pattern.now)) (compared cased (drop result name.now)) }
    ensures tests { has_star (elements (compared cased pattern.now)) ≡ true →
        tests_of (any_bytes ∷ elements (compared cased pattern.now)) (compared cased name.now)
        ≡ result + tests_of (any_bytes ∷ elements (compared cased pattern.now)) (compared cased (drop result name.now)) }
    ensures within { result ≤ length name.now }
    ensures taker { 0 < result → (takes_a_byte (elements (compared cased pattern.now)) ≡ true) × (0 < length pattern.now) }
    ensures most { result ≤ result * length pattern.now }
{
    let Some(first) = first_itself(pattern) else {
        return 0;
    };
    match memchr(first, name) {
        Some(place) => place,
        None => name.len(),
    }
}

/// How many elements a text has, if no star is among them.
#[inline(always)]
fn count_to_end(text: &[u8], endless: usize, cased: bool) -> Option<usize>
    requires { HasNoEnd endless text.now }
    ensures star { IsNone result → has_star (elements (compared cased text.now)) ≡ true }
    ensures none { IfSome result (λ size. has_star (elements (compared cased text.now)) ≡ false) }
    ensures size { IfSome result (λ size. size ≡ length (elements (compared cased text.now))) }
{
    let mut size = count_itself(text);
    let mut rest = &text[size..];
    while let Some((first, after)) = rest.split_first() {
        if *first == b'*' {
            return None;
        }
        // Folding makes no mark of a set or an escape, and takes none away.
        rest = after_element(*first, after, endless);
        size += 1;
    }
    Some(size)
}

/// Tries elements after the last star at the one place that leaves a byte for each.
#[inline(always)]
fn try_at_end(pattern: &[u8], endless: usize, cased: bool, size: usize, name: &[u8]) -> Searched
    requires endless { HasNoEnd endless pattern.now }
    requires none { has_star (elements (compared cased pattern.now)) ≡ false }
    requires size { size ≡ length (elements (compared cased pattern.now)) }
    ensures found { result.found
        ≡ matches (any_bytes ∷ elements (compared cased pattern.now)) (compared cased name.now) }
    ensures tests { result.tests
        ≡ tests_of (any_bytes ∷ elements (compared cased pattern.now)) (compared cased name.now) }
    ensures least { least_tests result.found (elements (compared cased pattern.now)) ≤ result.tests }
    ensures most { result.tests ≤ length pattern.now }
{
    if name.len() < size {
        return Searched {
            found: false,
            tests: 1,
        };
    }
    let ending = &name[name.len() - size..];
    // Most names are refused by the first element.
    if begins_otherwise(pattern, cased, ending) {
        return Searched {
            found: false,
            tests: 1,
        };
    }
    let last = attempt(pattern, endless, cased, ending);
    Searched {
        found: matches!(last.halt, Halt::BothEnd),
        tests: last.tests,
    }
}
