//! The elements of a pattern that take one byte, read where they stand in its text.
//!
//! What the public specification calls a glob is a list of elements: `*`, and those that take one
//! byte. How a text spells sets and escapes is this project's own; nothing is parsed ahead. A test of
//! an element reads that element alone: how many of the pattern's last bytes have no `]` is known, and
//! for a `[` among them no end of a set is sought.

ghost use Rattle.std.specs.Prelude.{◌≡◌, true, Bool, ◌∷◌, [], ◌+◌, ◌<◌, ◌==◌, IsNone, IfSome, IsTrue, None, false, is_some, drop};
ghost use Rattle.std.specs.Prelude.{List, ℕ, ◌≤◌, length, position, take, nat_lt, if◌then◌else◌};
ghost use Rattle.mime_base.specs.Matching.Attempt.{begins_otherwise, first_itself, refuses};
ghost use Rattle.mime_base.specs.Matching.Elements.{HasNoEnd, IsSet, admits, elements, end_of_set, in_ranges, is_literal_text};
ghost use Rattle.mime_base.specs.Matching.Elements.{is_negated, is_special, itself_len, one_byte, ranges, width_after};
ghost use Rattle.mime_base.specs.Matching.Folding.{compared, compared_byte};
ghost use Rattle.mime_base.specs.Matching.Matches.{rule_matches};

use crate::matching::folding::as_compared;
use memchr::memrchr;
use std::simd::prelude::*;

/// What stands after an element, if the element admits a byte.
///
/// The element begins with the byte `first`, which is no `*`, and `first` and `byte` are as they are
/// compared.
pub fn after_admitting<'a>(
    first: u8,
    after: &'a [u8],
    endless: usize,
    cased: bool,
    byte: u8,
) -> Option<&'a [u8]>
    // None of the last `endless` bytes is a `]`.
    requires { HasNoEnd endless after.now }
    // There is a rest exactly where the element admits the byte.
    ensures admits { is_some result ≡ admits (one_byte first (compared cased after.now)) byte }
    // The rest is what comes after the element.
    ensures after { IfSome result (λ rest. rest.now
        ≡ drop (width_after first (compared cased after.now)) after.now) }
{
    match first {
        b'?' => Some(after),
        b'\\' => match after {
            [escaped, rest @ ..] => (as_compared(cased, *escaped) == byte).then_some(rest),
            [] => (byte == b'\\').then_some(after),
        },
        b'[' => match set_after(after, endless) {
            Some(set) => (is_member(set.members, cased, byte) != set.is_negated).then_some(
                set.rest,
            ),
            None => (byte == b'[').then_some(after),
        },
        _ => (first == byte).then_some(after),
    }
}

/// What stands after an element, which begins with the byte `first` as it is compared, and is no `*`.
pub fn after_element<'a>(first: u8, after: &'a [u8], endless: usize) -> &'a [u8]
    // None of the last `endless` bytes is a `]`.
    requires { HasNoEnd endless after.now }
    // The rest is what comes after the element, whether the texts are folded or not.
    ensures after { (cased : Bool) → result.now ≡ drop (width_after first (compared cased after.now)) after.now }
{
    match first {
        b'\\' => match after {
            [_, rest @ ..] => rest,
            [] => after,
        },
        b'[' => match set_after(after, endless) {
            Some(set) => set.rest,
            None => after,
        },
        _ => after,
    }
}

/// How many bytes stand after the last `]` of a text, or all.
pub fn count_endless(text: &[u8]) -> usize
    // None of that many last bytes of the text is a `]`.
    ensures { HasNoEnd result text.now }
{
    match memrchr(b']', text) {
        Some(last) => text.len() - last - 1,
        None => text.len(),
    }
}

/// A set of bytes.
#[derive(Clone, Copy)]
struct Set<'a> {
    /// Whether it is all bytes but its members.
    is_negated: bool,
    /// Bytes and ranges of bytes, as they are spelled.
    members: &'a [u8],
    /// What stands after its `]`.
    rest: &'a [u8],
}

/// The set that begins with a `[` before these bytes, if it has an end.
fn set_after<'a>(after: &'a [u8], endless: usize) -> Option<Set<'a>>
    requires { HasNoEnd endless after.now }
    ensures none { IsNone result → end_of_set after.now ≡ None }
    ensures set { IfSome result (λ set. IsSet after.now set.is_negated set.members.now set.rest.now) }
{
    let is_negated = is_negated(after);
    let body = if is_negated { &after[1..] } else { after };
    match end_of_body(body, endless) {
        Some(end) => Some(Set {
            is_negated,
            members: &body[..end + 1],
            rest: &body[end + 2..],
        }),
        None => None,
    }
}

/// How many bytes stand between the first member and the first `]` after it.
fn end_of_body(body: &[u8], endless: usize) -> Option<usize>
    requires { HasNoEnd endless body.now }
    ensures end { result ≡ position (λ b. b == 93) (drop 1 body.now) }
    ensures within { IfSome result (λ end. end + 1 < length body.now) }
{
    let Some((_member, later)) = body.split_first() else {
        return None;
    };
    if later.len() <= endless {
        return None;
    }
    later.iter().position(|byte| *byte == b']')
}

/// Whether these are the bytes of a set that is negated.
fn is_negated(after: &[u8]) -> bool
    ensures { result ≡ is_negated after.now }
{
    matches!(after, [b'!' | b'^', ..])
}

/// Whether a byte, as it is compared, is one of the members that a set spells.
fn is_member(members: &[u8], cased: bool, byte: u8) -> bool
    ensures { result ≡ in_ranges (ranges (compared cased members.now)) byte }
{
    let mut members = members;
    while let Some(range) = first_range(members) {
        if as_compared(cased, range.low) <= byte && byte <= as_compared(cased, range.high) {
            return true;
        }
        members = range.rest;
    }
    false
}

/// A range of bytes; a byte that stands for itself is a range of one.
#[derive(Clone, Copy)]
struct Range<'a> {
    low: u8,
    high: u8,
    /// The members after it.
    rest: &'a [u8],
}

/// The range at the front of a set's members.
fn first_range<'a>(members: &'a [u8]) -> Option<Range<'a>>
    ensures none { IsNone result → members.now ≡ [] }
    ensures shorter { IfSome result (λ range. length range.rest.now < length members.now) }
    ensures range { IfSome result (λ range. (cased : Bool) → ranges (compared cased members.now)
        ≡ (compared_byte cased range.low, compared_byte cased range.high) ∷ ranges (compared cased range.rest.now)) }
{
    match members {
        [low, b'-', high, rest @ ..] => Some(Range {
            low: *low,
            high: *high,
            rest,
        }),
        [byte, rest @ ..] => Some(Range {
            low: *byte,
            high: *byte,
            rest,
        }),
        [] => None,
    }
}

/// Whether each byte of a text stands for itself.
pub fn is_literal_text(text: &[u8]) -> bool
    // It is true exactly where no byte is `*`, `?`, `[` or `\`.
    ensures { result ≡ is_literal_text text.now }
{
    // Where a pattern has a special byte, one mostly stands among the first eight.
    if 8 <= text.len() && count_itself(text) < 8 {
        return false;
    }
    text.iter().all(|byte| !is_special(*byte))
}

/// How many bytes at the front of a text stand for themselves: eight at most, and none of a text of fewer.
#[inline]
pub fn count_itself(text: &[u8]) -> usize
    // They stand for themselves.
    ensures itself { is_literal_text (take result text.now) ≡ true }
    // The text has as many.
    ensures within { result ≤ length text.now }
    // Of eight bytes all, or a special byte is next.
    ensures next { 8 ≤ length text.now → result < 8 → is_literal_text text.now ≡ false }
    // They are all before the first special byte of the eight.
    ensures exact { result ≡ (if nat_lt (length text.now) 8 then 0 else itself_len (take 8 text.now)) }
{
    if text.len() < 8 {
        return 0;
    }
    let front = u8x8::from_slice(text);
    let marks = front.simd_eq(u8x8::splat(b'*')) | front.simd_eq(u8x8::splat(b'?'));
    let openings = front.simd_eq(u8x8::splat(b'[')) | front.simd_eq(u8x8::splat(b'\\'));
    let places = (marks | openings).to_bitmask();
    if places == 0 {
        8
    } else {
        places.trailing_zeros() as usize
    }
}

/// Whether a byte may stand for more than itself.
#[inline]
pub fn is_special(byte: u8) -> bool
    // Whether it is `*`, `?`, `[` or `\`.
    ensures { result ≡ is_special byte }
{
    byte == b'*' || byte == b'?' || byte == b'[' || byte == b'\\'
}

/// Whether a pattern begins with a byte that stands for itself, and a name with another: then it doesn't
/// match. This is the first test of [`crate::glob_matches`], which counts it.
#[inline]
pub fn begins_otherwise(pattern: &[u8], cased: bool, name: &[u8]) -> bool
    // The pattern's first byte stands for itself, and the name's is compared as another.
    ensures exact { result ≡ begins_otherwise cased pattern.now name.now }
    // Then the pattern doesn't match the name.
    ensures other { IsTrue result → rule_matches pattern.now cased name.now ≡ false }
    // Then it was the first test that refused it.
    ensures refused { IsTrue result
        → refuses (elements (compared cased pattern.now)) (compared cased name.now) ≡ true }
    // Then the pattern has a byte.
    ensures some { IsTrue result → 0 < length pattern.now }
{
    let Some((first, _after)) = pattern.split_first() else {
        return false;
    };
    let Some((byte, _rest)) = name.split_first() else {
        return false;
    };
    !is_special(*first) && as_compared(cased, *first) != as_compared(cased, *byte)
}

/// The byte that a pattern begins with, if it stands for itself and folding makes it of no other byte.
pub fn first_itself(pattern: &[u8]) -> Option<u8>
    // It is the pattern's first byte, where that is below the letters and stands for itself.
    ensures exact { result ≡ first_itself pattern.now }
    // With one, the pattern refuses each name that begins with another byte at its first test.
    ensures refused { IfSome result (λ first. (cased : Bool) (byte : ℕ) (rest : List ℕ) → (byte == first) ≡ false →
        refuses (elements (compared cased pattern.now)) (compared cased (byte ∷ rest)) ≡ true) }
    // With one, the pattern has a byte.
    ensures some { IfSome result (λ first. 0 < length pattern.now) }
{
    match pattern.split_first() {
        Some((first, _after)) if *first < b'A' && !is_special(*first) => Some(*first),
        _ => None,
    }
}
