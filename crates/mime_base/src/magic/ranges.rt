//! Values that are sought at the offsets of a range ("The magic files").

ghost use Rattle.std.specs.Prelude.{◌≡◌, ℕ, ◌+◌, ◌-◌, ◌^◌, ◌<◌, ◌≤◌, [], length, min, true, false, Some};
ghost use Rattle.mime_base.specs.Magic.Holds.{equals_from};
ghost use Rattle.mime_base.specs.Magic.{line_from};
ghost use Rattle.mime_base.specs.Magic.Masking.{equal_bytes, group_of, window_equals};
ghost use Rattle.mime_base.specs.Magic.Ranges.{PassesWindows, compared_from};
ghost use Rattle.mime_base.specs.Meter.{CountsBytes};

use crate::magic::content::NotedContent;
use crate::magic::host::Host;
use crate::magic::masking::{equal_bytes, group_of};
use crate::magic::pairs::{Passed, pass_pairs};
use crate::meter::Meter;
use memchr::memchr;

/// Whether the window at one of `range` offsets from `start` on equals a value under its mask.
///
/// For each window tried it adds the bytes compared, including the first mismatch.
#[inline(always)]
pub fn value_in_range(
    value: &[u8],
    mask: &[u8],
    word: u32,
    host: Host,
    content: &[u8],
    start: usize,
    range: usize,
    meter: &mut Meter,
) -> bool
    // No offset overflows.
    requires fits { start + range < 2 ^ 64 }
    // It says whether some window of the range lies in the content and equals the value.
    ensures equal { result ≡ equals_from (line_from start range word value.now (Some mask.now))
        host content.now start range }
    // For each window tried it counts the bytes compared, including the first mismatch.
    ensures counts { CountsBytes (compared_from (line_from start range word value.now (Some mask.now)) host content.now start range)
        meter.old meter.new }
{
    if content.len() < value.len() || content.len() - value.len() < start {
        return false;
    }
    if range == 1 && first_byte_differs(value, mask, word, content, start) {
        meter.add_bytes(1);
        return false;
    }
    let end = (start + range).min(content.len() - value.len() + 1);
    value_in_windows(value, mask, word, host, content, start, end, meter)
}

/// Whether the first byte alone rules the window at an offset out.
#[inline(always)]
pub fn first_byte_differs(value: &[u8], mask: &[u8], word: u32, content: &[u8], at: usize) -> bool
    // The window lies in the content.
    requires inside { at + length value.now ≤ length content.now }
    // Then the window doesn't equal the value.
    ensures equal { result ≡ true → (host : Host) →
        equals_from (line_from 0 0 word value.now (Some mask.now)) host content.now at 1 ≡ false }
    // One byte of it is compared.
    ensures counted { result ≡ true → (host : Host) →
        compared_from (line_from 0 0 word value.now (Some mask.now)) host content.now at 1 ≡ 1 }
{
    if !mask.is_empty() || value.is_empty() || word != 1 {
        return false;
    }
    content[at] != value[0]
}

/// How many windows the range of a value without a mask has, if it is told at once that each differs in its first byte; else 0.
///
/// Most lines are refused so. Each byte is a number of its own.
#[inline(always)]
pub fn windows_differing(
    value: &[u8],
    content: &NotedContent<'_>,
    start: usize,
    range: usize,
) -> usize
    // The first window lies in the content.
    requires inside { start + length value.now ≤ length content.now }
    // There is a first byte.
    requires some { 0 < length value.now }
    // No offset overflows.
    requires fits { start + range < 2 ^ 64 }
    // Then none of them equals the value.
    ensures equal { 0 < result → (host : Host) →
        equals_from (line_from 0 0 1 value.now (Some [])) host content.now start range ≡ false }
    // One byte of each is compared.
    ensures counted { 0 < result → (host : Host) →
        compared_from (line_from 0 0 1 value.now (Some [])) host content.now start range ≡ result }
{
    let bytes = content.bytes();
    if range == 1 {
        return if bytes[start] == value[0] { 0 } else { 1 };
    }
    let end = (start + range).min(bytes.len() - value.len() + 1);
    if content.lacks(value[0], end) {
        end - start
    } else {
        0
    }
}

/// Whether the window at one of the offsets from `start` up to `end` equals a value under its mask. Of most lines the one
/// window differs in its first byte already.
// One loop, with a search in it: its callers are no loops themselves.
#[inline(always)]
fn value_in_windows(
    value: &[u8],
    mask: &[u8],
    word: u32,
    host: Host,
    content: &[u8],
    start: usize,
    end: usize,
    meter: &mut Meter,
) -> bool
    requires order { start ≤ end }
    requires inside { end + length value.now ≤ length content.now + 1 }
    ensures equal { result ≡ equals_from (line_from 0 0 word value.now (Some mask.now))
        host content.now start (end - start) }
    ensures counts { CountsBytes (compared_from (line_from 0 0 word value.now (Some mask.now)) host content.now start (end - start))
        meter.old meter.new }
{
    let mut start = start;
    while start < end {
        let at = next_window(value, mask, word, host, content, start, end, meter);
        if at == end {
            return false;
        }
        let window = &content[at..at + value.len()];
        if value_is(value, mask, word, host, window, meter) {
            return true;
        }
        start = at + 1;
    }
    false
}

/// The next offset up to `end` whose window may equal the value. Of each window before it one byte is compared, or two where the
/// first is the value's.
#[inline(always)]
fn next_window(
    value: &[u8],
    mask: &[u8],
    word: u32,
    host: Host,
    content: &[u8],
    at: usize,
    end: usize,
    meter: &mut Meter,
) -> usize
    requires order { at ≤ end }
    requires inside { end + length value.now ≤ length content.now + 1 }
    ensures { PassesWindows (line_from 0 0 word value.now (Some mask.now)) host content.now at result end meter.old meter.new }
{
    if end - at <= 1 || !mask.is_empty() || value.is_empty() {
        return at;
    }
    if group_of(word, host, value.len()) != 1 {
        return at;
    }
    let passed = pass_windows(value, content, at, end);
    meter.add_bytes(passed.length as u64);
    meter.add_bytes(passed.firsts as u64);
    at + passed.length
}

/// The offsets from `at` on whose windows differ from a value in its first byte or, where it has two, in one of its first two:
/// up to the first that may equal it, or to `end`.
#[inline(always)]
fn pass_windows(value: &[u8], content: &[u8], at: usize, end: usize) -> Passed
    requires some { 0 < length value.now }
    requires order { at ≤ end }
    requires inside { end + length value.now ≤ length content.now + 1 }
    ensures limit { at + result.length ≤ end }
    ensures equal { (word : ℕ) (host : Host) → group_of word host (length value.now) ≡ 1 →
        equals_from (line_from 0 0 word value.now (Some [])) host content.now at (end - at)
        ≡ equals_from (line_from 0 0 word value.now (Some [])) host content.now (at + result.length) (end - (at + result.length)) }
    ensures counted { (word : ℕ) (host : Host) → group_of word host (length value.now) ≡ 1 →
        compared_from (line_from 0 0 word value.now (Some [])) host content.now at (end - at) ≡ result.length + result.firsts
        + compared_from (line_from 0 0 word value.now (Some [])) host content.now (at + result.length) (end - (at + result.length)) }
{
    if value.len() == 1 {
        let bytes = &content[at..end];
        let length = memchr(value[0], bytes).unwrap_or(bytes.len());
        return Passed { length, firsts: 0 };
    }
    pass_pairs(value[0], value[1], &content[at..], end - at)
}

/// Whether a window equals a value under its mask. It adds the bytes up to and including the first that
/// differs.
#[inline(never)]
fn value_is(
    value: &[u8],
    mask: &[u8],
    word: u32,
    host: Host,
    window: &[u8],
    meter: &mut Meter,
) -> bool
    requires { length window.now ≡ length value.now }
    ensures equal { result ≡ window_equals value.now mask.now word host window.now }
    ensures counts { CountsBytes (min (equal_bytes value.now mask.now word host window.now + 1) (length value.now)) meter.old meter.new }
{
    let equal = equal_bytes(value, mask, word, host, window);
    meter.add_bytes((equal as u64).saturating_add(1).min(value.len() as u64));
    equal == window.len()
}
