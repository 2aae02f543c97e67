//! Lines of magic, and the content that they are asked of.

ghost use Rattle.std.specs.Prelude.{◌≡◌, ℕ, ◌+◌, ◌-◌, ◌<◌, ◌≤◌, true, false, length, slice_index};
ghost use Rattle.mime_lookup.specs.Heads.{AreLineHeads, RefusesContent, ShowsBytes, head_windows};
ghost use Rattle.mime_lookup.specs.LineBytes.{asked_bytes};
ghost use Rattle.mime_lookup.specs.Tables.{FailsLine, Holds};
ghost use Rattle.mime_lookup.specs.TopLines.{plain_tops};

use crate::indexed::line_head::LineHead;
use crate::indexed::magic_line::MagicLines;
use crate::indexed::noted_pairs::{FRONT, NotedPairs};
use crate::indexed::top_line::TopLine;
use memchr::memchr;
use mime_base::{Host, Meter, pass_pairs};

/// Lines, and the content that they are asked of.
#[derive(Drop)]
pub struct LineSearch<'a, S, L> {
    /// The head of each line.
    pub heads: &'a [LineHead],
    /// Where the lines are kept.
    pub source: &'a S,
    /// The lines.
    pub tops: &'a [TopLine<'a, L>],
    /// The content.
    pub content: &'a NotedPairs<'a>,
    /// The host, by which words are read.
    pub host: Host,
}

/// Whether a line holds: most that don't are refused by their heads.
// Called from two loops, in which most lines are refused by a few instructions.
#[inline(always)]
pub fn line_holds<S: MagicLines<L>, L: Drop>(
    asked: &LineSearch<'_, S, L>,
    line: usize,
    meter: &mut Meter,
) -> bool
    // Each line has its head.
    requires headed { AreLineHeads asked.now.heads.now (plain_tops (S.plain asked.now.source.now) asked.now.tops.now) }
    // It is the number of a line.
    requires inside { line < length asked.now.tops.now }
    // The line holds where it says so.
    ensures holds { result ≡ true → Holds (plain_tops (S.plain asked.now.source.now) asked.now.tops.now) asked.now.content.now asked.now.host line }
    // It doesn't where it says not.
    ensures fails { result ≡ false → FailsLine (plain_tops (S.plain asked.now.source.now) asked.now.tops.now) asked.now.content.now asked.now.host line }
    // No record of a cache is visited.
    ensures nodes { meter.new.nodes ≡ meter.old.nodes }
    // With one for the line, it looks at no more than asking it may.
    ensures bytes { meter.new.bytes + 1 ≤ meter.old.bytes
        + asked_bytes (length asked.now.content.now) (plain_tops (S.plain asked.now.source.now) asked.now.tops.now) line }
{
    if refuses(&asked.heads[line], asked.content, meter) {
        return false;
    }
    let top = &asked.tops[line];
    asked
        .source
        .holds(&top.line, asked.content.bytes(), asked.host, meter)
}

/// Whether a line's head refuses a content.
#[inline(always)]
fn refuses(head: &LineHead, content: &NotedPairs<'_>, meter: &mut Meter) -> bool
    ensures refuses { result ≡ true → RefusesContent head.now content.now }
    ensures nodes { meter.new.nodes ≡ meter.old.nodes }
    ensures bytes { meter.new.bytes ≤ meter.old.bytes + head_windows (length content.now) head.now }
{
    let bytes = content.bytes();
    let (start, size) = (head.start as usize, usize::from(head.size));
    if bytes.len() < start + size {
        return true;
    }
    if size == 0 {
        return false;
    }
    if head.range == 1 {
        return differs_at(head, bytes, start);
    }
    if usize::from(head.skip) + 1 >= size {
        return false;
    }
    let end = (start + head.range as usize).min(bytes.len() - size + 1);
    lacks_pairs(head, content, start, end, meter)
}

/// Whether the bytes of a head don't stand in the window at a place.
#[inline(always)]
fn differs_at(head: &LineHead, bytes: &[u8], place: usize) -> bool
    requires inside { place + head.now.size ≤ length bytes.now }
    requires some { 0 < head.now.size }
    ensures { result ≡ true → ShowsBytes head.now bytes.now place → ⊥ }
{
    let skip = usize::from(head.skip);
    if bytes[place] != head.first || skip + 1 >= usize::from(head.size) {
        return bytes[place] != head.first;
    }
    let later = place + skip;
    bytes[place + 1] != head.second || bytes[later] != head.third || bytes[later + 1] != head.fourth
}

/// Whether a pair of a head stands at none of its places from `start` on up to `end`.
#[inline(always)]
fn lacks_pairs(
    head: &LineHead,
    content: &NotedPairs<'_>,
    start: usize,
    end: usize,
    meter: &mut Meter,
) -> bool
    requires order { start ≤ end }
    requires paired { head.now.skip + 1 < head.now.size }
    requires inside { end + head.now.size ≤ length content.now + 1 }
    ensures lacks { result ≡ true → (place : ℕ) → start ≤ place → place < end
        → ShowsBytes head.now content.now place → ⊥ }
    ensures nodes { meter.new.nodes ≡ meter.old.nodes }
    ensures bytes { meter.new.bytes ≤ meter.old.bytes + (end - start) }
{
    let (bytes, skip) = (content.bytes(), usize::from(head.skip));
    if end + skip > FRONT {
        return lacks_far(
            head.third,
            head.fourth,
            bytes,
            start + skip,
            end + skip,
            meter,
        );
    }
    content.lacks(head.first, head.second, end)
        || content.lacks(head.third, head.fourth, end + skip)
}

/// Whether a pair of bytes stands at none of the places from `start` on up to `end`.
#[inline(never)]
fn lacks_far(
    first: u8,
    second: u8,
    bytes: &[u8],
    start: usize,
    end: usize,
    meter: &mut Meter,
) -> bool
    requires order { start ≤ end }
    requires inside { end < length bytes.now }
    ensures lacks { result ≡ true → (place : ℕ) → start ≤ place → place < end → slice_index bytes.now place ≡ first
        → slice_index bytes.now (place + 1) ≡ second → ⊥ }
    ensures nodes { meter.new.nodes ≡ meter.old.nodes }
    ensures bytes { meter.new.bytes ≤ meter.old.bytes + (end - start) }
{
    meter.add_bytes((end - start) as u64);
    match memchr(first, &bytes[start..end]) {
        Some(passed) => {
            let count = end - start - passed;
            pass_pairs(first, second, &bytes[start + passed..], count).length == count
        }
        None => true,
    }
}
