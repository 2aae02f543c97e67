//! Whether lines of `magic` hold for a content ("The magic files").
//!
//! Windows of the content are compared in place, and nothing is allocated.

ghost use Rattle.std.specs.Prelude.{◌≡◌, ◌+◌, ◌≤◌, length};
ghost use Rattle.mime_base.specs.Magic.Holds.{bytes_of_mask, equals_from, line_holds, some_holds};
ghost use Rattle.mime_base.specs.Magic.WindowBytes.{forest_bytes, line_bytes, window_bytes};
ghost use Rattle.mime_base.specs.Magic.{forest_of, mask_bytes, plain_matchlet, plain_matchlets};

use crate::magic::host::Host;
use crate::magic::matchlet::Matchlet;
use crate::magic::ranges::value_in_range;
use crate::meter::Meter;

/// Whether a line holds for a content: the bytes at some offset of its range equal its value, and
/// some child holds if it has any.
///
/// On a little-endian host each group of `word` bytes of value and mask is reversed first. It adds
/// the bytes that were compared, and no node.
#[cycle(holding)]
pub fn line_matches(line: &Matchlet, content: &[u8], host: Host, meter: &mut Meter) -> bool
    // At some offset of the range the window equals the value under the mask; some child holds, if there is one.
    ensures holds { result ≡ line_holds (plain_matchlet line.now) content.now host }
    // No record is counted.
    ensures nodes { meter.new.nodes ≡ meter.old.nodes }
    // The count of bytes never falls, since it stops at the greatest number.
    ensures rises { meter.old.bytes ≤ meter.new.bytes }
    // It and each line below it compares at most the bytes of its windows that lie in the content.
    ensures bytes { meter.new.bytes ≤ meter.old.bytes + line_bytes (length content.now) (plain_matchlet line.now) }
{
    if !equals_in_range(line, content, host, meter) {
        return false;
    }
    line.children.is_empty() || some_line_matches(&line.children, content, host, meter)
}

/// Whether one of the lines holds for a content.
#[cycle(holding)]
pub fn some_line_matches(lines: &[Matchlet], content: &[u8], host: Host, meter: &mut Meter) -> bool
    // It is true exactly where at least one of the lines holds.
    ensures holds { result ≡ some_holds (forest_of (plain_matchlets lines.now)) content.now host }
    // No record is counted.
    ensures nodes { meter.new.nodes ≡ meter.old.nodes }
    // The count of bytes never falls, since it stops at the greatest number.
    ensures rises { meter.old.bytes ≤ meter.new.bytes }
    // Each of them and of their children compares at most the bytes of its windows that lie in the content.
    ensures bytes { meter.new.bytes ≤ meter.old.bytes + forest_bytes (length content.now) (forest_of (plain_matchlets lines.now)) }
{
    for line in lines {
        if line_matches(line, content, host, meter) {
            return true;
        }
    }
    false
}

/// Whether the bytes at some offset of a line's range equal its value.
fn equals_in_range(line: &Matchlet, content: &[u8], host: Host, meter: &mut Meter) -> bool
    ensures equal { result ≡ equals_from (plain_matchlet line.now).own host content.now
        (plain_matchlet line.now).own.start (plain_matchlet line.now).own.range }
    ensures nodes { meter.new.nodes ≡ meter.old.nodes }
    ensures rises { meter.old.bytes ≤ meter.new.bytes }
    ensures bytes { meter.new.bytes ≤ meter.old.bytes + window_bytes (length content.now) (plain_matchlet line.now).own }
{
    value_in_range(
        &line.value,
        bits_of(&line.mask),
        line.word,
        host,
        content,
        line.start as usize,
        line.range as usize,
        meter,
    )
}

/// The bytes of a mask; without one none, so that all bits count.
fn bits_of(mask: &Option<Vec<u8>>) -> &[u8]
    ensures { result.now ≡ bytes_of_mask (mask_bytes mask.now) }
{
    match mask {
        Some(bytes) => bytes,
        None => &[],
    }
}
