//! Whether lines of a cache hold for a content ("The magic files").
//!
//! Windows of the content are compared in place, and nothing is allocated.

ghost use Rattle.std.specs.Prelude.{◌≡◌, ◌+◌, ◌≤◌, drop, length};
ghost use Rattle.mime_base.specs.Magic.Holds.{bytes_of_mask, equals_from, line_holds, some_holds};
ghost use Rattle.mime_base.specs.Magic.WindowBytes.{forest_bytes, line_bytes, window_bytes};
ghost use Rattle.mime_load.specs.Lent.{behind_first, first_of, lent_forest, lent_mask, plain_line};

use crate::line::LentLine;
use mime_base::{Host, Meter, value_in_range};

/// Whether the first of these lines holds for a content: the bytes at some offset of its range equal its
/// value, and some child holds if it has any.
///
/// On a little-endian host each group of `word` bytes of value and mask is reversed first. It adds
/// the bytes that were compared, and no node.
#[cycle(holding)]
pub fn first_line_matches(
    lines: &[LentLine<'_>],
    content: &[u8],
    host: Host,
    meter: &mut Meter,
) -> bool
    // At some offset of the range the window equals the value under the mask; some child holds, if there is one.
    ensures holds { result ≡ line_holds (first_of lines.now) content.now host }
    // No record is counted.
    ensures nodes { meter.new.nodes ≡ meter.old.nodes }
    // It and each line below it compares at most the bytes of its windows that lie in the content.
    ensures bytes { meter.new.bytes ≤ meter.old.bytes + line_bytes (length content.now) (first_of lines.now) }
{
    let Some((line, after)) = lines.split_first() else {
        return false;
    };
    if !equals_in_range(line, content, host, meter) {
        return false;
    }
    let below = &after[..line.below.min(after.len())];
    below.is_empty() || some_line_matches(below, content, host, meter)
}

/// Whether one of the lines side by side holds for a content.
#[cycle(holding)]
fn some_line_matches(lines: &[LentLine<'_>], content: &[u8], host: Host, meter: &mut Meter) -> bool
    ensures holds { result ≡ some_holds (lent_forest lines.now) content.now host }
    ensures nodes { meter.new.nodes ≡ meter.old.nodes }
    ensures bytes { meter.new.bytes ≤ meter.old.bytes + forest_bytes (length content.now) (lent_forest lines.now) }
{
    let mut rest = lines;
    while !rest.is_empty() {
        if first_line_matches(rest, content, host, meter) {
            return true;
        }
        rest = behind_first(rest);
    }
    false
}

/// The lines behind the first one and those below it.
pub fn behind_first<'l, 'a>(lines: &'l [LentLine<'a>]) -> &'l [LentLine<'a>]
    // They are these, or none where there is no first.
    ensures { result.now ≡ behind_first lines.now }
{
    &lines[count_of_first(lines)..]
}

/// How many lines the first one is with those below it.
fn count_of_first(lines: &[LentLine<'_>]) -> usize
    ensures within { result ≤ length lines.now }
    ensures behind { drop result lines.now ≡ behind_first lines.now }
{
    match lines.split_first() {
        Some((line, after)) => line.below.min(after.len()) + 1,
        None => 0,
    }
}

/// Whether the bytes at some offset of a line's range equal its value.
fn equals_in_range(line: &LentLine<'_>, content: &[u8], host: Host, meter: &mut Meter) -> bool
    ensures equal { result ≡ equals_from (plain_line line.now) host content.now
        (plain_line line.now).start (plain_line line.now).range }
    ensures nodes { meter.new.nodes ≡ meter.old.nodes }
    ensures bytes { meter.new.bytes ≤ meter.old.bytes + window_bytes (length content.now) (plain_line line.now) }
{
    value_in_range(
        line.value,
        bits_of(line.mask),
        line.word,
        host,
        content,
        line.start as usize,
        line.range as usize,
        meter,
    )
}

/// The bytes of a mask; without one none, so that all bits count.
fn bits_of<'a>(mask: Option<&'a [u8]>) -> &'a [u8]
    ensures { result.now ≡ bytes_of_mask (lent_mask mask.entry) }
{
    match mask {
        Some(bytes) => bytes,
        None => &[],
    }
}
