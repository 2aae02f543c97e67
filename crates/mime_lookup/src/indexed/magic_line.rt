//! Lines of magic that an index is made of: those of a database, and those that were read back from a cache.

ghost use Rattle.std.specs.Prelude.{◌≡◌, ◌+◌, ◌≤◌, length, take, drop};
ghost use Rattle.mime_base.specs.Magic.Holds.{line_holds};
ghost use Rattle.mime_base.specs.Magic.WindowBytes.{line_bytes};
ghost use Rattle.mime_base.specs.Magic.{PlainMatchlet, mask_bytes};
ghost use Rattle.mime_load.specs.Lent.{lent_mask};
ghost use Rattle.mime_lookup.specs.Heads.{IsHeadOf};
ghost use Rattle.mime_lookup.specs.TopLines.{lent_matchlet, lent_top};

use crate::indexed::line_head::{LineHead, UNKNOWN, head_of};
use mime_base::{Host, Matchlet, Meter, line_matches};
use mime_load::{LentLine, first_line_matches};

/// Where lines of magic are kept, of which an `L` says one of indent 0.
pub trait MagicLines<L>: Drop {
    // The line with its children.
    ghost plain: { Self → L → PlainMatchlet };

    /// Its head.
    fn head(&self, line: &L) -> LineHead
        // The line doesn't hold for a content that its head refuses.
        ensures { IsHeadOf result (plain self.now line.now) };

    /// Whether it holds for a content.
    fn holds(&self, line: &L, content: &[u8], host: Host, meter: &mut Meter) -> bool
        // It says whether the line holds.
        ensures holds { result ≡ line_holds (plain self.now line.now) content.now host }
        // No record of a cache is visited.
        ensures nodes { meter.new.nodes ≡ meter.old.nodes }
        // It and each line below it compares at most the bytes of its windows that lie in the content.
        ensures bytes { meter.new.bytes ≤ meter.old.bytes + line_bytes (length content.now) (plain self.now line.now) };
}

/// The lines of a database, each of which is lent by itself.
#[derive(Clone, Copy)]
pub struct Matchlets;

impl<'a> MagicLines<&'a Matchlet> for Matchlets {
    ghost plain = { λ _ line. lent_matchlet line };

    fn head(&self, line: &&'a Matchlet) -> LineHead {
        let mask = lent_bits(&line.mask);
        head_of(line.start, line.range, line.word, &line.value, mask)
    }

    #[inline(always)]
    fn holds(&self, line: &&'a Matchlet, content: &[u8], host: Host, meter: &mut Meter) -> bool {
        line_matches(line, content, host, meter)
    }
}

/// A line of indent 0 of a cache, among all lines.
#[derive(Clone, Copy)]
pub struct LentTop {
    /// How many lines are before it.
    pub place: usize,
    /// How many there are from it on up to the end of its section.
    pub size: usize,
}

impl<'a> MagicLines<LentTop> for Vec<LentLine<'a>> {
    ghost plain = { λ lines top. lent_top lines.items top };

    fn head(&self, top: &LentTop) -> LineHead {
        match lines_from(self, top).split_first() {
            Some((line, _)) => head_of(line.start, line.range, line.word, line.value, line.mask),
            None => UNKNOWN,
        }
    }

    #[inline(always)]
    fn holds(&self, top: &LentTop, content: &[u8], host: Host, meter: &mut Meter) -> bool {
        first_line_matches(lines_from(self, top), content, host, meter)
    }
}

/// The lines from one of indent 0 on up to the end of its section.
#[inline]
fn lines_from<'l, 'a>(lines: &'l [LentLine<'a>], top: &LentTop) -> &'l [LentLine<'a>]
    ensures { result.now ≡ take top.now.size (drop top.now.place lines.now) }
{
    let after = &lines[top.place.min(lines.len())..];
    &after[..top.size.min(after.len())]
}

/// The bytes of a mask that is there.
fn lent_bits(mask: &Option<Vec<u8>>) -> Option<&[u8]>
    ensures { lent_mask result ≡ mask_bytes mask.now }
{
    match mask {
        Some(bytes) => Some(bytes.as_slice()),
        None => None,
    }
}
