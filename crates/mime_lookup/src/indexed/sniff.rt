//! The first section of magic that holds for a content, of lines that their heads don't refuse.

ghost use Rattle.std.specs.Prelude.{◌≡◌, ◌+◌, ◌≤◌, List, length};
ghost use Rattle.mime_base.specs.Magic.Holds.{first_magic};
ghost use Rattle.mime_base.specs.Magic.{PlainSection};
ghost use Rattle.mime_lookup.specs.Indexed.{AreFound};
ghost use Rattle.mime_lookup.specs.LineBytes.{index_bytes};
ghost use Rattle.mime_lookup.specs.TopLines.{plain_tops, top_lines};
ghost use Rattle.mime_view.specs.Magic.{plain_found};

use crate::indexed::first_line::first_line;
use crate::indexed::heads::Heads;
use crate::indexed::magic_line::MagicLines;
use mime_base::{Host, Meter};

/// The type and the priority of the first section with a line of indent 0 that holds.
// As `crate::lists::first_section`, but line by line, and only those that the tables name for the content, and the others.
pub fn first_section<'a, S: MagicLines<L>, L: Drop>(
    heads: &Heads<'a, S, L>,
    content: &[u8],
    host: Host,
    meter: &mut Meter,
) -> Option<(&'a [u8], u32)>
    // Each line has its head, and is found by its place and its byte, or is asked by itself.
    requires found { AreFound heads.now.lines.items heads.now.tables heads.now.pairs.items heads.now.shortest
        (plain_tops (S.plain heads.now.source) heads.now.tops.items) }
    // Of sections with these lines of indent 0 it is the first that holds.
    ensures first { (sections : List PlainSection) → plain_tops (S.plain heads.now.source) heads.now.tops.items ≡ top_lines sections
        → plain_found result ≡ first_magic sections content.now host }
    // No record of a cache is visited.
    ensures nodes { meter.new.nodes ≡ meter.old.nodes }
    // Each line is asked at most once, and so is each table, and each place of the content's front.
    ensures bytes { meter.new.bytes ≤ meter.old.bytes
        + index_bytes (length content.now) (plain_tops (S.plain heads.now.source) heads.now.tops.items) }
{
    let first = first_line(heads, content, host, meter);
    if first < heads.tops.len() {
        let top = &heads.tops[first];
        return Some((top.kind, top.priority));
    }
    None
}
