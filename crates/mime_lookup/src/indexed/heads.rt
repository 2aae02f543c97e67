//! Lines of magic with their heads, and where they are found.
//!
//! The heads of all top lines stand together, in the order of the lines.

ghost use Rattle.std.specs.Prelude.{◌≡◌, IfOk};
ghost use Rattle.mime_lookup.specs.Indexed.{AreFound};
ghost use Rattle.mime_lookup.specs.TopLines.{plain_tops};

use crate::indexed::line_head::LineHead;
use crate::indexed::magic_line::MagicLines;
use crate::indexed::other_pairs::pairs_of;
use crate::indexed::tables::{Tables, tables_of};
use crate::indexed::top_line::TopLine;
use mime_base::OutOfMemory;
use std::alloc::Global;

/// The top lines of some sections, and what is known of them.
#[derive(Drop)]
pub struct Heads<'a, S, L> {
    /// The head of each line.
    pub lines: Vec<LineHead>,
    /// Where the lines are kept.
    pub source: S,
    /// The lines, section by section.
    pub tops: Vec<TopLine<'a, L>>,
    /// Where they are found by a place and a byte.
    pub tables: Tables,
    /// Of each line that is asked by itself the number of a pair of its head, if it has one near the front.
    pub pairs: Vec<u16>,
    /// No line holds for a content of fewer bytes.
    pub shortest: usize,
}

/// The top lines of some sections with their heads.
pub fn heads_of<'a, S: MagicLines<L>, L: Drop>(
    alloc: Global,
    source: S,
    tops: Vec<TopLine<'a, L>>,
) -> Result<Heads<'a, S, L>, OutOfMemory>
    // The lines are those, in their order.
    ensures tops { IfOk result (λ heads. plain_tops (S.plain heads.source) heads.tops.items
        ≡ plain_tops (S.plain source) tops.entry.items) }
    // Each has its head, and is found by its place and its byte, or is asked by itself.
    ensures found { IfOk result (λ heads. AreFound heads.lines.items heads.tables heads.pairs.items heads.shortest
        (plain_tops (S.plain heads.source) heads.tops.items)) }
{
    let mut lines = Vec::with_capacity(alloc, tops.len())?;
    let mut shortest = usize::MAX;
    for top in &tops {
        let head = source.head(&top.line);
        shortest = shortest.min(head.least_length());
        lines.push_reserved(head);
    }
    let tables = tables_of(alloc, &lines)?;
    let pairs = pairs_of(alloc, &lines, &tables.others)?;
    Ok(Heads {
        lines,
        source,
        tops,
        tables,
        pairs,
        shortest,
    })
}
