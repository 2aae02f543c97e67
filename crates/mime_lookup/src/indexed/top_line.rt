//! Lines of magic with what their sections give.

ghost use Rattle.std.specs.Prelude.{◌≡◌, ◌++◌, IfOk, OnOk};
ghost use Rattle.mime_base.specs.Magic.Extent.{forest_extent, sections_extent};
ghost use Rattle.mime_base.specs.Magic.{plain_section, plain_sections};
ghost use Rattle.mime_lookup.specs.TopLines.{lent_matchlet, plain_tops, top_lines, tops_of};

use mime_base::{Matchlet, OutOfMemory, Section, line_extent};
use std::alloc::Global;

/// A line of indent 0, with the type and the priority of its section.
#[derive(Drop)]
pub struct TopLine<'a, L> {
    /// The type that its section gives.
    pub kind: &'a [u8],
    /// The priority of its section.
    pub priority: u32,
    /// The line.
    pub line: L,
}

/// The top lines of the sections of a database.
#[derive(Drop)]
pub struct TopLines<'a> {
    /// The lines, section by section.
    pub lines: Vec<TopLine<'a, &'a Matchlet>>,
    /// How far they and their children look.
    pub extent: u64,
}

/// The top lines of the sections of a database.
pub fn tops_of<'a>(alloc: Global, sections: &'a [Section]) -> Result<TopLines<'a>, OutOfMemory>
    // These are the lines of indent 0, in their order.
    ensures tops { IfOk result (λ tops. plain_tops lent_matchlet tops.lines.items ≡ top_lines (plain_sections sections.entry.now)) }
    // It is the extent of the sections.
    ensures extent { IfOk result (λ tops. tops.extent ≡ sections_extent (plain_sections sections.entry.now)) }
{
    let mut lines = Vec::with_capacity(alloc, sections.len())?;
    let mut extent = 0;
    for section in sections {
        extent = push_tops(&mut lines, section)?.max(extent);
    }
    Ok(TopLines { lines, extent })
}

/// Adds the top lines of a section, and returns how far they and their children look.
fn push_tops<'a>(
    tops: &mut Vec<TopLine<'a, &'a Matchlet>>,
    section: &'a Section,
) -> Result<u64, OutOfMemory>
    ensures tops { OnOk result (plain_tops lent_matchlet tops.new.items
        ≡ plain_tops lent_matchlet tops.old.items ++ tops_of (plain_section section.entry.now)) }
    ensures extent { IfOk result (λ extent. extent ≡ forest_extent (plain_section section.entry.now).lines) }
{
    let (kind, priority) = (section.kind.bytes(), section.priority);
    let mut extent = 0;
    for line in &section.lines {
        extent = line_extent(line).max(extent);
        tops.push(TopLine {
            kind,
            priority,
            line,
        })?;
    }
    Ok(extent)
}
