//! How much of a content the lines of `magic` can look at ("The magic files").

ghost use Rattle.std.specs.Prelude.{◌≡◌, ◌+◌, max, length};
ghost use Rattle.mime_base.specs.Magic.Extent.{extent, forest_extent, line_extent, sections_extent};
ghost use Rattle.mime_base.specs.Magic.{forest_of, plain_matchlet, plain_matchlets, plain_sections};
ghost use Rattle.mime_base.specs.Database.{plain_database};

use crate::database::Database;
use crate::magic::Section;
use crate::magic::matchlet::Matchlet;

/// The greatest sum of start, range and length of value over all lines of a database; 0 without any.
///
/// Past it no line looks. It never allocates.
pub fn extent(database: &Database) -> u64
    // It is the greatest sum of start, range and length of value over the lines at all depths, and 0 without lines.
    ensures { result ≡ extent (plain_database database.now) }
{
    sections_extent(&database.sections)
}

/// The extent of sections.
fn sections_extent(sections: &[Section]) -> u64
    ensures { result ≡ sections_extent (plain_sections sections.now) }
{
    let mut greatest = 0;
    for section in sections {
        greatest = lines_extent(&section.lines).max(greatest);
    }
    greatest
}

/// The extent of lines and their children.
#[cycle(extent)]
#[inline(never)]
fn lines_extent(lines: &[Matchlet]) -> u64
    ensures { result ≡ forest_extent (forest_of (plain_matchlets lines.now)) }
{
    let mut greatest = 0;
    for line in lines {
        greatest = line_extent(line).max(greatest);
    }
    greatest
}

/// How far a line and its children look: the greatest sum of start, range and length of value.
// Part of the loops over lines, most of which have no children.
#[cycle(extent)]
#[inline(always)]
pub fn line_extent(line: &Matchlet) -> u64
    // It is the greater of its own and that of its children.
    ensures { result ≡ max (line_extent (plain_matchlet line.now).own)
        (forest_extent (plain_matchlet line.now).children) }
{
    let own = u64::from(line.start) + u64::from(line.range) + line.value.len() as u64;
    if line.children.is_empty() {
        return own;
    }
    own.max(lines_extent(&line.children))
}
