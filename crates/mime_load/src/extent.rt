//! How much of a content the lines of a cache can look at.

ghost use Rattle.std.specs.Prelude.{◌≡◌, ◌+◌, max, length};
ghost use Rattle.mime_base.specs.Magic.Extent.{forest_extent, line_extent, sections_extent};
ghost use Rattle.mime_load.specs.Lent.{lent_forest, plain_line, plain_magic};

use crate::line::LentLine;
use crate::magic::LentMagic;

/// The extent of the sections of a cache.
pub fn magic_extent(magic: &LentMagic<'_>) -> u64
    // It is the greatest extent of their lines, at all depths.
    ensures { result ≡ sections_extent (plain_magic magic.now) }
{
    let (mut greatest, mut from) = (0, 0);
    for section in &magic.sections {
        let until = from + section.lines.min(magic.lines.len() - from);
        greatest = lines_extent(&magic.lines[from..until]).max(greatest);
        from = until;
    }
    greatest
}

/// The extent of lines and those below them.
fn lines_extent(lines: &[LentLine<'_>]) -> u64
    ensures { result ≡ forest_extent (lent_forest lines.now) }
{
    let mut greatest = 0;
    for line in lines {
        greatest = line_extent(line).max(greatest);
    }
    greatest
}

/// The extent of a line.
fn line_extent(line: &LentLine<'_>) -> u64
    ensures { result ≡ line_extent (plain_line line.now) }
{
    u64::from(line.start) + u64::from(line.range) + line.value.len() as u64
}
