//! Lines of magic that lie in a cache.

ghost use Rattle.std.specs.Prelude.{◌≡◌};
ghost use Rattle.mime_load.specs.Adding.{plain_entry};
ghost use Rattle.mime_load.specs.MagicStanding.{plain_own};

use crate::own::Own;

/// A line of magic of a cache ("The magic files"). What a field means is told by `Matchlet` of mime_base.
#[derive(Debug, Drop)]
pub struct LentLine<'a> {
    /// The first offset in the content that is tried, in bytes.
    pub start: u32,
    /// How many offsets are tried.
    pub range: u32,
    /// How many bytes a number has in the value.
    pub word: u32,
    /// The bytes that are sought.
    pub value: &'a [u8],
    /// Which bits of the value count; all of them where there is none.
    pub mask: Option<&'a [u8]>,
    /// How many of the lines that come right after it are below it, at all depths: its children, each before those below it.
    pub below: usize,
}

/// The line, with none below it.
pub fn line_of<'a>(own: &Own<'a>) -> LentLine<'a>
    // It is that line, and none are below it.
    ensures { plain_entry result ≡ (plain_own own.now, 0) }
{
    LentLine {
        start: own.start,
        range: own.range,
        word: own.word,
        value: own.value,
        mask: own.mask,
        below: 0,
    }
}
