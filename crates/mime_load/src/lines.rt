//! Lines side by side, and those below them.

ghost use Rattle.std.specs.Prelude.{◌≡◌, ◌<◌, ◌≤◌, ℕ, OnOk, IfErr, length};
ghost use Rattle.mime_base.specs.Format.Magic.{width};
ghost use Rattle.mime_base.specs.Magic.{Forest, PlainLine, bare, line};
ghost use Rattle.mime_load.specs.Adding.{AddsLines, SetsBelow};
ghost use Rattle.mime_load.specs.MagicStanding.{ForestStands};
ghost use Rattle.mime_load.specs.Taking.{HasRoomForLines, PaysWide};

use crate::line::{LentLine, line_of};
use crate::own::own_at;
use crate::source::Source;
use crate::taking::Taking;
use crate::unread::Unread;

/// Puts the `count` lines from `first` on after others, each right before those below it, of at most so many levels.
#[cycle(lines)]
pub fn push_lines<'a>(
    source: &Source<'_, 'a>,
    first: u32,
    count: u32,
    levels: u32,
    taking: &mut Taking,
    lines: &mut Vec<LentLine<'a>>,
) -> Result<(), Unread>
    // So many that stand there come after the others, and took their room.
    ensures adds { OnOk result (AddsLines source.now.counted.now first levels count lines.old.items lines.new.items taking.old taking.new) }
    // Of lines that stand, and with room for them, only memory can be short.
    ensures need { (lines : Forest) → width lines ≡ count → ForestStands source.now.counted.now first levels lines →
        HasRoomForLines taking.old lines → IfErr result (λ e. e ≡ Unread.OutOfMemory) }
    // What was looked at was taken, and each record with sixteen bytes at least.
    ensures wide { PaysWide 0 taking.old taking.new }
{
    if levels == 0 && count != 0 {
        return Err(Unread::NotSpelled);
    }
    for i in 0..count {
        let at = u64::from(first) + 32 * u64::from(i);
        push_line(source, at, levels, taking, lines)?;
    }
    Ok(())
}

/// Puts the line at `at` after others, right before those below it.
#[cycle(lines)]
fn push_line<'a>(
    source: &Source<'_, 'a>,
    at: u64,
    levels: u32,
    taking: &mut Taking,
    lines: &mut Vec<LentLine<'a>>,
) -> Result<(), Unread>
    requires some { 0 < levels }
    // It stands there, comes after the others, and took its room.
    ensures adds { OnOk result (AddsLines source.now.counted.now at levels 1 lines.old.items lines.new.items taking.old taking.new) }
    // Of a line that stands, and with room for it, only memory can be short.
    ensures need { (own : PlainLine) (children : Forest) → ForestStands source.now.counted.now at levels (line own children bare) →
        HasRoomForLines taking.old (line own children bare) → IfErr result (λ e. e ≡ Unread.OutOfMemory) }
    // What was looked at was taken, and each record with sixteen bytes at least.
    ensures wide { PaysWide 0 taking.old taking.new }
{
    let own = own_at(source, at, taking)?;
    let place = lines.len();
    lines.push(line_of(&own))?;
    if own.count == 0 {
        return Ok(());
    }
    push_lines(source, own.first, own.count, levels - 1, taking, lines)?;
    set_below(lines, place);
    Ok(())
}

/// All lines after the one at a place are below it.
fn set_below(lines: &mut Vec<LentLine<'_>>, place: usize)
    requires { place < length lines.old.items }
    // It has their number, and nothing else changed.
    ensures { SetsBelow place lines.old.items lines.new.items }
{
    let below = lines.len() - place - 1;
    lines[place].below = below;
}
