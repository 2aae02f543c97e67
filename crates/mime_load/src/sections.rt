//! The magic list.

ghost use Rattle.std.specs.Prelude.{◌≡◌, ◌<◌, ◌≤◌, ℕ, ◌+◌, ◌*◌, List, [], ◌∷◌, length, IfErr, IfOk};
ghost use Rattle.mime_base.specs.Magic.{PlainSection};
ghost use Rattle.mime_load.specs.Adding.{AddsSection, ReadsSections};
ghost use Rattle.mime_load.specs.Lent.{plain_magic};
ghost use Rattle.mime_load.specs.MagicStanding.{MagicStands, SectionStands, SectionsStand};
ghost use Rattle.mime_load.specs.Taking.{HasSectionRoom, PaysWide, TakesSections};

use crate::extent::magic_extent;
use crate::line::LentLine;
use crate::lines::push_lines;
use crate::magic::LentMagic;
use crate::section::LentSection;
use crate::source::Source;
use crate::taking::{Taking, take_numbers};
use crate::unread::Unread;

/// The most levels that lines have.
const LEVELS: u32 = 64;

/// How many bytes the record of a section has.
const SECTION: u64 = 16;

/// The sections of the magic list at `at` with their lines, in its order ("The mime.cache files"). Their records, those of their lines and the bytes of
/// values are taken.
pub fn magic_at<'a>(
    source: &Source<'_, 'a>,
    at: u32,
    taking: &mut Taking,
) -> Result<LentMagic<'a>, Unread>
    // A magic list of these sections stands there, and each line is one that magic can spell.
    ensures stand { IfOk result (λ magic. MagicStands source.now.counted.now at (plain_magic magic)) }
    // Sections take sixteen bytes each, lines 32, and values their bytes.
    ensures taken { IfOk result (λ magic. TakesSections taking.old taking.new (plain_magic magic)) }
    // Of sections that stand there, and with room for them, only memory can be short.
    ensures need { (sections : List PlainSection) → MagicStands source.now.counted.now at sections → HasSectionRoom taking.old sections →
        IfErr result (λ e. e ≡ Unread.OutOfMemory) }
    // And no others are given.
    ensures whole { (sections : List PlainSection) → MagicStands source.now.counted.now at sections →
        IfOk result (λ found. plain_magic found ≡ sections) }
    // One record is visited besides; each other took sixteen bytes of room at least.
    ensures wide { PaysWide 1 taking.old taking.new }
{
    let [count, extent, first] = source
        .counted
        .record::<3>(u64::from(at), &mut taking.meter)?;
    let magic = sections_from(source, first, count, taking)?;
    if magic_extent(&magic) != u64::from(extent) {
        return Err(Unread::NotSpelled);
    }
    Ok(magic)
}

/// The `count` sections from `first` on with their lines.
fn sections_from<'a>(
    source: &Source<'_, 'a>,
    first: u32,
    count: u32,
    taking: &mut Taking,
) -> Result<LentMagic<'a>, Unread>
    ensures reads { IfOk result (λ magic. ReadsSections source.now.counted.now first magic.sections.items magic.lines.items
        taking.old taking.new) }
    ensures count { IfOk result (λ magic. length magic.sections.items ≡ count) }
    ensures need { (sections : List PlainSection) → length sections ≡ count → SectionsStand source.now.counted.now first sections →
        HasSectionRoom taking.old sections → IfErr result (λ e. e ≡ Unread.OutOfMemory) }
    ensures wide { PaysWide 0 taking.old taking.new }
{
    let (mut sections, mut lines) = (Vec::new(source.alloc), Vec::new(source.alloc));
    for i in 0..count {
        let at = u64::from(first) + 16 * u64::from(i);
        let section = section_at(source, at, taking, &mut lines)?;
        sections.push(section)?;
    }
    Ok(LentMagic { sections, lines })
}

/// The section at `at`, whose lines are put after others.
fn section_at<'a>(
    source: &Source<'_, 'a>,
    at: u64,
    taking: &mut Taking,
    lines: &mut Vec<LentLine<'a>>,
) -> Result<LentSection<'a>, Unread>
    ensures adds { IfOk result (λ section. AddsSection source.now.counted.now at section lines.old.items lines.new.items
        taking.old taking.new) }
    ensures need { (section : PlainSection) → SectionStands source.now.counted.now at section →
        HasSectionRoom taking.old (section ∷ []) → IfErr result (λ e. e ≡ Unread.OutOfMemory) }
    ensures wide { PaysWide 0 taking.old taking.new }
{
    let [priority, kind, count, first] = take_numbers::<4>(source, at, SECTION, taking)?;
    let kind = source.counted.text_at(u64::from(kind), &mut taking.meter)?;
    let before = lines.len();
    push_lines(source, first, count, LEVELS, taking, lines)?;
    Ok(LentSection {
        priority,
        kind,
        lines: lines.len() - before,
    })
}
