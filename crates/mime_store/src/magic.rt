//! The magic list: sections, their lines as a forest, and how far they look at a content.

ghost use Rattle.std.specs.Prelude.{◌≡◌, ◌+◌, ◌^◌, ◌<◌, ◌≤◌, true, length, max, OnOk, IfOk};
ghost use Rattle.mime_base.specs.Format.Magic.{LinesAt, MagicAt, MaskAt};
ghost use Rattle.mime_base.specs.Format.Room.{lines_room, mask_room, sections_room};
ghost use Rattle.mime_base.specs.Magic.Extent.{forest_extent, sections_extent};
ghost use Rattle.mime_base.specs.Magic.{are_allowed_sections, forest_of, mask_bytes, plain_matchlet, plain_matchlets};
ghost use Rattle.mime_base.specs.Magic.{plain_sections};
ghost use Rattle.mime_store.specs.Lines.{IsLineRecord, matchlet_extent, matchlet_parts_room};
ghost use Rattle.mime_store.specs.Lists.{IsRow};
ghost use Rattle.mime_store.specs.Written.{Grew, Written};

use crate::bytes::{append_numbers, append_text, append_value};
use crate::list::{Entry, gather};
use crate::room::{take_lines, take_text};
use mime_base::{Matchlet, OutOfMemory, Section};
use smallvec::SmallVec;
use std::alloc::Global;

/// The records of four lines, of eight numbers each, need no allocation.
const SHORT_LINES: usize = 32;

/// The sections with all that belongs to them, then the head of the list; returns the offset of the head.
pub fn write_magic(
    alloc: Global,
    out: &mut Vec<u8>,
    sections: &[Section],
) -> Result<u32, OutOfMemory>
    // The bytes stay within what a number of 32 bits can point to.
    requires room { length out.old.items + (12 + sections_room (plain_sections sections.now)) < 2 ^ 32 }
    // The header has its place.
    requires begun { 40 ≤ length out.old.items }
    // Each line is one that `magic` allows, so that its numbers fit 32 bits.
    requires allowed { are_allowed_sections (plain_sections sections.now) ≡ true }
    // The bytes grow by the head and by what the sections take, and what was there stays.
    ensures grew { OnOk result (Grew out.old.items out.new.items (12 + sections_room (plain_sections sections.now))) }
    // The head of the magic list stands at the offset that is returned, with the sections in their order.
    ensures stands { IfOk result (λ at. MagicAt (Written out.new.items) at (plain_sections sections.now)) }
{
    let records = gather(alloc, out, sections)?;
    let first = append_numbers(out, records.as_slice())?;
    let at = append_numbers(
        out,
        &[sections.len() as u32, extent(sections) as u32, first],
    )?;
    Ok(at)
}

impl Entry<4> for Section {
    ghost use Rattle.mime_base.specs.Format.Magic.{IsSectionRecord};
    ghost use Rattle.mime_base.specs.Magic.{PlainSection, plain_section};
    ghost use Rattle.mime_store.specs.Lines.{section_parts_room};
    ghost use Rattle.std.proofs.Common.{lit<, lit≤};

    ghost Plain = { PlainSection };

    ghost plain = { plain_section };

    ghost room = { section_parts_room };

    ghost IsRecord = { IsSectionRecord };

    fn take_room(&self, left: usize) -> Option<usize> {
        let left = left.checked_sub(16)?;
        let left = take_text(left, self.kind.bytes())?;
        take_lines(left, &self.lines)
    }

    #[tactic(auto, using(crate::proofs::RulesLemmas::Fits::type_fits))]
    fn write(&self, alloc: Global, out: &mut Vec<u8>) -> Result<[u32; 4], OutOfMemory> {
        let kind = append_text(out, self.kind.bytes())?;
        let first = write_lines(alloc, out, &self.lines)?;
        Ok([self.priority, kind, self.lines.len() as u32, first])
    }

    ghost some = { lit< tt };

    ghost few = { lit≤ tt };
}

/// What belongs to the lines, then their records; returns the offset of the first one.
#[cycle(lines)]
fn write_lines(alloc: Global, out: &mut Vec<u8>, lines: &[Matchlet]) -> Result<u32, OutOfMemory>
    requires room { length out.old.items + lines_room (forest_of (plain_matchlets lines.now)) < 2 ^ 32 }
    requires begun { 40 ≤ length out.old.items }
    ensures grew { OnOk result (Grew out.old.items out.new.items (lines_room (forest_of (plain_matchlets lines.now)))) }
    ensures stand { IfOk result (λ at. LinesAt (Written out.new.items) at (forest_of (plain_matchlets lines.now))) }
{
    let mut records: SmallVec<u32, SHORT_LINES> = SmallVec::new(alloc);
    for line in lines {
        let record = write_parts(alloc, out, line)?;
        records.extend_from_slice(&record)?;
    }
    let at = append_numbers(out, records.as_slice())?;
    Ok(at)
}

/// What belongs to a line; returns its record.
#[cycle(lines)]
fn write_parts(alloc: Global, out: &mut Vec<u8>, line: &Matchlet) -> Result<[u32; 8], OutOfMemory>
    requires room { length out.old.items + matchlet_parts_room (plain_matchlet line.now) < 2 ^ 32 }
    requires begun { 40 ≤ length out.old.items }
    ensures grew { OnOk result (Grew out.old.items out.new.items (matchlet_parts_room (plain_matchlet line.now))) }
    ensures row { IfOk result (λ row. IsRow IsLineRecord 8 out.new.items (plain_matchlet line.now) row) }
{
    let value = append_value(out, &line.value)?;
    let mask = write_mask(out, &line.mask)?;
    let first = write_lines(alloc, out, &line.children)?;
    let length = line.value.len() as u32;
    let count = line.children.len() as u32;
    Ok([
        line.start, line.range, line.word, length, value, mask, count, first,
    ])
}

/// The mask, if there is one; returns its offset, or 0.
fn write_mask(out: &mut Vec<u8>, mask: &Option<Vec<u8>>) -> Result<u32, OutOfMemory>
    requires room { length out.old.items + mask_room (mask_bytes mask.now) < 2 ^ 32 }
    requires begun { 40 ≤ length out.old.items }
    ensures grew { OnOk result (Grew out.old.items out.new.items (mask_room (mask_bytes mask.now))) }
    ensures stands { IfOk result (λ at. MaskAt (Written out.new.items) at (mask_bytes mask.now)) }
{
    match mask {
        None => Ok(0),
        Some(mask) => {
            let at = append_value(out, mask)?;
            Ok(at)
        }
    }
}

/// The greatest extent of a section.
fn extent(sections: &[Section]) -> u64
    ensures { result ≡ sections_extent (plain_sections sections.now) }
{
    let mut greatest = 0;
    for section in sections {
        greatest = greater(greatest, extent_of_lines(&section.lines));
    }
    greatest
}

/// The greatest extent of a line, at any depth.
#[cycle(extents)]
fn extent_of_lines(lines: &[Matchlet]) -> u64
    ensures { result ≡ forest_extent (forest_of (plain_matchlets lines.now)) }
{
    let mut greatest = 0;
    for line in lines {
        greatest = greater(greatest, extent_of_line(line));
    }
    greatest
}

/// How far a line and its children look at a content.
#[cycle(extents)]
fn extent_of_line(line: &Matchlet) -> u64
    ensures { result ≡ matchlet_extent (plain_matchlet line.now) }
{
    let own = u64::from(line.start) + u64::from(line.range) + line.value.len() as u64;
    greater(own, extent_of_lines(&line.children))
}

fn greater(left: u64, right: u64) -> u64
    ensures { result ≡ max left right }
{
    if left < right { right } else { left }
}
