//! An index of the magic that was read back from a cache.

ghost use Rattle.std.specs.Prelude.{◌≡◌, ◌++◌, ◌+◌, ◌-◌, ◌≤◌, List, IfOk, OnOk, length, take, drop};
ghost use Rattle.mime_base.specs.Magic.Holds.{first_magic};
ghost use Rattle.mime_base.specs.Magic.{PlainSection};
ghost use Rattle.mime_load.specs.Lent.{lent_forest, plain_magic};
ghost use Rattle.mime_lookup.specs.Indexed.{IsMagicIndex};
ghost use Rattle.mime_lookup.specs.LineBytes.{index_bytes};
ghost use Rattle.mime_lookup.specs.TopLines.{lent_top, plain_tops, top_lines, tops_of};
ghost use Rattle.mime_view.specs.Magic.{plain_found};

use crate::indexed::heads::{Heads, heads_of};
use crate::indexed::magic_line::LentTop;
use crate::indexed::sniff::first_section;
use crate::indexed::top_line::TopLine;
use mime_base::{Host, Meter, OutOfMemory};
use mime_load::{LentLine, LentMagic, LentSection, behind_first};
use std::alloc::Global;
use std::marker::Model;

/// An index of the sections of magic that were read back from a cache. This project's own.
///
/// It owns their lines, and lends their bytes from the cache.
///
/// ```
/// let lists = read_back(alloc, &Counted::new(&bytes), &mut meter)?;
/// let index = MagicIndex::new(alloc, lists.magic)?;
/// // index.first_section(content, host, &mut meter) is the type and the priority of the first section that holds
/// ```
#[derive(Drop)]
pub struct MagicIndex<'a> {
    /// All lines, and the top lines with their heads, and where they are found.
    heads: Heads<'a, Vec<LentLine<'a>>, LentTop>,
}

impl<'a> Model for MagicIndex<'a> {
    ghost use Rattle.std.specs.Prelude.{List};
    ghost use Rattle.std.specs.Coded.{codes};
    ghost use denote.Signature.{static_lft};
    ghost use Rattle.mime_load.specs.contracts.line.LentLine as line;
    ghost use Rattle.mime_load.specs.declared.line.LentLine.{LentLine};
    ghost use Rattle.mime_lookup.specs.Indexed.{AreFound};
    ghost use Rattle.mime_lookup.specs.TopLines.{lent_top, plain_tops};
    ghost use Rattle.mime_lookup.specs.declared.indexed.magic_line.LentTop.{LentTop};
    ghost use Rattle.mime_lookup.specs.declared.indexed.top_line.TopLine.{TopLine};

    ghost Value = { List LentLine × List (TopLine LentTop) };

    ghost coded = { Prim.hlevel (codes, (line.the_row static_lft).coded) };

    ghost view = { λ index. (index.heads.source.items, index.heads.tops.items) };

    ghost invariant = { λ index. AreFound index.heads.lines.items index.heads.tables index.heads.pairs.items index.heads.shortest
        (plain_tops (lent_top index.heads.source.items) index.heads.tops.items) };
}

impl<'a> MagicIndex<'a> {
    /// The index of the sections of a cache. Its time and memory grow with their lines.
    pub fn new(alloc: Global, magic: LentMagic<'a>) -> Result<MagicIndex<'a>, OutOfMemory>
        // It is an index of these sections: of their lines of indent 0, in their order, each with what its section gives.
        ensures { IfOk result (λ index. IsMagicIndex index (plain_magic magic.entry)) }
    {
        let LentMagic { sections, lines } = magic;
        let mut tops = Vec::with_capacity(alloc, lines.len())?;
        let mut from = 0;
        for section in &sections {
            let until = from + section.lines.min(lines.len() - from);
            push_tops(&mut tops, section, &lines, from, until)?;
            from = until;
        }
        let heads = heads_of(alloc, lines, tops)?;
        Ok(MagicIndex { heads })
    }

    /// The type and the priority of the first section with a line of indent 0 that holds for a content.
    ///
    /// The meter counts as a byte each table, each line and each place of the content's front that is looked at, and what
    /// is compared.
    pub fn first_section(
        &self,
        content: &[u8],
        host: Host,
        meter: &mut Meter,
    ) -> Option<(&'a [u8], u32)>
        // Of the sections that it is an index of it is the first that holds.
        ensures first { (sections : List PlainSection) → IsMagicIndex self.now sections
            → plain_found result ≡ first_magic sections content.now host }
        // No record of a cache is visited.
        ensures nodes { meter.new.nodes ≡ meter.old.nodes }
        // Each of their lines is asked at most once, and so is each table, and each place of the content's front.
        ensures bytes { (sections : List PlainSection) → IsMagicIndex self.now sections
            → meter.new.bytes ≤ meter.old.bytes + index_bytes (length content.now) (top_lines sections) }
    {
        first_section(&self.heads, content, host, meter)
    }
}

/// Adds the top lines of a section, whose lines are those from one place up to another.
fn push_tops<'a>(
    tops: &mut Vec<TopLine<'a, LentTop>>,
    section: &LentSection<'a>,
    lines: &[LentLine<'_>],
    from: usize,
    until: usize,
) -> Result<(), OutOfMemory>
    requires order { from ≤ until }
    requires inside { until ≤ length lines.now }
    ensures { OnOk result (plain_tops (lent_top lines.now) tops.new.items
        ≡ plain_tops (lent_top lines.now) tops.old.items ++ tops_of (record {
          priority = section.now.priority;
          kind = section.now.kind.now;
          lines = lent_forest (take (until - from) (drop from lines.now));
        })) }
{
    let mut rest = &lines[from..until];
    while !rest.is_empty() {
        let line = LentTop {
            place: until - rest.len(),
            size: rest.len(),
        };
        tops.push(TopLine {
            kind: section.kind,
            priority: section.priority,
            line,
        })?;
        rest = behind_first(rest);
    }
    Ok(())
}
