//! The first line of magic that holds, by the tables of an index.
//!
//! The lowest number of a line that was found to hold is kept, and no line after it is asked.

ghost use Rattle.std.specs.Prelude.{◌≡◌, ℕ, ◌+◌, ◌*◌, ◌<◌, ◌≤◌, length, true, false};
ghost use Rattle.mime_lookup.specs.Heads.{AreLineHeads};
ghost use Rattle.mime_lookup.specs.Indexed.{AreFound};
ghost use Rattle.mime_lookup.specs.LineBytes.{asked_bytes, index_bytes, table_bytes, tables_bytes};
ghost use Rattle.mime_lookup.specs.Pairs.{ArePaired, IsPairAt};
ghost use Rattle.mime_lookup.specs.Tables.{ChainFails, FailsLine, HasTable, Holds, IsFirst, LeadsOwn, Narrows, OthersFail, OwnsLines, OwnsOthers, TableFails, TablesFail};
ghost use Rattle.mime_lookup.specs.TopLines.{plain_tops};

use crate::indexed::heads::Heads;
use crate::indexed::line_search::{LineSearch, line_holds};
use crate::indexed::magic_line::MagicLines;
use crate::indexed::noted_pairs::{FRONT, NOWHERE, NUMBERS, NotedPairs, note_pairs};
use crate::indexed::tables::Tables;
use mime_base::{Host, Meter};

/// The number of the first line that holds, else the number of lines.
///
/// The meter counts as a byte each table, each line and each place of the content's front that is looked at, and what is
/// compared.
pub fn first_line<S: MagicLines<L>, L: Drop>(
    heads: &Heads<'_, S, L>,
    content: &[u8],
    host: Host,
    meter: &mut Meter,
) -> usize
    // Each line has its head, and is found by its place and its byte, or is asked by itself.
    requires found { AreFound heads.now.lines.items heads.now.tables heads.now.pairs.items heads.now.shortest
        (plain_tops (S.plain heads.now.source) heads.now.tops.items) }
    // No line before it holds, and it does, if there is one.
    ensures first { IsFirst (plain_tops (S.plain heads.now.source) heads.now.tops.items) content.now host result }
    // No record of a cache is visited.
    ensures nodes { meter.new.nodes ≡ meter.old.nodes }
    // Each line is asked at most once, and so is each table, and each place of the content's front.
    ensures bytes { meter.new.bytes ≤ meter.old.bytes
        + index_bytes (length content.now) (plain_tops (S.plain heads.now.source) heads.now.tops.items) }
{
    if content.len() < heads.shortest {
        return heads.tops.len();
    }
    meter.add_bytes(content.len().min(FRONT) as u64);
    let mut places = [NOWHERE; NUMBERS];
    note_pairs(content, &mut places);
    let noted = NotedPairs::new(content, &places);
    let asked = LineSearch {
        heads: &heads.lines,
        source: &heads.source,
        tops: &heads.tops,
        content: &noted,
        host,
    };
    let found = among_tables(&heads.tables, &asked, meter);
    among_others(&heads.tables.others, &heads.pairs, &asked, found, meter)
}

/// The first line of those that the tables name that holds, else the number of lines.
fn among_tables<S: MagicLines<L>, L: Drop>(
    tables: &Tables,
    asked: &LineSearch<'_, S, L>,
    meter: &mut Meter,
) -> usize
    requires headed { AreLineHeads asked.now.heads.now (plain_tops (S.plain asked.now.source.now) asked.now.tops.now) }
    requires size { length tables.now.nexts.items ≡ length asked.now.tops.now }
    requires slots { length tables.now.firsts.items ≡ length tables.now.places.items * 256 }
    ensures narrows { Narrows (plain_tops (S.plain asked.now.source.now) asked.now.tops.now) asked.now.content.now asked.now.host
        (length asked.now.tops.now) result }
    ensures fail { TablesFail (plain_tops (S.plain asked.now.source.now) asked.now.tops.now) asked.now.content.now asked.now.host tables.now result
        (length tables.now.places.items) }
    ensures nodes { meter.new.nodes ≡ meter.old.nodes }
    ensures bytes { (owner : ℕ → ℕ) → OwnsLines tables.now owner (length asked.now.tops.now) 0
        → meter.new.bytes ≤ meter.old.bytes + length tables.now.places.items
        + tables_bytes (length asked.now.content.now) (plain_tops (S.plain asked.now.source.now) asked.now.tops.now)
        owner (length tables.now.places.items) }
{
    meter.add_bytes(tables.places.len() as u64);
    let mut first = asked.tops.len();
    for table in 0..tables.places.len() {
        first = in_table(tables, table, asked, first, meter);
    }
    first
}

/// The first line before `until` that a table names that holds, else `until`.
#[inline]
fn in_table<S: MagicLines<L>, L: Drop>(
    tables: &Tables,
    table: usize,
    asked: &LineSearch<'_, S, L>,
    until: usize,
    meter: &mut Meter,
) -> usize
    requires headed { AreLineHeads asked.now.heads.now (plain_tops (S.plain asked.now.source.now) asked.now.tops.now) }
    requires has { HasTable tables.now (length asked.now.tops.now) table }
    requires until { until ≤ length asked.now.tops.now }
    ensures narrows { Narrows (plain_tops (S.plain asked.now.source.now) asked.now.tops.now) asked.now.content.now asked.now.host until result }
    ensures fail { TableFails (plain_tops (S.plain asked.now.source.now) asked.now.tops.now) asked.now.content.now asked.now.host tables.now result table }
    ensures nodes { meter.new.nodes ≡ meter.old.nodes }
    ensures bytes { (owner : ℕ → ℕ) → OwnsLines tables.now owner (length asked.now.tops.now) 0
        → meter.new.bytes ≤ meter.old.bytes
        + table_bytes (length asked.now.content.now) (plain_tops (S.plain asked.now.source.now) asked.now.tops.now) owner table }
{
    let bytes = asked.content.bytes();
    let place = tables.places[table] as usize;
    if place >= bytes.len() {
        return until;
    }
    let slot = table * 256 + usize::from(bytes[place]);
    in_chain(&tables.nexts, tables.firsts[slot], asked, until, meter)
}

/// The first line before `until` that holds, of the one that is named and those that follow it, else `until`.
#[inline]
fn in_chain<S: MagicLines<L>, L: Drop>(
    nexts: &[u16],
    named: u16,
    asked: &LineSearch<'_, S, L>,
    until: usize,
    meter: &mut Meter,
) -> usize
    requires headed { AreLineHeads asked.now.heads.now (plain_tops (S.plain asked.now.source.now) asked.now.tops.now) }
    requires size { length nexts.now ≡ length asked.now.tops.now }
    requires until { until ≤ length asked.now.tops.now }
    ensures narrows { Narrows (plain_tops (S.plain asked.now.source.now) asked.now.tops.now) asked.now.content.now asked.now.host until result }
    ensures fail { ChainFails (plain_tops (S.plain asked.now.source.now) asked.now.tops.now) asked.now.content.now asked.now.host nexts.now named result }
    ensures nodes { meter.new.nodes ≡ meter.old.nodes }
    ensures bytes { (owner : ℕ → ℕ) (this : ℕ) → LeadsOwn nexts.now owner this named
        → meter.new.bytes ≤ meter.old.bytes
        + table_bytes (length asked.now.content.now) (plain_tops (S.plain asked.now.source.now) asked.now.tops.now) owner this }
{
    let (mut low, mut link) = (0, usize::from(named));
    while low < link && link <= until {
        meter.add_bytes(1);
        if line_holds(asked, link - 1, meter) {
            return link - 1;
        }
        low = link;
        link = usize::from(nexts[link - 1]);
    }
    until
}

/// The first line of the others, before `until`, that holds, else `until`.
fn among_others<S: MagicLines<L>, L: Drop>(
    others: &[usize],
    pairs: &[u16],
    asked: &LineSearch<'_, S, L>,
    until: usize,
    meter: &mut Meter,
) -> usize
    requires paired { ArePaired pairs.now others.now asked.now.heads.now }
    requires headed { AreLineHeads asked.now.heads.now (plain_tops (S.plain asked.now.source.now) asked.now.tops.now) }
    requires until { until ≤ length asked.now.tops.now }
    ensures narrows { Narrows (plain_tops (S.plain asked.now.source.now) asked.now.tops.now) asked.now.content.now asked.now.host until result }
    ensures fail { OthersFail (plain_tops (S.plain asked.now.source.now) asked.now.tops.now) asked.now.content.now asked.now.host others.now result 0 }
    ensures nodes { meter.new.nodes ≡ meter.old.nodes }
    ensures bytes { (owner : ℕ → ℕ) (this : ℕ) → OwnsOthers others.now owner this (length asked.now.tops.now)
        → meter.new.bytes ≤ meter.old.bytes
        + table_bytes (length asked.now.content.now) (plain_tops (S.plain asked.now.source.now) asked.now.tops.now) owner this }
{
    meter.add_bytes(others.len() as u64);
    let (mut first, mut at) = (until, others.len());
    while at > 0 {
        at -= 1;
        if other_holds(asked, pairs[at], others[at], first, meter) {
            first = others[at];
        }
    }
    first
}

/// Whether a line before `until` holds, of which a content has this pair near its front if it does.
#[inline(always)]
fn other_holds<S: MagicLines<L>, L: Drop>(
    asked: &LineSearch<'_, S, L>,
    pair: u16,
    line: usize,
    until: usize,
    meter: &mut Meter,
) -> bool
    requires headed { AreLineHeads asked.now.heads.now (plain_tops (S.plain asked.now.source.now) asked.now.tops.now) }
    requires paired { IsPairAt pair asked.now.heads.now line }
    requires until { until ≤ length asked.now.tops.now }
    ensures before { result ≡ true → line < until }
    ensures holds { result ≡ true → Holds (plain_tops (S.plain asked.now.source.now) asked.now.tops.now) asked.now.content.now asked.now.host line }
    ensures fails { result ≡ false → line < until → FailsLine (plain_tops (S.plain asked.now.source.now) asked.now.tops.now) asked.now.content.now asked.now.host line }
    ensures nodes { meter.new.nodes ≡ meter.old.nodes }
    ensures bytes { meter.new.bytes + 1
        ≤ meter.old.bytes + asked_bytes (length asked.now.content.now) (plain_tops (S.plain asked.now.source.now) asked.now.tops.now) line }
{
    if !asked.content.may_have(pair) {
        return false;
    }
    line < until && line_holds(asked, line, meter)
}
