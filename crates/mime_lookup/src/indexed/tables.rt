//! Lines of magic by the place and the byte that they look at first.
//!
//! Most lines have one place, and hold for no content in which another byte stands there than the first of their value.
//! So each such place has a table of the 256 bytes, which names the first line of each, and each of these lines names the
//! next. Only the lines of the bytes that stand in a content are asked of it, and all other lines by themselves. A line
//! is named by its number and one more, so that 0 names none.

ghost use Rattle.std.specs.Prelude.{◌≡◌, ℕ, [], ◌∷◌, ◌++◌, ◌+◌, ◌*◌, ◌<◌, ◌≤◌, length, slice_index, slice_set, IfOk, IfSome, OnOk};
ghost use Rattle.mime_lookup.specs.Tables.{AreTables, GrowTables, HaveLines, IsSlot, OwnsLines};

use crate::indexed::line_head::LineHead;
use mime_base::OutOfMemory;
use std::alloc::Global;

/// The most tables that are made: a table takes half a kilobyte.
const MOST: usize = 256;

/// Room is made for so many tables: real lines have some forty places.
const USUAL: usize = 64;

/// The number of a place's table is noted by the place's remainder: few real lines have places that share one.
const REMAINDERS: usize = 256;

/// The number of no table.
const NONE: usize = MOST;

/// Lines from this one on are asked by themselves.
const LAST: usize = 65_535;

/// Where lines are found by a place and a byte, and those that aren't.
#[derive(Drop)]
pub struct Tables {
    /// The place of each table.
    pub places: Vec<u32>,
    /// Of each table the first line of each byte: 256 numbers for each place.
    pub firsts: Vec<u16>,
    /// Of each line the next one of its place and byte.
    pub nexts: Vec<u16>,
    /// The lines that are asked by themselves, the last first.
    pub others: Vec<usize>,
}

/// The tables of lines with these heads.
pub fn tables_of(alloc: Global, heads: &[LineHead]) -> Result<Tables, OutOfMemory>
    // Each line is found by its place and its byte, or is asked by itself.
    ensures found { IfOk result (λ tables. AreTables tables heads.now 0) }
    // None is in two tables, nor in one and asked by itself.
    ensures owned { IfOk result (λ tables. (owner : ℕ → ℕ) × OwnsLines tables owner (length heads.now) 0) }
{
    let room = heads.len().min(USUAL);
    let mut tables = Tables {
        places: Vec::with_capacity(alloc, room)?,
        firsts: Vec::with_capacity(alloc, room * 256)?,
        nexts: vec![in alloc; 0; heads.len()]?,
        others: Vec::new(alloc),
    };
    let mut noted = [NONE as u16; REMAINDERS];
    let mut line = heads.len();
    while line > 0 {
        line -= 1;
        put(&mut tables, &mut noted, heads, line)?;
    }
    Ok(tables)
}

/// Puts a line into its table, before the lines after it, which are put already, or to the others.
#[inline]
fn put(
    tables: &mut Tables,
    noted: &mut [u16; REMAINDERS],
    heads: &[LineHead],
    line: usize,
) -> Result<(), OutOfMemory>
    requires inside { line < length heads.now }
    requires had { HaveLines tables.old heads.now (line + 1) }
    ensures has { OnOk result (HaveLines tables.new heads.now line) }
{
    match slot_of(tables, noted, &heads[line], line)? {
        Some(slot) => link(&mut tables.firsts, &mut tables.nexts, slot, line),
        None => tables.others.push(line)?,
    }
    Ok(())
}

/// Where in the tables the first line of the place and the byte of a line is named, if the line has a table.
#[inline]
fn slot_of(
    tables: &mut Tables,
    noted: &mut [u16; REMAINDERS],
    head: &LineHead,
    line: usize,
) -> Result<Option<usize>, OutOfMemory>
    requires most { length tables.old.places.items ≤ 256 }
    requires slots { length tables.old.firsts.items ≡ length tables.old.places.items * 256 }
    ensures grow { OnOk result (GrowTables tables.old tables.new) }
    ensures slot { IfOk result (λ found. IfSome found (λ slot. IsSlot tables.new.places.items slot head.now)) }
    ensures inside { IfOk result (λ found. IfSome found (λ slot. slot < length tables.new.places.items * 256)) }
    ensures number { IfOk result (λ found. IfSome found (λ slot. line < 65535)) }
{
    if head.range != 1 || head.size == 0 || line >= LAST {
        return Ok(None);
    }
    let last = usize::from(noted[head.start as usize % REMAINDERS]);
    if last < tables.places.len() && tables.places[last] == head.start {
        return Ok(Some(slot_in(last, head.first)));
    }
    let table = other_table(tables, noted, head.start)?;
    if table == tables.places.len() {
        return Ok(None);
    }
    Ok(Some(slot_in(table, head.first)))
}

/// The slot of a byte in a table.
#[inline(always)]
fn slot_in(table: usize, byte: u8) -> usize
    requires { table < 256 }
    ensures { result ≡ table * 256 + byte }
{
    table * 256 + usize::from(byte)
}

/// The number of the table of a place, of whose remainder none is noted, or another place's: a new one if it has none and there are
/// few; else the number of tables.
// Not inlined: it would take the registers of the loop that most lines go through without it.
#[inline(never)]
fn other_table(
    tables: &mut Tables,
    noted: &mut [u16; REMAINDERS],
    place: u32,
) -> Result<usize, OutOfMemory>
    requires most { length tables.old.places.items ≤ 256 }
    requires slots { length tables.old.firsts.items ≡ length tables.old.places.items * 256 }
    ensures grow { OnOk result (GrowTables tables.old tables.new) }
    ensures within { IfOk result (λ table. table ≤ length tables.new.places.items) }
    ensures place { IfOk result (λ table. table < length tables.new.places.items
        → slice_index tables.new.places.items table ≡ place) }
{
    let remainder = place as usize % REMAINDERS;
    let table = table_at(&tables.places, usize::from(noted[remainder]), place);
    if table == MOST {
        return Ok(table);
    }
    noted[remainder] = table as u16;
    if table == tables.places.len() {
        add_table(tables, place)?;
    }
    Ok(table)
}

/// The number of the table of a place, else the number of tables; `last` is the one noted of its remainder.
fn table_at(places: &[u32], last: usize, place: u32) -> usize
    ensures within { result ≤ length places.now }
    ensures place { result < length places.now → slice_index places.now result ≡ place }
{
    // Then no place of this remainder has a table.
    if last == NONE {
        return places.len();
    }
    for table in 0..places.len() {
        if places[table] == place {
            return table;
        }
    }
    places.len()
}

/// Adds a table of a place, which names no line.
fn add_table(tables: &mut Tables, place: u32) -> Result<(), OutOfMemory>
    requires most { length tables.old.places.items < 256 }
    requires slots { length tables.old.firsts.items ≡ length tables.old.places.items * 256 }
    ensures grow { OnOk result (GrowTables tables.old tables.new) }
    ensures places { OnOk result (tables.new.places.items ≡ tables.old.places.items ++ place ∷ []) }
{
    tables.places.push(place)?;
    tables.firsts.resize(tables.places.len() * 256, 0)?;
    Ok(())
}

/// Puts a line before the first one of its slot.
#[inline]
fn link(firsts: &mut Vec<u16>, nexts: &mut Vec<u16>, slot: usize, line: usize)
    requires slot { slot < length firsts.old.items }
    requires line { line < length nexts.old.items }
    requires number { line < 65535 }
    ensures nexts { nexts.new.items ≡ slice_set nexts.old.items line (slice_index firsts.old.items slot) }
    ensures firsts { firsts.new.items ≡ slice_set firsts.old.items slot (line + 1) }
{
    nexts[line] = firsts[slot];
    firsts[slot] = (line + 1) as u16;
}
