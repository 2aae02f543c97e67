//! The magic list: sections, and lines with their children ("The mime.cache files").
//!
//! A section holds if one of its lines does. A line holds if it equals its value at an offset of its range and, where it
//! has children, one of them holds. The first section that holds gives the type.
//!
//! Nothing that a record states is trusted: a line may be its own child, and sections may share their lines. So each
//! section and each line takes a record of the budget before it is read, and a line as many value bytes as it states
//! before it compares them: the budget bounds the work. That a walk ends is due to the level, which rises from parent to
//! child and is at most the 64th.
//!
//! Most lines differ in their first byte already. So the loop over the lines of a section is part of the loop over sections, in
//! one piece of code that skips them, with the meter and the budget in registers; a line that may equal its value is
//! looked at by a call of its own, with a copy of both.

ghost use Rattle.std.specs.Prelude.{◌≡◌, ℕ, ◌+◌, ◌-◌, ◌*◌, ◌^◌, ◌<◌, ◌≤◌, List, [], ◌∷◌, length, true, false, Ok, IfErr, IfOk, OnOk};
ghost use Rattle.mime_base.specs.Magic.{PlainLine, PlainSection};
ghost use Rattle.mime_view.specs.Asked.{AsksLines, IsLineAmong, IsLineBelow, IsSectionLine};
ghost use Rattle.mime_view.specs.Magic.{AnswersLine, AnswersLineAt, AnswersLinesAt, AnswersMagicAt, AnswersSections, Ends, EqualsAt};
ghost use Rattle.mime_view.specs.Magic.{IsBlockFault, IsLineFault, IsLinesFault, IsMagicFault, IsMagicLine, IsSectionFault, IsSeenFault};
ghost use Rattle.mime_view.specs.Magic.{LiesBlock, LiesMagic, NamesChildren, NamesText, ReadsLine, ReadsSection, line_price, magic_price};
ghost use Rattle.mime_view.specs.Spending.{Spends};
ghost use Rattle.mime_view.specs.Walked.{DiffersAt, WalksLine, WalksLines, WalksMagic, WalksOne};

use crate::fault::CacheFault;
use crate::spending::Spending;
use mime_base::{Counted, Host, NotedContent, StatedValue};

/// The last level on which a line stands, counted from 0.
const LAST_LEVEL: u32 = 63;

/// What sections and lines are asked: whether they hold for a content.
#[derive(Drop)]
pub struct MagicQuery<'q, 'a> {
    /// The bytes of the cache.
    pub counted: &'q Counted<'a>,
    /// The content.
    pub content: NotedContent<'q>,
    /// Its order of bytes is that of words.
    pub host: Host,
}

/// The type and the priority of the first section with a top line that holds, by the magic list at `at`.
// In code of its own, so that its loops have the registers, whatever the caller keeps in some.
#[inline(never)]
pub fn sniff<'a>(
    query: &MagicQuery<'_, 'a>,
    at: u32,
    spending: &mut Spending,
) -> Result<Option<(&'a [u8], u32)>, CacheFault>
    // Where a list stands, it answers of its sections.
    ensures sections { AnswersMagicAt query.now at spending.old spending.new result }
    // For an answer the list lies in the cache.
    ensures inside { OnOk result (LiesMagic query.now.counted.now at) }
    // A type that is given is a text of the cache.
    ensures text { IfOk result (NamesText query.now.counted.now) }
    // On any bytes it answers by the records: of the first section that holds, and none before it does.
    ensures walked { IfOk result (WalksMagic query.now.counted.now query.now.content query.now.host at) }
    // On any bytes: why there is no answer, and what the call costs.
    ensures ends { Ends (IsMagicFault query.now.counted.now at query.now.content query.now.host)
        (magic_price (length query.now.content)) 1 spending.old spending.new result }
    // It took just the value bytes stated by the lines that it asked.
    ensures asked { AsksLines query.now.counted.now (IsMagicLine query.now.counted.now at) spending.old.budget spending.new.budget }
{
    let mut own = *spending;
    let result = sniff_sections(query, at, &mut own);
    *spending = own;
    result
}

/// The same over a meter and a budget of the caller's own, which stay in registers from line to line.
#[inline(always)]
#[tactic(auto, using(crate::proofs::MagicLemmas::LinesAsked::asks_section))]
fn sniff_sections<'a>(
    query: &MagicQuery<'_, 'a>,
    at: u32,
    spending: &mut Spending,
) -> Result<Option<(&'a [u8], u32)>, CacheFault>
    // Where a list stands, it answers of its sections.
    ensures sections { AnswersMagicAt query.now at spending.old spending.new result }
    // For an answer the list lies in the cache.
    ensures inside { OnOk result (LiesMagic query.now.counted.now at) }
    // A type that is given is a text of the cache.
    ensures text { IfOk result (NamesText query.now.counted.now) }
    // On any bytes it answers by the records: of the first section that holds, and none before it does.
    ensures walked { IfOk result (WalksMagic query.now.counted.now query.now.content query.now.host at) }
    // On any bytes: why there is no answer, and what the call costs.
    ensures ends { Ends (IsMagicFault query.now.counted.now at query.now.content query.now.host)
        (magic_price (length query.now.content)) 1 spending.old spending.new result }
    // It took just the value bytes stated by the lines that it asked.
    ensures asked { AsksLines query.now.counted.now (IsMagicLine query.now.counted.now at) spending.old.budget spending.new.budget }
{
    let counted = query.counted;
    let [count, _, first] = counted.cards::<3>(u64::from(at), &mut spending.meter)?;
    let first = u64::from(first);
    let count = u64::from(count);
    check_block(counted, first, 16, count)?;
    for i in 0..count {
        match take_section(query, first + 16 * i, spending)? {
            Some(found) => return Ok(Some(found)),
            None => {}
        }
    }
    Ok(None)
}

/// The type and the priority of the section at `at`, if one of its lines holds.
// Part of the loop over sections.
#[inline(always)]
#[tactic(auto, using(crate::proofs::MagicLemmas::LinesAsked::asks_of_section))]
fn take_section<'a>(
    query: &MagicQuery<'_, 'a>,
    at: u64,
    spending: &mut Spending,
) -> Result<Option<(&'a [u8], u32)>, CacheFault>
    requires inside { at + 16 ≤ length query.now.counted.now }
    // A section that stands answers as a list of it alone does.
    ensures section { (section : PlainSection) → ReadsSection query.now.counted.now at section →
        AnswersSections query.now (section ∷ []) spending.old spending.new result }
    // A type that is given is a text of the cache.
    ensures text { IfOk result (NamesText query.now.counted.now) }
    // On any bytes it answers by the records of its lines.
    ensures walked { IfOk result (WalksOne query.now.counted.now query.now.content query.now.host at) }
    // On any bytes: why there is no answer, and what the step costs.
    ensures ends { Ends (IsSectionFault query.now.counted.now at query.now.content query.now.host)
        (magic_price (length query.now.content)) 0 spending.old spending.new result }
    // It took just the value bytes stated by the lines that it asked.
    ensures asked { AsksLines query.now.counted.now (IsSectionLine query.now.counted.now at) spending.old.budget spending.new.budget }
{
    spending.budget.take_record()?;
    let counted = query.counted;
    let [priority, kind, count, first] = counted.cards_within::<4>(at, &mut spending.meter);
    check_block(counted, u64::from(first), 32, u64::from(count))?;
    if !some_line_holds(query, first, count, 0, spending)? {
        return Ok(None);
    }
    let mut meter = spending.meter;
    let found = counted.text_at(u64::from(kind), &mut meter);
    spending.meter = meter;
    let text = found?;
    Ok(Some((text, priority)))
}

/// Refuses records that don't lie in the cache. No records lie anywhere.
// A test or two of numbers that the caller has at hand.
#[inline]
pub fn check_block(
    counted: &Counted<'_>,
    first: u64,
    size: u64,
    count: u64,
) -> Result<(), CacheFault>
    // The first record's offset is a number of 32 bits.
    requires first { first < 2 ^ 32 }
    // So is how many there are.
    requires count { count < 2 ^ 32 }
    // Each has at most 32 bytes, so that no sum overflows.
    requires size { size ≤ 32 }
    // What passes lies in the cache.
    ensures lies { OnOk result (LiesBlock counted.now first size count) }
    // What is refused doesn't.
    ensures fault { IfErr result (IsBlockFault counted.now first size count) }
{
    if count > 0 && counted.length() < first + size * count {
        return Err(CacheFault::OutOfRange(first));
    }
    Ok(())
}

/// Whether one of the `count` lines from `first` on holds, with its children.
// Part of the loop over sections.
#[cycle(sniffing)]
#[inline(always)]
#[tactic(auto, using(crate::proofs::MagicLemmas::LinesAsked::asks_next))]
fn some_line_holds(
    query: &MagicQuery<'_, '_>,
    first: u32,
    count: u32,
    level: u32,
    spending: &mut Spending,
) -> Result<bool, CacheFault>
    requires level { level ≤ 63 }
    requires block { LiesBlock query.now.counted.now first 32 count }
    // Lines that stand answer whether one holds.
    ensures lines { AnswersLinesAt query.now first count level spending.old spending.new result }
    // On any bytes one holds where its records say so.
    ensures walked { IfOk result (WalksLines (63 - level) query.now.counted.now query.now.content query.now.host first count) }
    // On any bytes: why there is no answer, and what the step costs.
    ensures ends { Ends (IsLinesFault query.now.counted.now first count level query.now.content query.now.host)
        (line_price query.now) 0 spending.old spending.new result }
    // It took just the value bytes stated by the lines that it asked.
    ensures asked { AsksLines query.now.counted.now (IsLineAmong query.now.counted.now first count level)
        spending.old.budget spending.new.budget }
{
    let start = u64::from(first);
    for i in 0..u64::from(count) {
        if line_holds(query, start + 32 * i, level, spending)? {
            return Ok(true);
        }
    }
    Ok(false)
}

/// Whether the line at `at` holds, with its children.
// The body of the loop over lines.
#[cycle(sniffing)]
#[inline(always)]
#[tactic(auto, using(crate::proofs::MagicLemmas::LinesAsked::asks_own))]
fn line_holds(
    query: &MagicQuery<'_, '_>,
    at: u64,
    level: u32,
    spending: &mut Spending,
) -> Result<bool, CacheFault>
    requires level { level ≤ 63 }
    requires inside { at + 32 ≤ length query.now.counted.now }
    // A line that stands with its children answers as a forest of it alone does.
    ensures line { AnswersLineAt query.now at level spending.old spending.new result }
    // On any bytes it holds where its records say so.
    ensures walked { IfOk result (WalksLine (63 - level) query.now.counted.now query.now.content query.now.host at) }
    // On any bytes: why there is no answer, and what the step costs.
    ensures ends { Ends (IsLineFault query.now.counted.now at level query.now.content query.now.host)
        (line_price query.now) 0 spending.old spending.new result }
    // It took just the value bytes stated by the lines that it asked.
    ensures asked { AsksLines query.now.counted.now (IsLineBelow query.now.counted.now at level) spending.old.budget spending.new.budget }
{
    if differs_at_once(query, at, spending) {
        return Ok(false);
    }
    holds_apart(query, at, level, spending)
}

/// Whether already the first byte of each window of a line differs, and as much is left as the line takes: most go no further.
// The part of the loop over lines that most of them are done with.
#[inline(always)]
fn differs_at_once(query: &MagicQuery<'_, '_>, at: u64, spending: &mut Spending) -> bool
    requires inside { at + 32 ≤ length query.now.counted.now }
    // A line that differs is taken, and doesn't hold.
    ensures line { result ≡ true → (own : PlainLine) → ReadsLine query.now.counted.now at own →
        AnswersLine query.now own spending.old spending.new (Ok (record { equals = false; count = 0; first = 0 })) }
    // On any bytes a line that is said to differ does.
    ensures differs { result ≡ true → DiffersAt query.now.counted.now query.now.content query.now.host at }
    // On any bytes: what it costs.
    ensures cost { result ≡ true → Spends (line_price query.now) 0 0 spending.old spending.new }
    // Of any other line nothing is taken.
    ensures untouched { result ≡ false → spending.new ≡ spending.old }
    // The line that differs was asked.
    ensures asked { result ≡ true → AsksLines query.now.counted.now (λ r. r ≡ at) spending.old.budget spending.new.budget }
{
    let mut after = *spending;
    let Ok(()) = after.budget.take_record() else {
        return false;
    };
    let [start, range, word, size, at, mask_at, _, _] = query
        .counted
        .cards_within::<8>(at, &mut after.meter);
    let Ok(()) = after.budget.take_value_bytes(u64::from(size)) else {
        return false;
    };
    let differs = query.counted.differs_at_once(
        StatedValue {
            at,
            mask_at,
            size,
            word,
        },
        start,
        range,
        &query.content,
        &mut after.meter,
    );
    if differs {
        *spending = after;
    }
    differs
}

/// Whether a line holds that may equal its value.
// It hands a copy of the meter and the budget to the call, so that the loop may keep its own in registers.
#[cycle(sniffing)]
#[inline(always)]
fn holds_apart(
    query: &MagicQuery<'_, '_>,
    at: u64,
    level: u32,
    spending: &mut Spending,
) -> Result<bool, CacheFault>
    requires level { level ≤ 63 }
    requires inside { at + 32 ≤ length query.now.counted.now }
    // A line that stands with its children answers as a forest of it alone does.
    ensures line { AnswersLineAt query.now at level spending.old spending.new result }
    // On any bytes it holds where its records say so.
    ensures walked { IfOk result (WalksLine (63 - level) query.now.counted.now query.now.content query.now.host at) }
    // On any bytes: why there is no answer, and what the step costs.
    ensures ends { Ends (IsLineFault query.now.counted.now at level query.now.content query.now.host)
        (line_price query.now) 0 spending.old spending.new result }
    // It took just the value bytes stated by the lines that it asked.
    ensures asked { AsksLines query.now.counted.now (IsLineBelow query.now.counted.now at level) spending.old.budget spending.new.budget }
{
    let mut apart = *spending;
    let result = whole_line_holds(query, at, level, &mut apart);
    *spending = apart;
    result
}

/// The same: its value is compared, and its children are asked.
#[cycle(sniffing)]
#[inline(never)]
#[tactic(auto, using(crate::proofs::MagicLemmas::LinesAsked::asks_own))]
fn whole_line_holds(
    query: &MagicQuery<'_, '_>,
    at: u64,
    level: u32,
    spending: &mut Spending,
) -> Result<bool, CacheFault>
    requires level { level ≤ 63 }
    requires inside { at + 32 ≤ length query.now.counted.now }
    // A line that stands with its children answers as a forest of it alone does.
    ensures line { AnswersLineAt query.now at level spending.old spending.new result }
    // On any bytes it holds where its records say so.
    ensures walked { IfOk result (WalksLine (63 - level) query.now.counted.now query.now.content query.now.host at) }
    // On any bytes: why there is no answer, and what the step costs.
    ensures ends { Ends (IsLineFault query.now.counted.now at level query.now.content query.now.host)
        (line_price query.now) 0 spending.old spending.new result }
    // It took just the value bytes stated by the lines that it asked.
    ensures asked { AsksLines query.now.counted.now (IsLineBelow query.now.counted.now at level) spending.old.budget spending.new.budget }
{
    let Seen {
        equals,
        count,
        first,
    } = see_line(query, at, spending)?;
    if !equals {
        return Ok(false);
    }
    if count == 0 {
        return Ok(true);
    }
    if level == LAST_LEVEL {
        return Err(CacheFault::TooDeep);
    }
    check_block(query.counted, u64::from(first), 32, u64::from(count))?;
    some_child_holds(query, first, count, level + 1, spending)
}

/// Whether a line by itself holds, and where its children stand.
#[derive(Clone, Copy)]
struct Seen {
    equals: bool,
    count: u32,
    first: u32,
}

/// Takes the record and the value of the line at `at`, and compares the value.
#[inline(always)]
fn see_line(
    query: &MagicQuery<'_, '_>,
    at: u64,
    spending: &mut Spending,
) -> Result<Seen, CacheFault>
    requires inside { at + 32 ≤ length query.now.counted.now }
    // What is given names the line's children.
    ensures children { IfOk result (NamesChildren query.now.counted.now at) }
    // On any bytes a line that is said to hold by itself does.
    ensures equals { IfOk result (λ seen. seen.equals ≡ true
        → EqualsAt query.now.counted.now at query.now.content query.now.host) }
    // One that is said to differ differs.
    ensures differs { IfOk result (λ seen. seen.equals ≡ false
        → DiffersAt query.now.counted.now query.now.content query.now.host at) }
    // A line that stands answers whether it holds by itself.
    ensures line { (own : PlainLine) → ReadsLine query.now.counted.now at own →
        AnswersLine query.now own spending.old spending.new result }
    // On any bytes: why there is no answer, and what the step costs.
    ensures ends { Ends (IsSeenFault query.now.counted.now at) (line_price query.now) 0 spending.old spending.new result }
    // It took the value bytes that the line states if it asked it, else none.
    ensures asked { AsksLines query.now.counted.now (λ r. r ≡ at) spending.old.budget spending.new.budget }
{
    spending.budget.take_record()?;
    let counted = query.counted;
    let [start, range, word, size, at, mask_at, count, first] = counted.cards_within::<8>(
        at,
        &mut spending.meter,
    );
    spending.budget.take_value_bytes(u64::from(size))?;
    let value = StatedValue {
        at,
        mask_at,
        size,
        word,
    };
    let equals = counted.value_in_range(
        value,
        start,
        range,
        query.content.bytes(),
        query.host,
        &mut spending.meter,
    )?;
    Ok(Seen {
        equals,
        count,
        first,
    })
}

/// Whether one of the `count` children from `first` on holds.
// In code of its own: few lines have children.
#[cycle(sniffing)]
#[inline(never)]
fn some_child_holds(
    query: &MagicQuery<'_, '_>,
    first: u32,
    count: u32,
    level: u32,
    spending: &mut Spending,
) -> Result<bool, CacheFault>
    requires level { level ≤ 63 }
    requires block { LiesBlock query.now.counted.now first 32 count }
    // Children that stand answer whether one holds.
    ensures lines { AnswersLinesAt query.now first count level spending.old spending.new result }
    // On any bytes one holds where its records say so.
    ensures walked { IfOk result (WalksLines (63 - level) query.now.counted.now query.now.content query.now.host first count) }
    // On any bytes: why there is no answer, and what the step costs.
    ensures ends { Ends (IsLinesFault query.now.counted.now first count level query.now.content query.now.host)
        (line_price query.now) 0 spending.old spending.new result }
    // It took just the value bytes stated by the lines that it asked.
    ensures asked { AsksLines query.now.counted.now (IsLineAmong query.now.counted.now first count level)
        spending.old.budget spending.new.budget }
{
    some_line_holds(query, first, count, level, spending)
}
