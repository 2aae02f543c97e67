//! The literal list: the rules whose patterns have no special byte, sorted by their stored texts ("The
//! mime.cache files").
//!
//! A text is sought by halving, with at most 26 comparisons, and its entries are scanned from the first up to and
//! including the first of another text. The format sorts the list for this. A table by hash would have to be made for
//! each cache that is opened, mostly for a single name. Over a list that is not sorted a search costs no more, and
//! nothing is said of what it finds.

ghost use Rattle.std.specs.Prelude.{◌≡◌, ℕ, ◌+◌, ◌*◌, ◌<◌, ◌≤◌, List, [], ◌∷◌, length, filter};
ghost use Rattle.std.specs.Prelude.{Ok, OnOk, IfOk, IfErr, All, bytes_eq};
ghost use Rattle.mime_base.specs.Cache.Texts.{text_at};
ghost use Rattle.mime_base.specs.Format.Rules.{LiteralsAt};
ghost use Rattle.mime_base.specs.Format.Stored.{stored_text, weight_and_flags};
ghost use Rattle.mime_base.specs.declared.database.rule.GlobRule.{GlobRule};
ghost use Rattle.mime_view.specs.Lists.{LiesList};
ghost use Rattle.mime_view.specs.Gathered.{Offers, TakesHit};
ghost use Rattle.mime_view.specs.Hits.{takes_rule, literal_hits, literal_visits, visits};
ghost use Rattle.mime_view.specs.Literals.{AreRun, IsLiteral, ReadsRule, ReadsRules, run_visits, taken};
ghost use Rattle.mime_view.specs.Steps.{FindsAt, FindsRules, Searches, entries_part, entry_part, list_part, no_part};

use crate::fault::CacheFault;
use crate::flags::weight_and_case;
use crate::hits::{Case, Hits};
use crate::list::count_at;
use crate::query::{Progress, Query};
use crate::search::seek;
use mime_base::{Class, rank_of};
use std::cmp::Ordering;

/// Offers the rules of the literal list at `at` whose stored text is the key, if the case takes them.
///
/// Where the search met no such text, the entry at which it ended takes the records of a visit, as one that ends a
/// scan does, and isn't read again.
// Always inlined: where the case is known, so is how many records a visit takes.
#[inline(always)]
pub fn literal_hits(
    query: &Query<'_, '_>,
    at: u32,
    progress: &mut Progress,
) -> Result<(), CacheFault>
    // Of the rules that stand in the list, it offers those of the key that the case takes.
    ensures finds { FindsAt query.now LiteralsAt at (literal_hits query.now.case query.now.key.now)
        (λ rules. visits query.now.case * literal_visits query.now.key.now rules) progress.old progress.new result }
    // For an answer the list lies in the cache.
    ensures inside { OnOk result (LiesList query.now.counted.now at 12) }
    // An entry costs its text; the halving comes besides.
    ensures searches { Searches (list_part query.now.counted.now at) 256 28 progress.old progress.new result }
{
    let at = u64::from(at);
    let count = count_at(query.counted, at, 12, &mut progress.spending.meter)?;
    let first = at + 4;
    let mut counts = progress.spending.meter;
    let sought = seek(query.counted, first, count, 12, query.key, &mut counts);
    progress.spending.meter = counts;
    let sought = sought?;
    if sought.equal {
        return scan_entries(query, first, sought.place, count, progress);
    }
    if sought.place < count {
        pass_entry(query, progress)?;
    }
    Ok(())
}

/// Takes the records of a visit, and counts it, for an entry that the search has read: it is of another text.
// Always inlined: two sums.
#[inline(always)]
fn pass_entry(query: &Query<'_, '_>, progress: &mut Progress) -> Result<(), CacheFault>
    // It offers nothing.
    ensures finds { FindsRules query.now.counted.now (Unit {0}) [] (visits query.now.case) progress.old progress.new result }
    // It costs the visit, and reads nothing that could be at fault.
    ensures searches { Searches no_part 256 0 progress.old progress.new result }
{
    query.case.take_records(&mut progress.spending)?;
    progress.spending.meter.add_node();
    Ok(())
}

/// Offers the entries from the place `start` on, of `count` from `first` on, until one is of another text.
// Always inlined, as its caller is.
#[inline(always)]
fn scan_entries(
    query: &Query<'_, '_>,
    first: u64,
    start: u64,
    count: u64,
    progress: &mut Progress,
) -> Result<(), CacheFault>
    // The entries lie in the cache.
    requires fits { first + 12 * count ≤ length query.now.counted.now }
    // Of a run of rules it offers those of the key that the case takes.
    ensures finds { (rules : List GlobRule) → length rules + start ≡ count →
        ReadsRules query.now.counted.now (first + 12 * start) rules → AreRun query.now.key.now rules →
        FindsRules query.now.counted.now (All IsLiteral rules) (taken query.now.case query.now.key.now rules)
        (visits query.now.case * run_visits query.now.key.now rules) progress.old progress.new result }
    // An entry costs its text.
    ensures searches { Searches (entries_part query.now.counted.now first count) 256 0 progress.old progress.new result }
{
    for i in start..count {
        if !visit_entry(query, first + 12 * i, progress)? {
            return Ok(());
        }
    }
    Ok(())
}

/// Visits the entry at `at`, and offers it if it is of the key and the case takes it. Whether it is of
/// the key.
// Always inlined: the body of a loop.
#[inline(always)]
fn visit_entry(query: &Query<'_, '_>, at: u64, progress: &mut Progress) -> Result<bool, CacheFault>
    // The entry lies in the cache.
    requires inside { at + 12 ≤ length query.now.counted.now }
    // Whether its text is the key.
    ensures same { (rule : GlobRule) → ReadsRule query.now.counted.now at rule →
        IfOk result (λ same. same ≡ bytes_eq (stored_text rule) query.now.key.now) }
    // Its rule is offered if it is of the key and the case takes it.
    ensures finds { (rule : GlobRule) → ReadsRule query.now.counted.now at rule →
        FindsRules query.now.counted.now (IsLiteral rule) (taken query.now.case query.now.key.now (rule ∷ []))
        (visits query.now.case) progress.old progress.new result }
    // It costs its text.
    ensures searches { Searches (entry_part query.now.counted.now at) 256 0 progress.old progress.new result }
{
    query.case.take_records(&mut progress.spending)?;
    let [text, kind, flags] = query
        .counted
        .cards_within::<3>(at, &mut progress.spending.meter);
    match query
        .counted
        .compare_text(u64::from(text), query.key, &mut progress.spending.meter)?
    {
        Ordering::Equal => {
            let size = query.key.len() as u16;
            offer_entry(query.case, size, kind, flags, &mut progress.hits)?;
            Ok(true)
        }
        _ => Ok(false),
    }
}

/// Offers a rule of the literal list with this weight and flag, if the case takes it.
// Always inlined: a test, and then a call.
#[inline(always)]
fn offer_entry(
    case: Case,
    size: u16,
    kind: u32,
    flags: u32,
    hits: &mut Hits,
) -> Result<(), CacheFault>
    // A literal rule with these numbers is offered if the case takes it.
    ensures answer { (c : List ℕ) (rule : GlobRule) → IsLiteral rule → length rule.pattern ≡ size →
        flags ≡ weight_and_flags rule → text_at c kind ≡ Ok rule.kind →
        OnOk result (Offers c (filter (λ rule. takes_rule case rule.cased) (rule ∷ [])) hits.old hits.new) }
    // What is asked for stays.
    ensures asked { hits.new.which ≡ hits.old.which }
    // At most one hit is added, and it is this one.
    ensures takes { TakesHit kind hits.old.offers hits.new.offers }
    // Only memory can be short.
    ensures fault { IfErr result (λ e. e ≡ CacheFault.OutOfMemory) }
{
    let (weight, cased) = weight_and_case(flags);
    if !case.takes_rule(cased) {
        return Ok(());
    }
    hits.offer(rank_of(Class::Literal, weight, size, cased), kind)
}
