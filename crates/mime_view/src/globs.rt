//! The glob list: the rules that stand in neither the literal list nor the suffix tree ("The mime.cache
//! files").

ghost use Rattle.std.specs.Prelude.{◌≡◌, ◌==◌, ◌+◌, ◌*◌, ◌/◌, ◌%◌, ◌<◌, ◌≤◌, [], ◌∷◌, length, OnOk};
ghost use Rattle.mime_base.specs.Format.Rules.{GlobsAt};
ghost use Rattle.mime_base.specs.Format.Stored.{glob_rules};
ghost use Rattle.mime_base.specs.Kept.{FitsRank, hits as matching, rank};
ghost use Rattle.mime_base.specs.Kept.Classes.{class_of};
ghost use Rattle.mime_base.specs.declared.database.rule.GlobRule.{GlobRule};
ghost use Rattle.mime_view.specs.Lists.{LiesList};
ghost use Rattle.mime_view.specs.Globs.{ReadsGlob};
ghost use Rattle.mime_view.specs.Hits.{glob_list_hits};
ghost use Rattle.mime_view.specs.Steps.{FindsAt, FindsRules, Searches, entry_part, list_part, progress_of};

use crate::fault::CacheFault;
use crate::flags::weight_and_case;
use crate::hits::Hits;
use crate::list::count_at;
use crate::query::{Progress, Query};
use crate::spending::Spending;
use mime_base::{begins_otherwise, class_of_bytes, glob_matches, rank_of};

/// Offers the rules of the glob list at `at` that match the name.
// Never inlined: its loop needs registers of its own.
#[inline(never)]
pub fn glob_list_hits(
    query: &Query<'_, '_>,
    at: u32,
    progress: &mut Progress,
) -> Result<(), CacheFault>
    // Of the rules that stand in the list, it offers those that match.
    ensures finds { FindsAt query.now GlobsAt at (glob_list_hits query.now.key.now)
        (λ rules. length (glob_rules rules)) progress.old progress.new result }
    // For an answer the list lies in the cache.
    ensures inside { OnOk result (LiesList query.now.counted.now at 12) }
    // An entry costs its text and the tests of that against the name; the count of the list comes besides.
    ensures searches { Searches (list_part query.now.counted.now at) (256 * (length query.now.key.now + 2)) 1
        progress.old progress.new result }
{
    let at = u64::from(at);
    let count = count_at(query.counted, at, 12, &mut progress.spending.meter)?;
    let first = at + 4;
    // Copies, which stay in registers from entry to entry.
    let asked = *query;
    let mut spending = progress.spending;
    for i in 0..count {
        let at = first + 12 * i;
        match take_glob(&asked, at, &mut progress.hits, &mut spending) {
            Ok(()) => {}
            Err(fault) => {
                progress.spending = spending;
                return Err(fault);
            }
        }
    }
    progress.spending = spending;
    Ok(())
}

/// Offers the rule of the entry at `at` if it matches the name.
///
/// It takes a record of the budget. A pattern that begins otherwise than the name is refused by that one test. Any other isn't tried
/// where a hit of its rank would not be kept.
// Always inlined: the body of a loop.
#[inline(always)]
fn take_glob(
    query: &Query<'_, '_>,
    at: u64,
    hits: &mut Hits,
    spending: &mut Spending,
) -> Result<(), CacheFault>
    // The entry lies in the cache.
    requires inside { at + 12 ≤ length query.now.counted.now }
    // Its rule is offered if it matches.
    ensures finds { (rule : GlobRule) → ReadsGlob query.now.counted.now at rule →
        FindsRules query.now.counted.now (FitsRank rule) (matching (rule ∷ []) query.now.key.now) 1
        (progress_of hits.old spending.old) (progress_of hits.new spending.new) result }
    // It costs its text and the tests of that against the name.
    ensures searches { Searches (entry_part query.now.counted.now at) (256 * (length query.now.key.now + 2)) 0
        (progress_of hits.old spending.old) (progress_of hits.new spending.new) result }
{
    spending.budget.take_record()?;
    let [text, kind, flags] = query.counted.cards_within::<3>(at, &mut spending.meter);
    let pattern = query.counted.text_at(u64::from(text), &mut spending.meter)?;
    let (_, cased) = weight_and_case(flags);
    // Where a hit of the least rank is wanted, one of any rank is: then the class isn't judged before the match.
    if !hits.wants(0) {
        if begins_otherwise(pattern, cased, query.key) {
            spending.meter.add_bytes(1);
            return Ok(());
        }
        if !hits.wants(rank_of_entry(pattern, flags)) {
            return Ok(());
        }
    }
    if glob_matches(pattern, cased, query.key, &mut spending.meter) {
        hits.offer(rank_of_entry(pattern, flags), kind)?;
    }
    Ok(())
}

/// The rank of a rule of the glob list with this pattern, weight and flag.
// Called at two places of a loop.
#[inline]
fn rank_of_entry(pattern: &[u8], flags: u32) -> u32
    // The pattern's length has 16 bits.
    requires short { length pattern.now < 65536 }
    // Its class, weight, length and flag, in this order.
    ensures { result ≡ rank (class_of pattern.now) (flags % 256) (length pattern.now) (flags / 256 % 2 == 1) }
{
    let (weight, cased) = weight_and_case(flags);
    rank_of(class_of_bytes(pattern), weight, pattern.len() as u16, cased)
}
