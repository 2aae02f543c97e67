//! The rules that match a name, over a cache that is opened once for many names ("Recommended checking order").

ghost use Rattle.std.specs.Prelude.{◌≤◌, All, List, length, IfErr, IfOk};
ghost use Rattle.mime_base.specs.declared.database.rule.GlobRule.{GlobRule};
ghost use Rattle.mime_lookup.specs.Cached.{IsCacheText};
ghost use Rattle.mime_view.specs.NameHits.{GivesHits, IsHitsFault, SpellsRules, lists_of};
ghost use Rattle.mime_view.specs.RuleHits.{AreRuleHits, types_alone};
ghost use Rattle.mime_view.specs.Spending.{SpendsOnName, spending_of};

use crate::cached::indexed_cache::IndexedCache;
use mime_base::Meter;
use mime_view::{Budget, CacheFault, RuleHits};
use std::alloc::Global;

/// All glob rules that match a name, as [`mime_view::Cache::rule_hits`] gives them ("Recommended checking order").
///
/// They go by the rules that were read back, where that was done: then nothing is visited, and nothing is taken of the budget. Where more
/// rules match than records are left, the cache is asked, which stops.
pub fn hits_again<'a>(
    alloc: Global,
    indexed: &IndexedCache<'a>,
    name: &[u8],
    meter: &mut Meter,
    budget: &mut Budget,
) -> Result<RuleHits<'a>, CacheFault>
    // A name has no more bytes.
    requires short { length name.now ≤ 4096 }
    // Where these rules stand, it gives those that match, and takes no more records than they need.
    ensures gives { (rules : List GlobRule) → SpellsRules indexed.now rules →
        GivesHits AreRuleHits name.now rules budget.old budget.new result }
    // Whatever the bytes are, each type is a text of the cache.
    ensures texts { IfOk result (λ hits. All (IsCacheText indexed.now) (types_alone hits).kinds) }
    // There are no more than records were left.
    ensures count { IfOk result (λ hits. length hits.rules.items ≤ budget.old.records) }
    // No more of them are kept than there are.
    ensures front { IfOk result (λ hits. hits.kept ≤ length hits.rules.items) }
    // Why nothing is said of the name.
    ensures fault { IfErr result (IsHitsFault indexed.now (lists_of indexed.now) name.now budget.new) }
    // A record costs as in the glob list, and the text of a type; the halving comes besides, for both cases.
    ensures cost { SpendsOnName name.now 3 (spending_of meter.old budget.old) (spending_of meter.new budget.new) }
{
    if let Some(names) = indexed.names() {
        let hits = names.rule_hits(alloc, name)?;
        if hits.rules.len() as u64 <= budget.records {
            return Ok(hits);
        }
    }
    indexed.cache().rule_hits(alloc, name, meter, budget)
}
