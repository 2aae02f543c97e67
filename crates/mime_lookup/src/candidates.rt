//! All rules of a name that match it ("Recommended checking order").

ghost use Rattle.std.specs.Prelude.{◌≡◌, ◌+◌, ◌≤◌, List, length, map, All, IfOk};
ghost use Rattle.std.specs.Borrow.{Bor};
ghost use Rattle.mime_base.specs.Falling.{falling};
ghost use Rattle.mime_base.specs.Kept.{FitsRank, candidate_rules, kept_rules, of_greatest, rank_of_rule};
ghost use Rattle.mime_base.specs.declared.database.rule.GlobRule as spec;
ghost use Rattle.mime_lookup.specs.IndexBytes.{tried_bytes};

use mime_base::{GlobRule, Meter, OutOfMemory, glob_matches, rank_of_rule};
use std::alloc::Global;

/// The rules that match a name.
#[derive(Drop)]
pub struct CandidateRules<'a> {
    /// The rules by falling rank; those of one rank are in their order.
    pub rules: Vec<&'a GlobRule>,
    /// How many of the first are kept.
    pub kept: usize,
}

/// All rules that match, by falling rank, and how many of these are kept.
pub fn candidate_rules<'a>(
    alloc: Global,
    rules: &'a [GlobRule],
    name: &[u8],
    meter: &mut Meter,
) -> Result<CandidateRules<'a>, OutOfMemory>
    // These are all rules that match the name, by falling rank.
    ensures candidates { IfOk result (λ all. map (λ rule. rule.now) all.rules.items ≡ candidate_rules rules.now name.now) }
    // As many of the first are kept as the rules that are.
    ensures kept { All FitsRank rules.now → IfOk result (λ all. all.kept ≡ length (kept_rules rules.now name.now)) }
    // No record of a cache is visited.
    ensures nodes { meter.new.nodes ≡ meter.old.nodes }
    // Each rule is tried once, and no more bytes are compared.
    ensures bytes { meter.new.bytes ≤ meter.old.bytes + tried_bytes rules.now name.now }
{
    let mut found = Vec::new(alloc);
    for rule in rules {
        if glob_matches(rule.pattern.bytes(), rule.cased, name, meter) {
            found.push(rule)?;
        }
    }
    let sorted = by_rank(found)?;
    let kept = count_best(&sorted);
    Ok(CandidateRules {
        rules: sorted,
        kept,
    })
}

/// The rules by falling rank; those of one rank stay in their order.
pub fn by_rank(rules: Vec<&GlobRule>) -> Result<Vec<&GlobRule>, OutOfMemory>
    // The greatest rank comes first, and those of one rank keep their order.
    ensures { IfOk result (λ sorted. sorted.items ≡ falling (λ rule. rank_of_rule rule.now) rules.entry.items) }
{
    let mut sorted = rules;
    sorted.sort_by(|left, right| rank_of_rule(*right).cmp(&rank_of_rule(*left)))?;
    Ok(sorted)
}

/// How many rules have the rank of the first.
fn count_best(rules: &[&GlobRule]) -> usize
    // Where they are by falling rank, those have the greatest.
    ensures { (found : List (Bor spec.GlobRule)) → rules.now ≡ falling (λ rule. rank_of_rule rule.now) found
        → result ≡ length (of_greatest (λ rule. rank_of_rule rule.now) found) }
{
    let Some(first) = rules.first() else {
        return 0;
    };
    let best = rank_of_rule(*first);
    let mut count = 0;
    for rule in rules {
        if rank_of_rule(*rule) == best {
            count += 1;
        }
    }
    count
}
