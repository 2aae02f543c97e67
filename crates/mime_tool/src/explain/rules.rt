//! The rules of a cache that match a name.

ghost use Rattle.std.specs.Prelude.{◌≡◌, ◌++◌, IfOk, OnOk, map};
ghost use Rattle.std.specs.List.{All};
ghost use Rattle.mime_base.specs.Database.Lent.{plain_rule};
ghost use Rattle.mime_base.specs.Falling.{falling};
ghost use Rattle.mime_base.specs.Kept.{FitsRank, hits, of_greatest, rank_of_rule};
ghost use Rattle.mime_load.specs.Lent.{plain_lists, plain_rules};
ghost use Rattle.mime_tool.specs.ExplainSteps.{AreMatches, AreRanked, IsReady, database_of};

use super::Explaining;
use mime_base::{Best, LentRule, Meter, OutOfMemory, class_of_bytes, glob_matches, rank_of};
use mime_load::{Leaves, Lists};
use std::alloc::{AllocError, Global};

/// The rules of all lists of a cache.
pub(super) fn rules_of<'l, 'b: 'l>(
    alloc: Global,
    lists: &'l Lists<'b>,
) -> Result<Vec<LentRule<'l>>, AllocError>
    // They are those of the literal list, of the suffix tree and of the glob list, in their order.
    ensures { IfOk result (λ rules. map plain_rule rules.items ≡ (plain_lists lists.entry.now).rules) }
{
    let mut rules = Vec::new(alloc);
    push_lent(&mut rules, lists.literals.as_slice())?;
    push_leaves(&mut rules, &lists.leaves)?;
    push_lent(&mut rules, lists.globs.as_slice())?;
    Ok(rules)
}

// Puts rules behind others.
fn push_lent<'l, 'b: 'l>(
    rules: &mut Vec<LentRule<'l>>,
    more: &'l [LentRule<'b>],
) -> Result<(), AllocError>
    ensures { OnOk result (map plain_rule rules.new.items ≡ map plain_rule rules.old.items ++ plain_rules more.entry.now) }
{
    for rule in more {
        rules.push(LentRule {
            weight: rule.weight,
            kind: rule.kind,
            pattern: rule.pattern,
            cased: rule.cased,
        })?;
    }
    Ok(())
}

// Puts the rules of the suffix tree behind others.
fn push_leaves<'l, 'b: 'l>(
    rules: &mut Vec<LentRule<'l>>,
    leaves: &'l Leaves<'b>,
) -> Result<(), AllocError>
    ensures { OnOk result (map plain_rule rules.new.items ≡ map plain_rule rules.old.items ++ leaves.entry.now) }
{
    let mut place = 0;
    while let Some(leaf) = leaves.get(place) {
        rules.push(LentRule {
            weight: leaf.weight,
            kind: leaf.kind,
            pattern: leaf.pattern,
            cased: leaf.cased,
        })?;
        place += 1;
    }
    Ok(())
}

/// The rules that match a name.
#[derive(Drop)]
pub(crate) struct Matches<'a> {
    /// Those that are kept.
    pub(crate) kept: Vec<LentRule<'a>>,
    /// All of them, the preferred ones first.
    pub(crate) candidates: Vec<LentRule<'a>>,
}

/// The rules that match a name: those that are kept, and all, the preferred ones first.
pub(super) fn matches_of<'l>(
    alloc: Global,
    explaining: Explaining<'_, 'l, '_>,
    name: &[u8],
) -> Result<Matches<'l>, OutOfMemory>
    // The lists were read back of the bytes.
    requires ready { IsReady explaining }
    // They are those of the database that was read back.
    ensures { IfOk result (AreMatches (database_of explaining.entry) name.now) }
{
    let offers = offers_of(alloc, explaining.rules, name)?;
    let kept = kept_of(alloc, offers.as_slice())?;
    let offers = by_rank(offers)?;
    let candidates = rules_alone(alloc, offers.as_slice())?;
    Ok(Matches { kept, candidates })
}

// The rules that match a name, in their order, each with its rank.
fn offers_of<'a>(
    alloc: Global,
    rules: &[LentRule<'a>],
    name: &[u8],
) -> Result<Vec<(u32, LentRule<'a>)>, AllocError>
    requires limits { All FitsRank (map plain_rule rules.now) }
    // They are all rules that match the name, and each rank is the rule's.
    ensures { IfOk result (λ offers. AreRanked (hits (map plain_rule rules.now) name.now) offers.items) }
{
    let mut offers = Vec::new(alloc);
    let mut meter = Meter::new();
    for place in 0..rules.len() {
        let rule = rules[place];
        if glob_matches(rule.pattern, rule.cased, name, &mut meter) {
            offers.push((rank_of_lent(rule), rule))?;
        }
    }
    Ok(offers)
}

fn rank_of_lent(rule: LentRule<'_>) -> u32
    requires limits { FitsRank (plain_rule rule) }
    ensures { result ≡ rank_of_rule (plain_rule rule.entry) }
{
    rank_of(
        class_of_bytes(rule.pattern),
        rule.weight,
        rule.pattern.len() as u16,
        rule.cased,
    )
}

// The rules that are kept of these.
fn kept_of<'a>(
    alloc: Global,
    offers: &[(u32, LentRule<'a>)],
) -> Result<Vec<LentRule<'a>>, OutOfMemory>
    // They are those of the greatest rank, in their order.
    ensures { IfOk result (λ kept. kept.items ≡ map (λ offer. offer.1) (of_greatest (λ offer. offer.0) offers.now)) }
{
    let mut best = Best::new(alloc);
    for place in 0..offers.len() {
        let (rank, rule) = offers[place];
        best.offer(rank, rule)?;
    }
    Ok(best.into_items())
}

// These rules, the preferred ones first.
fn by_rank(offers: Vec<(u32, LentRule<'_>)>) -> Result<Vec<(u32, LentRule<'_>)>, AllocError>
    // They stand by falling rank, and those of one rank in their order.
    ensures { IfOk result (λ sorted. sorted.items ≡ falling (λ offer. offer.0) offers.entry.items) }
{
    let mut sorted = offers;
    sorted.sort_by(|left, right| right.0.cmp(&left.0))?;
    Ok(sorted)
}

// The rules alone.
fn rules_alone<'a>(
    alloc: Global,
    offers: &[(u32, LentRule<'a>)],
) -> Result<Vec<LentRule<'a>>, AllocError>
    // They stand in their order.
    ensures { IfOk result (λ rules. rules.items ≡ map (λ offer. offer.1) offers.now) }
{
    let mut rules = Vec::new(alloc);
    for place in 0..offers.len() {
        rules.push(offers[place].1)?;
    }
    Ok(rules)
}
