//! All rules that match a name, the preferred ones first.

ghost use Rattle.std.specs.Prelude.{◌≡◌, ◌+◌, ◌≤◌, Bool, List, length, map, IfOk};
ghost use Rattle.std.specs.Borrow.{Bor};
ghost use Rattle.std.specs.List.{All};
ghost use Rattle.std.specs.List.Sorted.{IsNonDecreasing};
ghost use Rattle.mime_base.specs.Falling.{falling};
ghost use Rattle.mime_base.specs.Kept.{candidate_rules, kept_rules, of_greatest};
ghost use Rattle.mime_names.specs.Chains.{AreBelow};
ghost use Rattle.mime_names.specs.Near.{longest, near_bytes, near_nodes, near_rules, rule_bytes};
ghost use Rattle.mime_names.specs.Places.{AreNear, ComparesPlaces, is_text_at};
ghost use Rattle.mime_names.specs.Rules.{IsIndexedRule, hits_of, own_parts, parts_of, plain};
ghost use Rattle.mime_names.specs.declared.indexed_rule.IndexedRule as spec;

use crate::index::NameIndex;
use crate::indexed_rule::{IndexedRule, is_match, rule_at};
use crate::places::all_places;
use mime_base::{Meter, OutOfMemory};
use std::alloc::Global;

/// The rules that match a name.
#[derive(Drop)]
pub struct RankedRules<'b, 'a> {
    /// The rules by falling rank; those of one rank are in their order.
    pub rules: Vec<&'b IndexedRule<'a>>,
    /// How many of the first are kept.
    pub kept: usize,
}

/// All rules that match a name, by falling rank, and how many of these are kept.
///
/// The meter counts the steps in the index as nodes, and the bytes of the name that are compared.
pub fn ranked_rules<'b, 'a>(
    alloc: Global,
    index: &'b NameIndex<'a>,
    name: &[u8],
    meter: &mut Meter,
) -> Result<RankedRules<'b, 'a>, OutOfMemory>
    // They have the types, the weights and the flags of all rules that match, the preferred ones first.
    ensures own { IfOk result (λ found. map own_parts found.rules.items ≡ map parts_of (candidate_rules index.now.own name.now)) }
    // They give the types that these give.
    ensures given { IfOk result (λ found. map (λ rule. rule.now.kind.now) found.rules.items
        ≡ map (λ rule. rule.kind) (candidate_rules index.now.given name.now)) }
    // As many of the first are kept as the rules that are.
    ensures kept { IfOk result (λ found. found.kept ≡ length (kept_rules index.now.given name.now)) }
    // So it is of the rules with their own types.
    ensures own_kept { IfOk result (λ found. found.kept ≡ length (kept_rules index.now.own name.now)) }
    // Three nodes are counted for each byte of the name, six, and one for each rule near it, and no more.
    ensures near { meter.new.nodes ≤ meter.old.nodes + near_nodes (length name.now) (near_rules name.now index.now.given) }
    // No more bytes are compared than the name's length, the longest pattern and the rules near the name allow.
    ensures bytes { meter.new.bytes ≤ meter.old.bytes
        + near_bytes (length name.now) (longest index.now.given) (near_rules name.now index.now.given) }
{
    let places = all_places(alloc, &index.table, name, meter)?;
    let found = matching_rules(alloc, &index.patterns, &index.rules, &places, name, meter)?;
    let rules = by_rank(found)?;
    let kept = count_best(&rules);
    Ok(RankedRules { rules, kept })
}

/// The rules that match a name, of those at some places.
fn matching_rules<'b, 'a>(
    alloc: Global,
    patterns: &[u8],
    rules: &'b [IndexedRule<'a>],
    places: &[usize],
    name: &[u8],
    meter: &mut Meter,
) -> Result<Vec<&'b IndexedRule<'a>>, OutOfMemory>
    requires own { All (IsIndexedRule patterns.now) rules.now }
    requires below { AreBelow (length rules.now) places.now }
    requires rise { IsNonDecreasing places.now }
    ensures found { (part : spec.IndexedRule → Bool) → AreNear patterns.now part rules.now name.now places.now → IfOk result (λ found.
        map (λ rule. rule.now) found.items ≡ hits_of patterns.now part rules.now name.now) }
    ensures nodes { meter.new.nodes ≡ meter.old.nodes }
    ensures bytes { ComparesPlaces (is_text_at patterns.now rules.now) places.now (length name.now)
        (rule_bytes (length name.now) (longest (map (plain patterns.now) rules.now))) meter.old.bytes meter.new.bytes }
{
    let mut found = Vec::new(alloc);
    let mut from = 0;
    for near in 0..places.len() {
        let place = places[near];
        if from <= place {
            let rule = rule_at(rules, place);
            if is_match(patterns, rule, name, meter) {
                found.push(rule)?;
            }
            from = place + 1;
        }
    }
    Ok(found)
}

/// Rules by falling rank; those of one rank stay in their order.
fn by_rank<'b, 'a>(rules: Vec<&'b IndexedRule<'a>>) -> Result<Vec<&'b IndexedRule<'a>>, OutOfMemory>
    ensures { IfOk result (λ sorted. sorted.items ≡ falling (λ rule. rule.now.rank) rules.entry.items) }
{
    let mut sorted = rules;
    sorted.sort_by(|left, right| right.rank.cmp(&left.rank))?;
    Ok(sorted)
}

/// How many rules have the rank of the first.
fn count_best(rules: &[&IndexedRule<'_>]) -> usize
    // Where they are by falling rank, those have the greatest.
    ensures { (found : List (Bor spec.IndexedRule)) → rules.now ≡ falling (λ rule. rule.now.rank) found
        → result ≡ length (of_greatest (λ rule. rule.now.rank) found) }
{
    let Some(first) = rules.first() else {
        return 0;
    };
    let mut count = 0;
    for rule in rules {
        if rule.rank == first.rank {
            count += 1;
        }
    }
    count
}
