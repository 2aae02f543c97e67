//! The types of the rules of the greatest rank, of those that match a name: for most names one, for which nothing is allocated.
//!
//! One pass goes through the places of rules that may match, and keeps the places of those that lead so far at the front of them.

ghost use Rattle.std.specs.Prelude.{◌≡◌, ◌+◌, ◌*◌, ◌<◌, ◌≤◌, ◌∷◌, ◌++◌, [], ℕ, Bool, true, List, get_or, length, map, take, IfOk};
ghost use Rattle.std.specs.List.{All};
ghost use Rattle.std.specs.List.Sorted.{IsNonDecreasing};
ghost use Rattle.std.specs.Borrow.{Bor};
ghost use Rattle.mime_base.specs.Kept.{of_greatest, rank_of_rule};
ghost use Rattle.mime_names.specs.Chains.{AreBelow};
ghost use Rattle.mime_names.specs.Index.{held_kinds};
ghost use Rattle.mime_names.specs.Leading.{IsLeader, kinds_at};
ghost use Rattle.mime_names.specs.Near.{longest, rule_bytes};
ghost use Rattle.mime_names.specs.Places.{AreNear, ComparesPlaces, is_text_at};
ghost use Rattle.mime_names.specs.Rules.{AreRepeats, IsIndexedRule, hits_of, is_match, of_texts, pattern_of, plain};
ghost use Rattle.mime_names.specs.declared.indexed_rule.IndexedRule as spec;

use crate::indexed_rule::{IndexedRule, is_match, rule_at};
use crate::kept::KeptTypes;
use mime_base::{Meter, OutOfMemory};
use std::alloc::Global;

/// The greatest rank so far, and how many rules have it.
#[derive(Clone, Copy)]
struct Leader {
    rank: u32,
    count: usize,
}

/// The types of the rules of the greatest rank, of those at some places that match a name. The places are used up.
// Always inlined: what it gives is not moved.
#[inline(always)]
pub fn leading_types<'a>(
    alloc: Global,
    patterns: &[u8],
    rules: &[IndexedRule<'a>],
    places: &mut [usize],
    name: &[u8],
    meter: &mut Meter,
) -> Result<KeptTypes<'a>, OutOfMemory>
    // Each rule has its own pattern and class.
    requires own { All (IsIndexedRule patterns.now) rules.now }
    // It is known which repeat the one before them.
    requires repeated { AreRepeats patterns.now rules.now }
    // There is a rule at each place.
    requires below { AreBelow (length rules.now) places.old }
    // The places rise.
    requires rise { IsNonDecreasing places.old }
    // They are the types that these rules give, in their order.
    ensures kept { (part : spec.IndexedRule → Bool) → AreNear patterns.now part rules.now name.now places.old → IfOk result (λ types. held_kinds types
        ≡ map (λ rule. rule.kind) (of_greatest (λ rule. rank_of_rule (plain patterns.now rule)) (hits_of patterns.now part rules.now name.now))) }
    // It counts no node.
    ensures nodes { meter.new.nodes ≡ meter.old.nodes }
    // The rule at each place is compared once at most.
    ensures bytes { ComparesPlaces (is_text_at patterns.now rules.now) places.old (length name.now)
        (rule_bytes (length name.now) (longest (map (plain patterns.now) rules.now))) meter.old.bytes meter.new.bytes }
{
    let count = move_leading(patterns, rules, places, name, meter);
    types_at(alloc, rules, &places[..count])
}

/// Moves the places of the rules of the greatest rank that match a name to the front, in their order, and says how many these are.
#[inline(always)]
fn move_leading(
    patterns: &[u8],
    rules: &[IndexedRule<'_>],
    places: &mut [usize],
    name: &[u8],
    meter: &mut Meter,
) -> usize
    requires own { All (IsIndexedRule patterns.now) rules.now }
    requires repeated { AreRepeats patterns.now rules.now }
    requires below { AreBelow (length rules.now) places.old }
    requires rise { IsNonDecreasing places.old }
    ensures leading { (part : spec.IndexedRule → Bool) → AreNear patterns.now part rules.now name.now places.old → kinds_at rules.now (take result places.new)
        ≡ map (λ rule. rule.kind) (of_greatest (λ rule. rank_of_rule (plain patterns.now rule)) (hits_of patterns.now part rules.now name.now)) }
    ensures below { AreBelow (length rules.now) places.new }
    ensures within { result ≤ length places.new }
    ensures nodes { meter.new.nodes ≡ meter.old.nodes }
    ensures bytes { ComparesPlaces (is_text_at patterns.now rules.now) places.old (length name.now)
        (rule_bytes (length name.now) (longest (map (plain patterns.now) rules.now))) meter.old.bytes meter.new.bytes }
{
    let mut leader = Leader { rank: 0, count: 0 };
    let mut matched = 0;
    let mut from = 0;
    for near in 0..places.len() {
        let place = places[near];
        if from <= place {
            let rule = rule_at(rules, place);
            if is_match_after(matched, patterns, rule, place, name, meter) {
                matched = place + 1;
                leader = offer(places, leader, rule.rank, place);
            }
            from = place + 1;
        }
    }
    leader.count
}

/// Whether the rule at a place matches a name, where the last one that does is before this place.
#[inline(always)]
fn is_match_after(
    matched: usize,
    patterns: &[u8],
    rule: &IndexedRule<'_>,
    place: usize,
    name: &[u8],
    meter: &mut Meter,
) -> bool
    requires own { IsIndexedRule patterns.now rule.now }
    requires repeated { rule.now.repeats ≡ true → matched ≡ place → is_match patterns.now name.now rule.now ≡ true }
    ensures exact { result ≡ is_match patterns.now name.now rule.now }
    ensures nodes { meter.new.nodes ≡ meter.old.nodes }
    ensures text_bytes { of_texts rule.now.class ≡ true → meter.new.bytes ≤ meter.old.bytes + length name.now }
    ensures bytes { meter.new.bytes ≤ meter.old.bytes + (length (pattern_of patterns.now rule.now) + 1) * (length name.now + 1) }
{
    if rule.repeats && matched == place {
        return true;
    }
    is_match(patterns, rule, name, meter)
}

/// What leads after one rule more, whose place is put behind those that lead with it.
#[inline(always)]
fn offer(places: &mut [usize], leader: Leader, rank: u32, place: usize) -> Leader
    requires { leader.count < length places.old }
    ensures leads { (rules : List spec.IndexedRule) → (rule : spec.IndexedRule) → (offers : List (ℕ × Bor (List ℕ))) → place < length rules
        → rule ≡ get_or rules place rule → IsLeader rules places.old leader offers
        → IsLeader rules places.new result (offers ++ (rank, rule.kind) ∷ []) }
    ensures below { (size : ℕ) → place < size → AreBelow size places.old → AreBelow size places.new }
    ensures rest { (j : ℕ) → leader.count < j → get_or places.new j 0 ≡ get_or places.old j 0 }
    ensures long { length places.new ≡ length places.old }
    ensures count { result.count ≤ leader.count + 1 }
{
    if rank < leader.rank {
        return leader;
    }
    if rank > leader.rank {
        places[0] = place;
        return Leader { rank, count: 1 };
    }
    places[leader.count] = place;
    Leader {
        rank,
        count: leader.count + 1,
    }
}

/// The types of the rules at some places.
#[inline(always)]
fn types_at<'a>(
    alloc: Global,
    rules: &[IndexedRule<'a>],
    places: &[usize],
) -> Result<KeptTypes<'a>, OutOfMemory>
    requires { AreBelow (length rules.now) places.now }
    ensures { IfOk result (λ types. held_kinds types ≡ kinds_at rules.now places.now) }
{
    if places.len() == 1 {
        return Ok(KeptTypes::One(rule_at(rules, places[0]).kind));
    }
    let mut kinds = Vec::with_capacity(alloc, places.len())?;
    for place in places {
        kinds.push_reserved(rule_at(rules, *place).kind);
    }
    Ok(KeptTypes::Others(kinds))
}
