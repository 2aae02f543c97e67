//! The rules that are kept of those that match a name.

ghost use Rattle.std.specs.Prelude.{◌≡◌, ◌+◌, ◌*◌, ◌<◌, ◌≤◌, [], false, true, filter, length, map, IfOk};
ghost use Rattle.std.specs.List.{All};
ghost use Rattle.mime_base.specs.Kept.{hits, kept_rules, of_greatest, rank_of_rule};
ghost use Rattle.mime_names.specs.Index.{held_kinds, held_types, rules_of_index, texts_of};
ghost use Rattle.mime_names.specs.Keys.{IsTableOf};
ghost use Rattle.mime_names.specs.Near.{longest, near_bytes, near_nodes, near_others, near_rules, near_texts, rule_bytes, text_bytes};
ghost use Rattle.mime_names.specs.Rules.{AreRepeats, IsIndexedRule, hits_of, is_text_rule, others, plain};

use crate::index::NameIndex;
use crate::indexed_rule::IndexedRule;
use crate::keys::KeyTable;
use crate::leading::leading_types;
use crate::places::{front_places, text_places};
use mime_base::{Meter, OutOfMemory};
use smallvec::SmallVec;
use std::alloc::Global;

/// The types of the rules that are kept for a name.
#[derive(Drop)]
pub enum KeptTypes<'a> {
    /// One type, of one rule: it is held in place.
    One(&'a [u8]),
    /// Those of more rules in their order, or none.
    Others(Vec<&'a [u8]>),
}

/// The types of the rules that are kept of those that match a name, in their order.
///
/// Where a text matches, or a star and a text, no other rule is asked. The meter counts the steps in the index as nodes, and the bytes
/// of the name that are compared.
pub fn kept_kinds<'a>(
    alloc: Global,
    index: &NameIndex<'a>,
    name: &[u8],
    meter: &mut Meter,
) -> Result<Vec<&'a [u8]>, OutOfMemory>
    // They are the types of the kept rules.
    ensures kept { IfOk result (λ kinds. texts_of kinds.items ≡ map (λ rule. rule.kind) (kept_rules index.now.given name.now)) }
    // Three nodes are counted for each byte of the name, six, and one for each rule near it, and no more.
    ensures near { meter.new.nodes ≤ meter.old.nodes + near_nodes (length name.now) (near_rules name.now index.now.given) }
    // For a name that a text matches, or a star and a text, no other rules count.
    ensures texts { 0 < length (filter is_text_rule (hits index.now.given name.now)) →
        meter.new.nodes ≤ meter.old.nodes + near_nodes (length name.now) (near_texts name.now index.now.given) }
    // No more bytes are compared than the name's length, the longest pattern and the rules near the name allow.
    ensures bytes { meter.new.bytes ≤ meter.old.bytes
        + near_bytes (length name.now) (longest index.now.given) (near_rules name.now index.now.given) }
    // Where a text matches, or a star and a text, only such are compared, each with no more bytes than the name has.
    ensures text_bytes { 0 < length (filter is_text_rule (hits index.now.given name.now)) →
        meter.new.bytes ≤ meter.old.bytes + text_bytes (length name.now) (near_texts name.now index.now.given) }
{
    match kept_types(alloc, index, name, meter)? {
        KeptTypes::One(kind) => {
            let mut kinds = Vec::new(alloc);
            kinds.push(kind)?;
            Ok(kinds)
        }
        KeptTypes::Others(kinds) => Ok(kinds),
    }
}

/// The types of the rules that are kept of those that match a name, as [`kept_kinds`] gives them, but that one of them is held in place:
/// for most names nothing is allocated.
// Always inlined: what it gives is not moved.
#[inline(always)]
pub fn kept_types<'a>(
    alloc: Global,
    index: &NameIndex<'a>,
    name: &[u8],
    meter: &mut Meter,
) -> Result<KeptTypes<'a>, OutOfMemory>
    // They are the types of the kept rules.
    ensures kept { IfOk result (λ types. held_types types ≡ map (λ rule. rule.kind) (kept_rules index.now.given name.now)) }
    // Three nodes are counted for each byte of the name, six, and one for each rule near it, and no more.
    ensures near { meter.new.nodes ≤ meter.old.nodes + near_nodes (length name.now) (near_rules name.now index.now.given) }
    // For a name that a text matches, or a star and a text, no other rules count.
    ensures texts { 0 < length (filter is_text_rule (hits index.now.given name.now)) →
        meter.new.nodes ≤ meter.old.nodes + near_nodes (length name.now) (near_texts name.now index.now.given) }
    // No more bytes are compared than the name's length, the longest pattern and the rules near the name allow.
    ensures bytes { meter.new.bytes ≤ meter.old.bytes
        + near_bytes (length name.now) (longest index.now.given) (near_rules name.now index.now.given) }
    // Where a text matches, or a star and a text, only such are compared, each with no more bytes than the name has.
    ensures text_bytes { 0 < length (filter is_text_rule (hits index.now.given name.now)) →
        meter.new.bytes ≤ meter.old.bytes + text_bytes (length name.now) (near_texts name.now index.now.given) }
{
    let mut texts = SmallVec::new(alloc);
    text_places(&mut texts, &index.table, name, meter)?;
    let types = leading_types(
        alloc,
        &index.patterns,
        &index.rules,
        texts.as_mut_slice(),
        name,
        meter,
    )?;
    if is_none(&types) {
        let others = other_kinds(
            alloc,
            &index.patterns,
            &index.rules,
            &index.table,
            name,
            meter,
        )?;
        return Ok(others);
    }
    Ok(types)
}

/// Whether there are no types.
#[inline(always)]
fn is_none(types: &KeptTypes<'_>) -> bool
    ensures some { result ≡ false → 0 < length (held_kinds types.now) }
    ensures none { result ≡ true → held_kinds types.now ≡ [] }
{
    match types {
        KeptTypes::One(_) => false,
        KeptTypes::Others(kinds) => kinds.is_empty(),
    }
}

/// The types of the rules of the greatest rank that match a name, of those that are no text and no star before a text.
// Never inlined: most names don't come here.
#[inline(never)]
fn other_kinds<'a>(
    alloc: Global,
    patterns: &[u8],
    rules: &[IndexedRule<'a>],
    table: &KeyTable,
    name: &[u8],
    meter: &mut Meter,
) -> Result<KeptTypes<'a>, OutOfMemory>
    requires own { All (IsIndexedRule patterns.now) rules.now }
    requires repeated { AreRepeats patterns.now rules.now }
    requires keyed { IsTableOf table.now patterns.now rules.now }
    ensures kept { IfOk result (λ types. held_kinds types ≡ map (λ rule. rule.kind)
        (of_greatest (λ rule. rank_of_rule (plain patterns.now rule)) (hits_of patterns.now (others patterns.now) rules.now name.now))) }
    ensures near { meter.new.nodes ≤ meter.old.nodes + 2 + near_others name.now (rules_of_index patterns.now rules.now) }
    ensures bytes { meter.new.bytes ≤ meter.old.bytes + near_others name.now (rules_of_index patterns.now rules.now)
        * rule_bytes (length name.now) (longest (rules_of_index patterns.now rules.now)) }
{
    let mut fronts = SmallVec::new(alloc);
    front_places(&mut fronts, table, name, meter)?;
    leading_types(alloc, patterns, rules, fronts.as_mut_slice(), name, meter)
}
