//! Rules that are never kept, left out of a database.
//!
//! `globs2` gives each case-sensitive rule a twin without the flag, for older readers. Where each
//! spelling of a rule's pattern is a case-sensitive rule's that weighs no less, one of these is
//! preferred to it, whatever the name. That such a rule may be left out is this project's own.
//!
//! A text has many spellings, so they are sought one by one, up to the first that no rule has: one
//! more than the file has, at most. What was found for a text is kept for the next rule that folds to it.

ghost use Rattle.std.specs.Prelude.{◌≡◌, ◌++◌, ℕ, List, [], IfOk, OnOk, map, max, not, take, drop, length, if◌then◌else◌, bytes_eq, ◌≤◌};
ghost use Rattle.mime_base.specs.Database.{plain_database};
ghost use Rattle.mime_base.specs.Kept.Hidden.{is_hidden, spellings};
ghost use Rattle.mime_text.specs.Merging.{picked, visible_database, with_rules};
ghost use Rattle.mime_text.specs.Merging.Hiding.{AreLeast, cased_weight, is_outweighed, least, weight_in};

use super::first::marked;
use mime_base::{Class, Database, GlobRule, OutOfMemory, class_of, fold};
use std::alloc::Global;
use std::cmp::min;
use std::collections::BTreeMap;

/// The database without the rules that are never kept.
pub fn visible(alloc: Global, database: Database) -> Result<Database, OutOfMemory>
    // The rules that aren't hidden stay in their order, and all else is as it was.
    ensures { IfOk result (λ shown. plain_database shown ≡ visible_database (plain_database database)) }
{
    let shown = visible_marks(alloc, &database.rules)?;
    with_marked(alloc, database, shown)
}

/// The database with the rules that are marked, in their order.
pub fn with_marked(
    alloc: Global,
    database: Database,
    marks: Vec<bool>,
) -> Result<Database, OutOfMemory>
    // Each rule has a mark.
    requires { length marks.items ≡ length database.rules.items }
    // The marked rules stay in their order, and all else is as it was.
    ensures { IfOk result (λ kept. plain_database kept
        ≡ with_rules (plain_database database) (picked marks.items database.rules.items)) }
{
    let Database {
        rules,
        aliases,
        parents,
        sections,
        icons,
        generic_icons,
    } = database;
    Ok(Database {
        rules: marked(alloc, rules, marks)?,
        aliases,
        parents,
        sections,
        icons,
        generic_icons,
    })
}

/// Which rules are visible.
fn visible_marks(alloc: Global, rules: &[GlobRule]) -> Result<Vec<bool>, OutOfMemory>
    ensures { IfOk result (λ shown. shown.items ≡ map (λ rule. not (is_hidden rules.now rule)) rules.now) }
{
    let weights = cased_weights(alloc, rules)?;
    let mut known = BTreeMap::new(alloc);
    let mut shown = Vec::with_capacity(alloc, rules.len())?;
    for rule in rules {
        shown.push(!is_outweighed(alloc, &weights, &mut known, rule)?)?;
    }
    Ok(shown)
}

/// Of each pattern of a case-sensitive rule, one more than the greatest weight.
fn cased_weights<'a>(
    alloc: Global,
    rules: &'a [GlobRule],
) -> Result<BTreeMap<&'a [u8], u16>, OutOfMemory>
    ensures { IfOk result (λ weights. (text : List ℕ) → weight_in weights text ≡ cased_weight rules.now text) }
{
    let mut weights = BTreeMap::new(alloc);
    for rule in rules {
        if rule.cased {
            raise(
                &mut weights,
                rule.pattern.bytes(),
                u16::from(rule.weight) + 1,
            )?;
        }
    }
    Ok(weights)
}

/// Gives a text a weight, unless it has a greater one.
fn raise<'a>(
    weights: &mut BTreeMap<&'a [u8], u16>,
    text: &'a [u8],
    weight: u16,
) -> Result<(), OutOfMemory>
    ensures { OnOk result ((other : List ℕ) → weight_in weights.new other
        ≡ max (if bytes_eq text.now other then weight else 0) (weight_in weights.old other)) }
{
    if weight_of(weights, text) < weight {
        weights.insert(text, weight)?;
    }
    Ok(())
}

/// The weight of a text, 0 where it has none.
fn weight_of(weights: &BTreeMap<&[u8], u16>, text: &[u8]) -> u16
    ensures { result ≡ weight_in weights.now text.now }
{
    match weights.get(text) {
        Some(weight) => *weight,
        None => 0,
    }
}

/// Whether a rule is hidden.
fn is_outweighed(
    alloc: Global,
    weights: &BTreeMap<&[u8], u16>,
    known: &mut BTreeMap<Vec<u8>, u16>,
    rule: &GlobRule,
) -> Result<bool, OutOfMemory>
    requires known { AreLeast (weight_in weights.now) known.old }
    ensures hidden { IfOk result (λ hidden. hidden ≡ is_outweighed (weight_in weights.now) rule.now) }
    ensures known { OnOk result (AreLeast (weight_in weights.now) known.new) }
{
    let weight = u16::from(rule.weight);
    // most rules have no twin in their own spelling, so that nothing is folded for them
    if rule.cased || weight_of(weights, rule.pattern.bytes()) <= weight {
        return Ok(false);
    }
    match class_of(&rule.pattern) {
        Class::Full => Ok(false),
        Class::Literal | Class::Suffix => {
            let text = fold(alloc, rule.pattern.bytes())?;
            Ok(weight < known_least(alloc, weights, known, text)?)
        }
    }
}

/// The least weight of the spellings of a folded text, sought where it isn't known yet.
fn known_least(
    alloc: Global,
    weights: &BTreeMap<&[u8], u16>,
    known: &mut BTreeMap<Vec<u8>, u16>,
    text: Vec<u8>,
) -> Result<u16, OutOfMemory>
    requires known { AreLeast (weight_in weights.now) known.old }
    ensures least { IfOk result (λ found. found ≡ least (weight_in weights.now) (spellings text.items)) }
    ensures known { OnOk result (AreLeast (weight_in weights.now) known.new) }
{
    let bytes = text.as_slice();
    if let Some(found) = known.get(bytes) {
        return Ok(*found);
    }
    let found = sought_least(alloc, weights, bytes)?;
    known.insert(text, found)?;
    Ok(found)
}

/// The least weight of the spellings of a folded text, sought one by one.
fn sought_least(
    alloc: Global,
    weights: &BTreeMap<&[u8], u16>,
    text: &[u8],
) -> Result<u16, OutOfMemory>
    ensures { IfOk result (λ found. found ≡ least (weight_in weights.now) (spellings text.now)) }
{
    let mut spelling = Vec::from_slice(alloc, text)?;
    Ok(least_weight(weights, &mut spelling, 0))
}

/// The least weight of the texts that begin as this one does up to a place, and go on with a spelling
/// of what is folded from there on.
fn least_weight(weights: &BTreeMap<&[u8], u16>, text: &mut [u8], place: usize) -> u16
    requires { place ≤ length text.old }
    ensures least { result ≡ least (λ rest. weight_in weights.now (take place text.old ++ rest)) (spellings (drop place text.old)) }
    ensures text { text.new ≡ text.old }
{
    if place == text.len() {
        return weight_of(weights, text);
    }
    let byte = text[place];
    let small = least_weight(weights, text, place + 1);
    if small == 0 || !byte.is_ascii_lowercase() {
        return small;
    }
    text[place] = byte - 32;
    let capital = least_weight(weights, text, place + 1);
    text[place] = byte;
    min(small, capital)
}
