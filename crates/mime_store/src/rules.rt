//! Rules with what a cache stores of them, and the list that each stands in.

ghost use Rattle.std.specs.Prelude.{◌≡◌, IfOk, OnOk, map};
ghost use Rattle.mime_base.specs.Matching.Folding.{compared};
ghost use Rattle.mime_base.specs.Format.Sorted.{IsSortedByText};
ghost use Rattle.mime_base.specs.Format.Stored.{glob_rules, is_in_globs, is_in_literals, is_in_tree, literal_rules};
ghost use Rattle.mime_base.specs.Format.Stored.{stored_text, weight_and_flags};
ghost use Rattle.mime_store.specs.Views.{rule_of};

use crate::stored_rule::StoredRule;
use mime_base::{Class, GlobRule, OutOfMemory, class_of, fold};
use std::alloc::Global;

/// The flag of a case-sensitive rule.
const CASED: u32 = 0x100;

/// The rules of the literal list, in merged order.
#[tactic(auto, using(crate::proofs::ListLemmas::Entries::passed_more, crate::proofs::ListLemmas::Entries::failed_more))]
pub fn literal_rules(alloc: Global, rules: &[GlobRule]) -> Result<Vec<StoredRule<'_>>, OutOfMemory>
    // They are the literal rules, in merged order.
    ensures { IfOk result (λ found. map rule_of found.items ≡ literal_rules rules.now) }
{
    let mut found = Vec::new(alloc);
    for rule in rules {
        if is_in_literals(rule) {
            found.push(stored_rule(alloc, rule)?)?;
        }
    }
    Ok(found)
}

/// The rules of the glob list, in merged order.
#[tactic(auto, using(crate::proofs::ListLemmas::Entries::passed_more, crate::proofs::ListLemmas::Entries::failed_more))]
pub fn glob_rules(alloc: Global, rules: &[GlobRule]) -> Result<Vec<StoredRule<'_>>, OutOfMemory>
    // They are the rules that are neither literal nor in the suffix tree, in merged order.
    ensures { IfOk result (λ found. map rule_of found.items ≡ glob_rules rules.now) }
{
    let mut found = Vec::new(alloc);
    for rule in rules {
        if is_in_globs(rule) {
            found.push(stored_rule(alloc, rule)?)?;
        }
    }
    Ok(found)
}

/// Sorts rules by their stored texts; those of one text stay in merged order.
pub fn sort_rules(rules: &mut Vec<StoredRule<'_>>) -> Result<(), OutOfMemory>
    // They are the same rules by rising stored texts, and those of one text stay in merged order.
    ensures { OnOk result (IsSortedByText stored_text (map rule_of rules.old.items) (map rule_of rules.new.items)) }
{
    rules.sort_by(|left, right| left.text.cmp(&right.text))?;
    Ok(())
}

/// Bytes as they are, or folded.
#[tactic(auto, using(crate::proofs::RulesLemmas::Texts::compared_cased))]
pub fn compared(alloc: Global, cased: bool, bytes: &[u8]) -> Result<Vec<u8>, OutOfMemory>
    // A case-sensitive rule stores the bytes as they are, any other stores them folded.
    ensures { IfOk result (λ text. text.items ≡ compared cased bytes.now) }
{
    if cased {
        let text = Vec::from_slice(alloc, bytes)?;
        return Ok(text);
    }
    let text = fold(alloc, bytes)?;
    Ok(text)
}

/// The weight in the low 8 bits, and the flag of a case-sensitive rule.
pub fn weight_and_flags(rule: &GlobRule) -> u32
    // The weight is in the low 8 bits, and bit 8 is set for a case-sensitive rule.
    ensures { result ≡ weight_and_flags rule.now }
{
    if rule.cased {
        u32::from(rule.weight) + CASED
    } else {
        u32::from(rule.weight)
    }
}

/// Whether the rule is a suffix rule other than `*`.
pub fn is_in_tree(rule: &GlobRule) -> bool
    // The rule is a suffix rule, and its pattern is not `*` alone.
    ensures { result ≡ is_in_tree rule.now }
{
    matches!(class_of(&rule.pattern), Class::Suffix) && rule.pattern.bytes().len() != 1
}

fn is_in_globs(rule: &GlobRule) -> bool
    ensures { result ≡ is_in_globs rule.now }
{
    match class_of(&rule.pattern) {
        Class::Literal => false,
        Class::Suffix => rule.pattern.bytes().len() == 1,
        Class::Full => true,
    }
}

fn is_in_literals(rule: &GlobRule) -> bool
    ensures { result ≡ is_in_literals rule.now }
{
    matches!(class_of(&rule.pattern), Class::Literal)
}

#[tactic(auto, using(crate::proofs::RulesLemmas::Fits::compared_fits))]
fn stored_rule(alloc: Global, rule: &GlobRule) -> Result<StoredRule<'_>, OutOfMemory>
    ensures { IfOk result (λ stored. rule_of stored ≡ rule.now) }
{
    let text = compared(alloc, rule.cased, rule.pattern.bytes())?;
    Ok(StoredRule { text, rule })
}
