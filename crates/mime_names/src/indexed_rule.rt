//! A rule with what is found of it once.

ghost use Rattle.std.specs.Prelude.{◌≡◌, ◌+◌, ◌*◌, ◌<◌, ◌≤◌, true, ℕ, List, ◌∷◌, get_or, length};
ghost use Rattle.mime_base.specs.Matching.Matches.{rule_matches};
ghost use Rattle.mime_names.specs.Rules.{IsIndexedRule, is_match, of_texts, pattern_of};

use crate::ending::ends_so;
use crate::pattern_text::{PatternText, bytes_of};
use mime_base::{Class, Meter, glob_matches};

/// A rule with its class and its rank.
#[derive(Debug, Drop)]
pub struct IndexedRule<'a> {
    /// The type that the rule gives.
    pub kind: &'a [u8],
    /// The type that the rule itself has, which may be an alias of that.
    pub own_kind: &'a [u8],
    /// Its pattern.
    pub pattern: PatternText<'a>,
    /// Its rank: of two rules that match, the one that is preferred has the greater.
    pub rank: u32,
    /// Its weight.
    pub weight: u8,
    /// Whether it is case-sensitive.
    pub cased: bool,
    /// The class of its pattern.
    pub class: Class,
    /// Whether the rule before it has its pattern, and is case-sensitive as it is: then it matches what that one matches.
    pub repeats: bool,
}

/// The rule at a place.
#[inline]
pub fn rule_at<'a, 'b>(rules: &'b [IndexedRule<'a>], place: usize) -> &'b IndexedRule<'a>
    // There is one.
    requires { place < length rules.now }
    // It is the rule there.
    ensures { result.now ≡ get_or rules.now place result.now }
{
    &rules[place]
}

/// A rule's pattern.
#[inline]
pub fn pattern_of<'b>(patterns: &'b [u8], rule: &IndexedRule<'b>) -> &'b [u8]
    // It is lent, or stands in the text.
    requires { IsIndexedRule patterns.now rule.now }
    // It is the rule's own.
    ensures { result.now ≡ pattern_of patterns.now rule.now }
{
    bytes_of(patterns, rule.pattern)
}

/// Whether a rule matches a name.
// Always inlined: most rules are texts, which a call of it would take as long as.
#[inline(always)]
pub fn is_match(patterns: &[u8], rule: &IndexedRule<'_>, name: &[u8], meter: &mut Meter) -> bool
    // The rule's pattern is one of these.
    requires own { IsIndexedRule patterns.now rule.now }
    // It is true exactly where the pattern matches.
    ensures exact { result ≡ is_match patterns.now name.now rule.now }
    // It counts no node.
    ensures nodes { meter.new.nodes ≡ meter.old.nodes }
    // A text is compared with no more bytes than the name has.
    ensures text_bytes { of_texts rule.now.class ≡ true → meter.new.bytes ≤ meter.old.bytes + length name.now }
    // For a pattern of p and a name of n bytes at most (p + 1)·(n + 1) are counted.
    ensures bytes { meter.new.bytes ≤ meter.old.bytes + (length (pattern_of patterns.now rule.now) + 1) * (length name.now + 1) }
{
    let pattern = pattern_of(patterns, rule);
    match rule.class {
        Class::Literal => pattern.len() == name.len() && ends_so(pattern, rule.cased, name, meter),
        Class::Suffix => ends_so(after_first(pattern), rule.cased, name, meter),
        Class::Full => is_general_match(pattern, rule.cased, name, meter),
    }
}

/// Whether a pattern matches a name, whatever it is.
// Never inlined: for most names no such pattern is asked.
#[inline(never)]
fn is_general_match(pattern: &[u8], cased: bool, name: &[u8], meter: &mut Meter) -> bool
    ensures exact { result ≡ rule_matches pattern.now cased name.now }
    ensures nodes { meter.new.nodes ≡ meter.old.nodes }
    ensures bytes { meter.new.bytes ≤ meter.old.bytes + (length pattern.now + 1) * (length name.now + 1) }
{
    glob_matches(pattern, cased, name, meter)
}

/// What stands after a text's first byte.
#[inline]
pub fn after_first(text: &[u8]) -> &[u8]
    // It is all but the first byte.
    ensures { (first : ℕ) → (rest : List ℕ) → text.now ≡ first ∷ rest → result.now ≡ rest }
{
    match text.split_first() {
        Some((_, rest)) => rest,
        None => text,
    }
}
