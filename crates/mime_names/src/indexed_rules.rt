//! Rules that an index is made of, with what is found of each.

ghost use Rattle.std.specs.Prelude.{◌≡◌, ◌<◌, ◌-◌, [], ◌∷◌, ◌++◌, true, get_or, length, IfOk};
ghost use Rattle.std.specs.List.{All};
ghost use Rattle.mime_base.specs.Kept.{FitsRank};
ghost use Rattle.mime_base.specs.Kept.Classes.{class_of};
ghost use Rattle.mime_names.specs.Patterns.{IsWithin, pattern_in};
ghost use Rattle.mime_names.specs.Rules.{HasPattern, IsEntryOf, IsIndexedRule, own_named, plain_named};
ghost use Rattle.mime_names.specs.declared.indexed_rule.IndexedRule as spec;

use crate::indexed_rule::{IndexedRule, pattern_of};
use crate::named_rule::NamedRule;
use crate::pattern_text::bytes_of;
use mime_base::{Class, OutOfMemory, class_of_bytes, rank_of};
use std::alloc::Global;
use std::marker::Model;

/// Rules that an index is made of, whose types are lent. This project's own.
#[derive(Drop)]
pub struct IndexedRules<'a> {
    /// The rules, each with its class and its rank.
    pub(crate) rules: Vec<IndexedRule<'a>>,
    /// The text of patterns that aren't lent.
    pub(crate) patterns: Vec<u8>,
}

impl<'a> Model for IndexedRules<'a> {
    ghost use Rattle.std.specs.List.{All};
    ghost use Rattle.mime_names.specs.Index.{PlainRules, plain_rules};
    ghost use Rattle.mime_names.specs.Rules.{AreRepeats, IsIndexedRule};

    ghost Value = { PlainRules };

    ghost view = { λ all. plain_rules all.patterns.items all.rules.items };

    ghost invariant = { λ all. All (IsIndexedRule all.patterns.items) all.rules.items × AreRepeats all.patterns.items all.rules.items };
}

impl<'a> IndexedRules<'a> {
    /// No rules, with room for that many. Patterns of those that are added may stand in this text, which may be empty.
    pub fn new(
        alloc: Global,
        room: usize,
        patterns: Vec<u8>,
    ) -> Result<IndexedRules<'a>, OutOfMemory>
        // There are none, and the text is the one given.
        ensures { IfOk result (λ all. all ≡ record { given = []; own = []; patterns = patterns.items }) }
    {
        let rules = Vec::with_capacity(alloc, room)?;
        Ok(IndexedRules { rules, patterns })
    }

    /// These rules and one more.
    // Always inlined: a call would take as long as the rest.
    #[inline(always)]
    pub fn with(self, named: NamedRule<'a>) -> Result<IndexedRules<'a>, OutOfMemory>
        // Its pattern is lent, or stands in the text.
        requires within { IsWithin self.patterns named.pattern }
        // It keeps the limits of ranks.
        requires limits { FitsRank (plain_named self.patterns named) }
        // It comes after these, and the text stays.
        ensures { IfOk result (λ all. all ≡ record {
          given = self.entry.given ++ plain_named self.entry.patterns named.entry ∷ [];
          own = self.entry.own ++ own_named self.entry.patterns named.entry ∷ [];
          patterns = self.entry.patterns;
        }) }
    {
        let class = class_of_bytes(bytes_of(&self.patterns, named.pattern));
        self.with_class(class, named)
    }

    /// The same, of a rule with a pattern whose class is known.
    // Always inlined, as that is.
    #[inline(always)]
    pub fn with_class(
        self,
        class: Class,
        named: NamedRule<'a>,
    ) -> Result<IndexedRules<'a>, OutOfMemory>
        // Its pattern is lent, or stands in the text.
        requires within { IsWithin self.patterns named.pattern }
        // Its pattern has this class.
        requires class { class ≡ class_of (pattern_in self.patterns named.pattern) }
        // It keeps the limits of ranks.
        requires limits { FitsRank (plain_named self.patterns named) }
        // It comes after these, and the text stays.
        ensures { IfOk result (λ all. all ≡ record {
          given = self.entry.given ++ plain_named self.entry.patterns named.entry ∷ [];
          own = self.entry.own ++ own_named self.entry.patterns named.entry ∷ [];
          patterns = self.entry.patterns;
        }) }
    {
        let IndexedRules {
            mut rules,
            patterns,
        } = self;
        let rule = indexed_rule(&patterns, &rules, class, &named);
        rules.push(rule)?;
        Ok(IndexedRules { rules, patterns })
    }
}

/// A rule with its class and its rank, which comes after some others.
#[inline]
fn indexed_rule<'a>(
    patterns: &[u8],
    rules: &[IndexedRule<'a>],
    class: Class,
    named: &NamedRule<'a>,
) -> IndexedRule<'a>
    requires own { All (IsIndexedRule patterns.now) rules.now }
    requires within { IsWithin patterns.now named.now.pattern }
    requires class { class ≡ class_of (pattern_in patterns.now named.now.pattern) }
    requires limits { FitsRank (plain_named patterns.now named.now) }
    ensures entry { IsEntryOf patterns.now named.now result }
    ensures some { result.repeats ≡ true → 0 < length rules.now }
    ensures repeats { result.repeats ≡ true → (last : spec.IndexedRule) → last ≡ get_or rules.now (length rules.now - 1) last →
        HasPattern patterns.now named.now.cased (pattern_in patterns.now named.now.pattern) last }
{
    let pattern = bytes_of(patterns, named.pattern);
    let rank = rank_of(class, named.weight, pattern.len() as u16, named.cased);
    IndexedRule {
        kind: named.kind,
        own_kind: named.own_kind,
        pattern: named.pattern,
        rank,
        weight: named.weight,
        cased: named.cased,
        class,
        repeats: repeats_last(patterns, rules, named.cased, pattern, rank),
    }
}

/// Whether the last of some rules has this rank, pattern and case: often several types have one pattern.
#[inline]
fn repeats_last(
    patterns: &[u8],
    rules: &[IndexedRule<'_>],
    cased: bool,
    pattern: &[u8],
    rank: u32,
) -> bool
    requires { All (IsIndexedRule patterns.now) rules.now }
    ensures some { result ≡ true → 0 < length rules.now }
    ensures repeats { result ≡ true → (last : spec.IndexedRule) → last ≡ get_or rules.now (length rules.now - 1) last →
        HasPattern patterns.now cased pattern.now last }
{
    match rules.last() {
        Some(last) => {
            last.rank == rank && last.cased == cased && is_same(pattern_of(patterns, last), pattern)
        }
        None => false,
    }
}

/// Whether two patterns are the same. Most of those that are as long end otherwise.
#[inline(always)]
fn is_same(left: &[u8], right: &[u8]) -> bool
    ensures { result ≡ true → left.now ≡ right.now }
{
    left.last() == right.last() && is_equal(left, right)
}

/// Whether two patterns that end alike are the same.
// Never inlined: few rules end as the one before them does.
#[inline(never)]
fn is_equal(left: &[u8], right: &[u8]) -> bool
    ensures { result ≡ true → left.now ≡ right.now }
{
    left == right
}
