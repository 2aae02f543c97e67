//! The glob rules of a cache, lent to an index.

ghost use Rattle.std.specs.Prelude.{◌≡◌, map, IfOk};
ghost use Rattle.std.specs.List.{All};
ghost use Rattle.mime_base.specs.Kept.{FitsRank};
ghost use Rattle.mime_load.specs.Leaves.{LiesIn, plain_entry};
ghost use Rattle.mime_load.specs.Lent.{plain_rules};
ghost use Rattle.mime_load.specs.NameLists.{listed_rules};
ghost use Rattle.mime_lookup.specs.NameMap.{IsNameMap};
ghost use Rattle.mime_lookup.specs.ReadBack.{AddsRules, target_rule};

use crate::name_map::NameMap;
use crate::read_back::targets::target_of;
use mime_base::{LentRule, OutOfMemory};
use mime_load::{LeafEntry, NameLists};
use mime_names::{IndexedRules, NamedRule, PatternText};
use std::alloc::Global;

/// The rules of the lists of a cache, which give their types after one alias step by these targets. No pattern is copied.
pub fn unaliased_rules<'a>(
    alloc: Global,
    lists: NameLists<'a>,
    targets: &NameMap<'a, &'a [u8]>,
) -> Result<IndexedRules<'a>, OutOfMemory>
    // The names of the targets are found.
    requires found { IsNameMap targets.now }
    // The rules keep the limits of ranks.
    requires limits { All FitsRank (listed_rules lists) }
    // They give the types of those of the literal list, of the tree and of the glob list after one alias step.
    ensures given { IfOk result (λ rules. rules.given ≡ map (target_rule targets.now) (listed_rules lists.entry)) }
    // They are these.
    ensures own { IfOk result (λ rules. rules.own ≡ listed_rules lists.entry) }
{
    let NameLists {
        literals,
        leaves,
        globs,
        ..
    } = lists;
    let listed = literals.len().saturating_add(globs.len());
    let room = listed.saturating_add(leaves.len());
    let leaves = leaves.into_parts();
    let none = IndexedRules::new(alloc, room, leaves.patterns)?;
    let rules = with_rules(none, &literals, targets)?;
    let rules = with_leaves(rules, &leaves.entries, targets)?;
    with_rules(rules, &globs, targets)
}

/// Rules, and those of a list after them, which give their types after one alias step.
fn with_rules<'a>(
    mut rules: IndexedRules<'a>,
    listed: &[LentRule<'a>],
    targets: &NameMap<'a, &'a [u8]>,
) -> Result<IndexedRules<'a>, OutOfMemory>
    requires found { IsNameMap targets.now }
    requires limits { All FitsRank (plain_rules listed.now) }
    ensures { IfOk result (AddsRules targets.now (plain_rules listed.entry.now) rules.entry) }
{
    for rule in listed {
        rules = rules.with(NamedRule {
            weight: rule.weight,
            kind: target_of(targets, rule.kind),
            own_kind: rule.kind,
            pattern: PatternText::Lent(rule.pattern),
            cased: rule.cased,
        })?;
    }
    Ok(rules)
}

/// Rules, and those of a tree after them, whose patterns lie in the text of these.
fn with_leaves<'a>(
    mut rules: IndexedRules<'a>,
    leaves: &[LeafEntry<'a>],
    targets: &NameMap<'a, &'a [u8]>,
) -> Result<IndexedRules<'a>, OutOfMemory>
    requires found { IsNameMap targets.now }
    requires lie { All (LiesIn rules.patterns) leaves.now }
    requires limits { All FitsRank (map (plain_entry rules.patterns) leaves.now) }
    ensures { IfOk result (AddsRules targets.now (map (plain_entry rules.entry.patterns) leaves.entry.now) rules.entry) }
{
    for leaf in leaves {
        rules = rules.with(NamedRule {
            weight: leaf.weight,
            kind: target_of(targets, leaf.kind),
            own_kind: leaf.kind,
            pattern: PatternText::Stored {
                start: leaf.start,
                length: usize::from(leaf.length),
            },
            cased: leaf.cased,
        })?;
    }
    Ok(rules)
}
