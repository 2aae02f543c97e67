//! The rules of a database, lent to an index.

ghost use Rattle.std.specs.Prelude.{◌≡◌, map, IfOk};
ghost use Rattle.std.specs.List.{All};
ghost use Rattle.mime_base.specs.Database.PlainPairs.{plain_pairs};
ghost use Rattle.mime_base.specs.Kept.{FitsRank};
ghost use Rattle.mime_lookup.specs.Indexed.{unaliased_rule};
ghost use Rattle.mime_lookup.specs.Places.{IsPlaced};

use crate::places::{Places, unalias_at};
use mime_base::{GlobRule, OutOfMemory, class_of};
use mime_names::{IndexedRules, NamedRule, PatternText};
use std::alloc::Global;

/// The rules, which give their types after one alias step.
pub fn lent_rules<'a>(
    alloc: Global,
    rules: &'a [GlobRule],
    aliases: &Places<'a>,
) -> Result<IndexedRules<'a>, OutOfMemory>
    // The places are those of all pairs.
    requires placed { IsPlaced aliases.now }
    // The rules keep the limits of ranks.
    requires limits { All FitsRank rules.now }
    // They give the types of these rules after one alias step.
    ensures given { IfOk result (λ lent. lent.given ≡ map (unaliased_rule (plain_pairs aliases.now.pairs.now)) rules.entry.now) }
    // They are these rules.
    ensures own { IfOk result (λ lent. lent.own ≡ rules.entry.now) }
{
    let mut lent = IndexedRules::new(alloc, rules.len(), Vec::new(alloc))?;
    for rule in rules {
        let own_kind = rule.kind.bytes();
        let named = NamedRule {
            weight: rule.weight,
            kind: unalias_at(aliases, own_kind),
            own_kind,
            pattern: PatternText::Lent(rule.pattern.bytes()),
            cased: rule.cased,
        };
        lent = lent.with_class(class_of(&rule.pattern), named)?;
    }
    Ok(lent)
}
