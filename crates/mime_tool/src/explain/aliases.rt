//! The alias step over pairs that are lent.

ghost use Rattle.std.specs.Prelude.{◌≡◌, IfOk, bytes_eq, map};
ghost use Rattle.mime_base.specs.Database.Lent.{plain_rule};
ghost use Rattle.mime_base.specs.Database.Subclass.{resolved};
ghost use Rattle.mime_base.specs.declared.database.lent.LentRule as spec;
ghost use Rattle.mime_load.specs.Lent.{plain_pairs};
ghost use Rattle.mime_tool.specs.ExplainSteps.{kinds_of};

use mime_base::LentRule;
use mime_load::LentPair;
use std::alloc::{AllocError, Global};

/// A type after one alias step.
pub(super) fn unalias<'l, 'b: 'l>(aliases: &[LentPair<'b>], kind: &'l [u8]) -> &'l [u8]
    // It is the type after one alias step.
    ensures { result.now ≡ resolved (plain_pairs aliases.now) kind.entry.now }
{
    for pair in aliases {
        if is_same(pair.name, kind) {
            return pair.target;
        }
    }
    kind
}

/// Whether two types are the same.
pub(super) fn is_same(left: &[u8], right: &[u8]) -> bool
    // It says whether the bytes are equal.
    ensures { result ≡ bytes_eq left.now right.now }
{
    left == right
}

/// The types of some rules, each after one alias step.
pub(super) fn kinds_of<'l, 'b: 'l>(
    alloc: Global,
    aliases: &[LentPair<'b>],
    rules: &[LentRule<'l>],
) -> Result<Vec<&'l [u8]>, AllocError>
    // These are the types of the rules in their order, each after one alias step.
    ensures { IfOk result (λ kinds. kinds_of kinds.items
        ≡ map (λ rule. resolved (plain_pairs aliases.now) (plain_rule rule).kind) rules.now) }
{
    let mut kinds = Vec::new(alloc);
    for rule in rules {
        kinds.push(unalias(aliases, rule.kind))?;
    }
    Ok(kinds)
}
