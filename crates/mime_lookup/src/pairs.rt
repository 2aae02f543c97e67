//! Alias pairs and subclass pairs ("Subclassing", "Directory layout").

ghost use Rattle.std.specs.Prelude.{◌≡◌, bytes_eq, map, IfOk};
ghost use Rattle.mime_base.specs.Database.PlainPairs.{plain_pairs};
ghost use Rattle.mime_base.specs.Database.Subclass.{resolved};
ghost use Rattle.mime_lookup.specs.Ancestry.{kinds_of};

use mime_base::{GlobRule, OutOfMemory, Pair};
use std::alloc::Global;

/// Whether two types are the same.
pub fn is_same(left: &[u8], right: &[u8]) -> bool
    // It says whether the bytes are equal.
    ensures { result ≡ bytes_eq left.now right.now }
{
    left == right
}

/// A type after one alias step.
pub fn unalias<'a>(aliases: &'a [Pair], kind: &'a [u8]) -> &'a [u8]
    // It is the type after one alias step.
    ensures { result.now ≡ resolved (plain_pairs aliases.entry.now) kind.entry.now }
{
    for pair in aliases {
        if is_same(pair.name.bytes(), kind) {
            return pair.target.bytes();
        }
    }
    kind
}

/// The types of some rules, each after one alias step.
pub fn kinds_of_rules<'a>(
    alloc: Global,
    aliases: &'a [Pair],
    rules: &[&'a GlobRule],
) -> Result<Vec<&'a [u8]>, OutOfMemory>
    // These are the types of the rules in their order, each after one alias step.
    ensures { IfOk result (λ kinds. kinds_of kinds.items
        ≡ map (λ rule. resolved (plain_pairs aliases.entry.now) rule.kind) (map (λ rule. rule.now) rules.now)) }
{
    let mut kinds = Vec::new(alloc);
    for rule in rules {
        kinds.push(unalias(aliases, rule.kind.bytes()))?;
    }
    Ok(kinds)
}
