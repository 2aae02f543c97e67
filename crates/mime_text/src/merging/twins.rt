//! Twins of case-sensitive rules, left out of a database.
//!
//! `globs2` gives each case-sensitive rule a twin without the flag, for older readers. A cache for
//! readers that expect none is made without them. That twins count where they are there is this
//! project's own.

ghost use Rattle.std.specs.Prelude.{◌≡◌, ◌&&◌, IfOk, map, not};
ghost use Rattle.std.specs.List.{list_any};
ghost use Rattle.mime_base.specs.Database.{plain_database};
ghost use Rattle.mime_base.specs.Kept.Twins.{are_alike, is_twin};
ghost use Rattle.mime_base.specs.declared.database.rule.GlobRule.{GlobRule as PlainRule};
ghost use Rattle.mime_text.specs.Merging.{twinless_database};
ghost use Rattle.mime_text.specs.Merging.TwinKeys.{has_key_of, is_kept};

use super::hidden::with_marked;
use mime_base::{Database, GlobRule, OutOfMemory};
use std::alloc::Global;
use std::collections::BTreeSet;

/// The weight, type and pattern of a rule.
type RuleKey<'a> = (u8, &'a [u8], &'a [u8]);

/// The database without twins: without each rule that has no flag `cs`, where another rule of the same
/// weight, type and pattern has it.
pub fn without_twins(alloc: Global, database: Database) -> Result<Database, OutOfMemory>
    // The rules that are no twins stay in their order, and all else is as it was.
    ensures { IfOk result (λ kept. plain_database kept ≡ twinless_database (plain_database database)) }
{
    let kept = kept_marks(alloc, &database.rules)?;
    with_marked(alloc, database, kept)
}

/// Which rules are no twins.
fn kept_marks(alloc: Global, rules: &[GlobRule]) -> Result<Vec<bool>, OutOfMemory>
    ensures { IfOk result (λ kept. kept.items ≡ map (λ rule. not (is_twin rules.now rule)) rules.now) }
{
    let cased = cased_keys(alloc, rules)?;
    let mut kept = Vec::with_capacity(alloc, rules.len())?;
    for rule in rules {
        kept.push(is_kept(&cased, rule))?;
    }
    Ok(kept)
}

/// The keys of the case-sensitive rules.
fn cased_keys<'a>(
    alloc: Global,
    rules: &'a [GlobRule],
) -> Result<BTreeSet<RuleKey<'a>>, OutOfMemory>
    ensures { IfOk result (λ keys. (rule : PlainRule) → has_key_of keys rule
        ≡ list_any (λ other. other.cased && are_alike rule other) rules.now) }
{
    let mut keys = BTreeSet::new(alloc);
    for rule in rules {
        if rule.cased {
            keys.insert(key_of(rule))?;
        }
    }
    Ok(keys)
}

/// Whether a rule is case-sensitive, or its key is none of these.
fn is_kept<'a>(cased: &BTreeSet<RuleKey<'a>>, rule: &'a GlobRule) -> bool
    ensures { result ≡ is_kept cased.now rule.entry.now }
{
    rule.cased || !cased.contains(&key_of(rule))
}

fn key_of(rule: &GlobRule) -> RuleKey<'_>
    ensures weight { result.0 ≡ rule.entry.now.weight }
    ensures kind { result.1.now ≡ rule.entry.now.kind }
    ensures pattern { result.2.now ≡ rule.entry.now.pattern }
{
    (rule.weight, rule.kind.bytes(), rule.pattern.bytes())
}
