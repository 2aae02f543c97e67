//! The rules that match a name, by an index over them ("Recommended checking order").

ghost use Rattle.std.specs.Prelude.{◌+◌, ◌≤◌, length, IfOk};
ghost use Rattle.mime_names.specs.Near.{longest, near_bytes, near_nodes, near_rules};
ghost use Rattle.mime_view.specs.RuleHits.{AreRuleHits};

use mime_base::{Meter, OutOfMemory};
use mime_names::{NameIndex, RankedRules, ranked_rules};
use mime_view::{RuleHit, RuleHits};
use std::alloc::Global;

/// All rules of an index that match a name, by falling rank, each with its own type, and how many of these are kept.
pub fn hits_of<'a>(
    alloc: Global,
    index: &NameIndex<'a>,
    name: &[u8],
    meter: &mut Meter,
) -> Result<RuleHits<'a>, OutOfMemory>
    // They are all rules that match.
    ensures hits { IfOk result (AreRuleHits name.now index.now.own) }
    // Three nodes are counted for each byte of the name, six, and one for each rule near it, and no more.
    ensures near { meter.new.nodes ≤ meter.old.nodes + near_nodes (length name.now) (near_rules name.now index.now.given) }
    // No more bytes are compared than the name's length, the longest pattern and the rules near the name allow.
    ensures bytes { meter.new.bytes ≤ meter.old.bytes
        + near_bytes (length name.now) (longest index.now.given) (near_rules name.now index.now.given) }
{
    let RankedRules { rules, kept } = ranked_rules(alloc, index, name, meter)?;
    let mut hits = Vec::with_capacity(alloc, rules.len())?;
    for rule in &rules {
        hits.push_reserved(RuleHit {
            kind: rule.own_kind,
            weight: rule.weight,
            cased: rule.cased,
        });
    }
    Ok(RuleHits { rules: hits, kept })
}
