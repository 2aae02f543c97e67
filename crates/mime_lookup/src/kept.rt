//! The kept rules of a name ("Recommended checking order").

ghost use Rattle.std.specs.Prelude.{◌≡◌, ◌+◌, ◌≤◌, map, IfOk};
ghost use Rattle.mime_base.specs.Kept.{kept_rules};
ghost use Rattle.mime_lookup.specs.IndexBytes.{tried_bytes};

use mime_base::{Best, GlobRule, Meter, OutOfMemory, glob_matches, rank_of_rule};
use std::alloc::Global;

/// The rules that are kept of those that match, in their order.
pub fn kept_rules<'a>(
    alloc: Global,
    rules: &'a [GlobRule],
    name: &[u8],
    meter: &mut Meter,
) -> Result<Vec<&'a GlobRule>, OutOfMemory>
    // These are the rules that are kept of the name, in merged order.
    ensures kept { IfOk result (λ kept. map (λ rule. rule.now) kept.items ≡ kept_rules rules.now name.now) }
    // No record of a cache is visited.
    ensures nodes { meter.new.nodes ≡ meter.old.nodes }
    // Each rule is tried once, and no more bytes are compared.
    ensures bytes { meter.new.bytes ≤ meter.old.bytes + tried_bytes rules.now name.now }
{
    let mut best = Best::new(alloc);
    for rule in rules {
        if glob_matches(rule.pattern.bytes(), rule.cased, name, meter) {
            best.offer(rank_of_rule(rule), rule)?;
        }
    }
    Ok(best.into_items())
}
