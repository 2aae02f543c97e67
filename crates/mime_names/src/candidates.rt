//! The types of all rules that match a name, the preferred ones first.

ghost use Rattle.std.specs.Prelude.{◌≡◌, ◌+◌, ◌≤◌, length, map, IfOk};
ghost use Rattle.mime_base.specs.Kept.{candidate_rules, kept_rules};
ghost use Rattle.mime_names.specs.Index.{texts_of};
ghost use Rattle.mime_names.specs.Near.{longest, near_bytes, near_nodes, near_rules};

use crate::index::NameIndex;
use crate::ranked::{RankedRules, ranked_rules};
use mime_base::{Meter, OutOfMemory};
use std::alloc::Global;

/// The types that the rules that match a name give.
#[derive(Drop)]
pub struct RankedKinds<'a> {
    /// The types, by falling rank of the rules.
    pub kinds: Vec<&'a [u8]>,
    /// How many of the first are those of rules that are kept.
    pub kept: usize,
}

/// The types that all rules that match a name give, by falling rank, and how many of these are kept; those of one rank are in their
/// order.
///
/// The meter counts the steps in the index as nodes, and the bytes of the name that are compared.
pub fn candidate_kinds<'a>(
    alloc: Global,
    index: &NameIndex<'a>,
    name: &[u8],
    meter: &mut Meter,
) -> Result<RankedKinds<'a>, OutOfMemory>
    // They are the types of all rules that match, the preferred ones first.
    ensures candidates { IfOk result (λ found. texts_of found.kinds.items ≡ map (λ rule. rule.kind) (candidate_rules index.now.given name.now)) }
    // As many of the first are kept as the rules that are.
    ensures kept { IfOk result (λ found. found.kept ≡ length (kept_rules index.now.given name.now)) }
    // Three nodes are counted for each byte of the name, six, and one for each rule near it, and no more.
    ensures near { meter.new.nodes ≤ meter.old.nodes + near_nodes (length name.now) (near_rules name.now index.now.given) }
    // No more bytes are compared than the name's length, the longest pattern and the rules near the name allow.
    ensures bytes { meter.new.bytes ≤ meter.old.bytes
        + near_bytes (length name.now) (longest index.now.given) (near_rules name.now index.now.given) }
{
    let RankedRules { rules, kept } = ranked_rules(alloc, index, name, meter)?;
    let mut kinds = Vec::with_capacity(alloc, rules.len())?;
    for rule in &rules {
        kinds.push_reserved(rule.kind);
    }
    Ok(RankedKinds { kinds, kept })
}
