//! The types of all rules that match a name.

ghost use Rattle.std.specs.Prelude.{◌≡◌, ◌+◌, ◌≤◌, length, IfOk};
ghost use Rattle.mime_base.specs.Database.{pairs_of, plain_database};
ghost use Rattle.mime_lookup.specs.Ancestry.{kinds_of};
ghost use Rattle.mime_lookup.specs.Choice.{candidates, kept};
ghost use Rattle.mime_lookup.specs.IndexBytes.{all_bytes};
ghost use Rattle.mime_lookup.specs.IndexNodes.{all_nodes};

use crate::asked::Asked;
use crate::indexed::IndexedDatabase;
use crate::lists::Lists;
use mime_base::{Meter, OutOfMemory};
use mime_names::RankedKinds;
use std::alloc::Global;

/// The types of all rules that match a name, by falling rank, each after one alias step, and how many of these are kept.
pub fn candidate_kinds<'a>(
    alloc: Global,
    index: &IndexedDatabase<'a>,
    name: &[u8],
    meter: &mut Meter,
) -> Result<RankedKinds<'a>, OutOfMemory>
    // These are the types of all rules that match the name, each after one alias step.
    ensures candidates { IfOk result (λ found. kinds_of found.kinds.items ≡ candidates (pairs_of (plain_database index.now)) index.now.rules.items name.now) }
    // As many of the first are kept as the types of the rules that are.
    ensures count { IfOk result (λ found. found.kept ≡ length (kept (pairs_of (plain_database index.now)) index.now.rules.items name.now)) }
    // No more nodes are counted than the name's length and the rules near it allow.
    ensures nodes { meter.new.nodes ≤ meter.old.nodes + all_nodes index.now.rules.items name.now }
    // No more bytes are compared than the rules near it allow, or all where most are general patterns.
    ensures bytes { meter.new.bytes ≤ meter.old.bytes + all_bytes index.now.rules.items name.now }
{
    index.keeps_limits();
    if index.names.is_mostly_general() {
        let lists = Lists {
            database: index.database,
        };
        return lists.candidate_kinds(alloc, name, meter);
    }
    let found = mime_names::candidate_kinds(alloc, &index.names, name, meter)?;
    Ok(found)
}
