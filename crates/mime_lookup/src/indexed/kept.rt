//! The types of the rules that are kept of a name.

ghost use Rattle.std.specs.Prelude.{◌≡◌, ◌+◌, ◌≤◌, IfOk};
ghost use Rattle.mime_base.specs.Database.{pairs_of, plain_database};
ghost use Rattle.mime_lookup.specs.Ancestry.{kinds_of};
ghost use Rattle.mime_lookup.specs.Choice.{kept};
ghost use Rattle.mime_lookup.specs.IndexBytes.{kept_bytes};
ghost use Rattle.mime_lookup.specs.IndexNodes.{kept_nodes};

use crate::asked::Asked;
use crate::indexed::IndexedDatabase;
use crate::lists::Lists;
use mime_base::{Meter, OutOfMemory};
use std::alloc::Global;

/// The types of the rules that are kept of those that match a name, each after one alias step.
pub fn kept_kinds<'a>(
    alloc: Global,
    index: &IndexedDatabase<'a>,
    name: &[u8],
    meter: &mut Meter,
) -> Result<Vec<&'a [u8]>, OutOfMemory>
    // These are the types of the rules that are kept of the name, each after one alias step.
    ensures kept { IfOk result (λ kinds. kinds_of kinds.items ≡ kept (pairs_of (plain_database index.now)) index.now.rules.items name.now) }
    // No more nodes are counted than the name's length and the rules near it allow.
    ensures nodes { meter.new.nodes ≤ meter.old.nodes + kept_nodes index.now.rules.items name.now }
    // No more bytes are compared than the rules near it allow, or all where most are general patterns.
    ensures bytes { meter.new.bytes ≤ meter.old.bytes + kept_bytes index.now.rules.items name.now }
{
    index.keeps_limits();
    if index.names.is_mostly_general() {
        let lists = Lists {
            database: index.database,
        };
        return lists.kept_kinds(alloc, name, meter);
    }
    let kinds = mime_names::kept_kinds(alloc, &index.names, name, meter)?;
    Ok(kinds)
}
